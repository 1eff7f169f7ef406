//! The octets of items.
ghost use Rattle.std.specs.Prelude.{◌≡◌, ◌+◌, ◌≤◌, ◌++◌, length, take};
ghost use Rattle.rr_data.specs.Prelude.{flat_map, item_limit, record_bytes, rrset_bytes};

use crate::numbers::{number_octets, short_octets};
use crate::rdata::Rdata;
use crate::rrset::RrSet;

// Writes octets at an index, and answers the index behind them.
pub fn put(out: &mut [u8], at: usize, octets: &[u8]) -> usize
    requires fits { at + length octets.now ≤ item_limit }
    requires room { item_limit ≤ length out.old }
    ensures end { result ≡ at + length octets.now }
    ensures puts { take (at + length octets.now) out.new ≡ take at out.old ++ octets.now }
{
    let end = at + octets.len();
    out[at..end].copy_from_slice(octets);
    end
}

// A record: its length, and its octets.
fn put_record(out: &mut [u8], at: usize, octets: &[u8]) -> usize
    requires fits { at + length (record_bytes octets.now) ≤ item_limit }
    requires room { item_limit ≤ length out.old }
    ensures end { result ≡ at + length (record_bytes octets.now) }
    ensures puts { take (at + length (record_bytes octets.now)) out.new ≡ take at out.old ++ record_bytes octets.now }
{
    let behind_len = put(out, at, &short_octets(octets.len() as u16));
    put(out, behind_len, octets)
}

fn put_records(out: &mut [u8], at: usize, records: &[Rdata]) -> usize
    requires fits { at + length (flat_map record_bytes records.now) ≤ item_limit }
    requires room { item_limit ≤ length out.old }
    ensures end { result ≡ at + length (flat_map record_bytes records.now) }
    ensures puts { take (at + length (flat_map record_bytes records.now)) out.new ≡ take at out.old ++ flat_map record_bytes records.now }
{
    let mut end = at;
    for kept in records {
        end = put_record(out, end, kept.octets());
    }
    end
}

// An RRset: its type, time to live, count and records.
fn put_set(out: &mut [u8], at: usize, set: &RrSet) -> usize
    requires fits { at + length (rrset_bytes set.now) ≤ item_limit }
    requires room { item_limit ≤ length out.old }
    ensures end { result ≡ at + length (rrset_bytes set.now) }
    ensures puts { take (at + length (rrset_bytes set.now)) out.new ≡ take at out.old ++ rrset_bytes set.now }
{
    let records = set.records();
    let behind_type = put(out, at, &short_octets(set.rtype()));
    let behind_ttl = put(out, behind_type, &number_octets(set.ttl()));
    let behind_count = put(out, behind_ttl, &short_octets(records.len() as u16));
    put_records(out, behind_count, records)
}

pub fn put_sets(out: &mut [u8], at: usize, sets: &[RrSet]) -> usize
    requires fits { at + length (flat_map rrset_bytes sets.now) ≤ item_limit }
    requires room { item_limit ≤ length out.old }
    ensures end { result ≡ at + length (flat_map rrset_bytes sets.now) }
    ensures puts { take (at + length (flat_map rrset_bytes sets.now)) out.new ≡ take at out.old ++ flat_map rrset_bytes sets.now }
{
    let mut end = at;
    for set in sets {
        end = put_set(out, end, set);
    }
    end
}
