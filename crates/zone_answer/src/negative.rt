//! The SOA of a negative answer (RFC 2308, sections 3 and 5).

ghost use Rattle.std.specs.Prelude.{◌≡◌, ◌≤◌, ◌<◌, length, slice_index, OnOk};
ghost use Rattle.zone_answer.specs.Prelude.{most_item_octets, Version, Adds, Shows, ShowsSome, minimum_of, negative_soa, with_lesser_time};

use crate::records::read_owned;
use crate::sink::RowSink;
use crate::walker::Walker;
use dns_name::Name;
use rr_data::{ItemView, SOA, SetView};
use std::alloc::{AllocError, Global};
use trie_read::Reading;

// The octet at a place; 0 behind the end.
fn octet_at(octets: &[u8], at: usize) -> u32
    ensures value { result ≡ slice_index octets.now at }
    ensures small { result < 256 }
{
    if at < octets.len() {
        u32::from(octets[at])
    } else {
        0
    }
}

// The last number of data.
fn minimum_of(octets: &[u8]) -> u32
    ensures { result ≡ minimum_of octets.now }
{
    let at = octets.len().saturating_sub(4);
    let high = octet_at(octets, at) * 256 + octet_at(octets, at + 1);
    (high * 256 + octet_at(octets, at + 2)) * 256 + octet_at(octets, at + 3)
}

/// An SOA with the lesser of its time to live and its minimum.
fn with_lesser_time<'a>(soa: &SetView<'a>) -> SetView<'a>
    ensures { result ≡ with_lesser_time soa.now }
{
    let mut records = soa.records();
    match records.next() {
        Some(octets) => soa.with_ttl(soa.ttl().min(minimum_of(octets))),
        None => soa.with_ttl(soa.ttl()),
    }
}

/// Hands on the SOA of a negative answer, if the version has one.
pub fn push_soa<V: Reading, S: RowSink>(
    alloc: Global,
    version: &mut V,
    origin: &Name,
    walker: &mut Walker,
    item: &mut [u8],
    rows: &mut S,
) -> Result<(), AllocError>
    requires shown { ShowsSome (V.holds version.old) }
    requires room { most_item_octets ≤ length item.old }
    ensures same { version.new ≡ version.old }
    ensures adds { (zone : Version) → Shows (V.holds version.old) zone
        → OnOk result (Adds (S.has rows.old) (S.has rows.new) (negative_soa origin.now zone)) }
{
    walker.key.set(origin);
    let len = read_owned(version, origin, &walker.key, item);
    match ItemView::of(origin, &item[..len]).find_set(SOA) {
        Some(soa) => rows.push(alloc, origin, &with_lesser_time(&soa)),
        None => Ok(()),
    }
}
