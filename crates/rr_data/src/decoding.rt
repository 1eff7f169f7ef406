//! The records that the octets of an item say.
ghost use Rattle.std.specs.Prelude.{◌≡◌, ◌≤◌, length, Some, None, Option, IfOk, IfSome};
ghost use Rattle.rr_data.specs.Prelude.{option_map, split_short, split_number, split_record, is_above, split_records};
ghost use Rattle.rr_data.specs.Prelude.{split_set, type_above, split_sets, entry_of, item_of, part_view};

use crate::entry::ITEM_LIMIT;
use crate::rdata::Rdata;
use crate::rrset::RrSet;
use crate::splits::{number_of, short_of, split_name, split_octets};
use std::alloc::{AllocError, Global};
use std::cmp::Ordering;

fn split_short(bytes: &[u8]) -> Option<(u16, &[u8])>
    ensures { option_map (λ x. (x.0, x.1.now)) result ≡ split_short bytes.now }
{
    let (short, rest) = split_octets(2, bytes)?;
    Some((short_of(short), rest))
}

fn split_number(bytes: &[u8]) -> Option<(u32, &[u8])>
    ensures { option_map (λ x. (x.0, x.1.now)) result ≡ split_number bytes.now }
{
    let (number, rest) = split_octets(4, bytes)?;
    Some((number_of(number), rest))
}

// A record: its length, and its octets.
fn split_record(bytes: &[u8]) -> Option<(&[u8], &[u8])>
    ensures splits { option_map part_view result ≡ split_record bytes.now }
    ensures short { IfSome result (λ x. length x.0.now ≤ 65535) }
{
    let (len, rest) = split_short(bytes)?;
    split_octets(len as usize, rest)
}

// The octets are above others, if there are any.
fn is_above(before: Option<&[u8]>, octets: &[u8]) -> bool
    ensures { result ≡ is_above (option_map (λ b. b.now) before.entry) octets.now }
{
    match before {
        Some(last) => last.cmp(octets) == Ordering::Less,
        None => true,
    }
}

// Records in rising octets.
#[tactic(auto, using(crate::proofs::DecodingLemmas::records_rules))]
fn read_records(
    alloc: Global,
    count: u16,
    bytes: &[u8],
) -> Result<Option<(Vec<Rdata>, &[u8])>, AllocError>
    ensures { IfOk result (λ o. option_map (λ x. (x.0.items, x.1.now)) o ≡ split_records count None bytes.now) }
{
    let mut records = Vec::new(alloc);
    let mut before = None;
    let mut rest = bytes;
    let mut left = count;
    while left > 0 {
        let Some((octets, behind)) = split_record(rest) else {
            return Ok(None);
        };
        if !is_above(before, octets) {
            return Ok(None);
        }
        records.push(Rdata::new(Vec::from_slice(alloc, octets)?))?;
        before = Some(octets);
        rest = behind;
        left -= 1;
    }
    Ok(Some((records, rest)))
}

// An RRset: its type, time to live, count and records.
#[tactic(auto, unfolding(zone_model::specs::Items::split_set))]
fn read_set(alloc: Global, bytes: &[u8]) -> Result<Option<(RrSet, &[u8])>, AllocError>
    ensures { IfOk result (λ o. option_map (λ x. (x.0, x.1.now)) o ≡ split_set bytes.now) }
{
    let Some((rtype, behind_type)) = split_short(bytes) else {
        return Ok(None);
    };
    let Some((ttl, behind_ttl)) = split_number(behind_type) else {
        return Ok(None);
    };
    let Some((count, behind_count)) = split_short(behind_ttl) else {
        return Ok(None);
    };
    if count == 0 {
        return Ok(None);
    }
    let Some((records, rest)) = read_records(alloc, count, behind_count)? else {
        return Ok(None);
    };
    Ok(Some((RrSet::new(rtype, ttl, records), rest)))
}

fn type_above(before: Option<u16>, rtype: u16) -> bool
    ensures { result ≡ type_above before rtype }
{
    match before {
        Some(last) => last < rtype,
        None => true,
    }
}

// RRsets in rising type.
#[tactic(auto, using(crate::proofs::DecodingLemmas::sets_rules))]
fn read_sets(
    alloc: Global,
    count: u16,
    bytes: &[u8],
) -> Result<Option<(Vec<RrSet>, &[u8])>, AllocError>
    ensures { IfOk result (λ o. option_map (λ x. (x.0.items, x.1.now)) o ≡ split_sets count None bytes.now) }
{
    let mut sets = Vec::new(alloc);
    let mut before = None;
    let mut rest = bytes;
    let mut left = count;
    while left > 0 {
        let Some((set, behind)) = read_set(alloc, rest)? else {
            return Ok(None);
        };
        let rtype = set.rtype();
        if !type_above(before, rtype) {
            return Ok(None);
        }
        sets.push(set)?;
        before = Some(rtype);
        rest = behind;
        left -= 1;
    }
    Ok(Some((sets, rest)))
}

// The RRsets that stand behind an owner; None where these are no entry.
#[tactic(auto, unfolding(zone_model::specs::Items::entry_of))]
fn read_entry(alloc: Global, bytes: &[u8]) -> Result<Option<Vec<RrSet>>, AllocError>
    ensures { IfOk result (λ o. option_map (λ v. v.items) o ≡ entry_of bytes.now) }
{
    let Some((count, behind_count)) = split_short(bytes) else {
        return Ok(None);
    };
    if count == 0 {
        return Ok(None);
    }
    let Some((sets, rest)) = read_sets(alloc, count, behind_count)? else {
        return Ok(None);
    };
    if !rest.is_empty() {
        return Ok(None);
    }
    Ok(Some(sets))
}

// The RRsets of an item; None where the octets are none.
#[tactic(auto, unfolding(zone_model::specs::Items::item_of))]
pub fn read_item(alloc: Global, bytes: &[u8]) -> Result<Option<Vec<RrSet>>, AllocError>
    ensures { IfOk result (λ o. option_map (λ v. v.items) o ≡ option_map (λ x. x.1) (item_of bytes.now)) }
{
    if bytes.len() > ITEM_LIMIT {
        return Ok(None);
    }
    match split_name(bytes) {
        Some((_owner, rest)) => read_entry(alloc, rest),
        None => Ok(None),
    }
}
