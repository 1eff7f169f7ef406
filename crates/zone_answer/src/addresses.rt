//! The addresses of names that records name (RFC 1034, section 4.3.2, step 6; RFC 9471).

ghost use Rattle.std.specs.Prelude.{◌≡◌, ◌≤◌, length, None, OnOk, Some, filter_map, flat_map};
ghost use Rattle.std.specs.BTreeSet.{contains};
ghost use Rattle.zone_answer.specs.Prelude.{most_item_octets, Version, Adds, Shows, ShowsSome, RisingOctets, name_cmp, rows_of, rrset_of};
ghost use Rattle.zone_answer.specs.Prelude.{GoesTo, addresses, addresses_for, addresses_of, name_from, once, owned_rows, with_owner};

use crate::named::{A, AAAA, name_from, octets_before};
use crate::records::read_owned;
use crate::sink::RowSink;
use crate::walker::Walker;
use dns_name::Name;
use rr_data::{ItemView, SetView};
use std::alloc::{AllocError, Global};
use std::collections::BTreeSet;
use trie_read::Reading;

/// Hands on the RRset of a type, if there is one.
fn push_set<S: RowSink>(
    alloc: Global,
    entry: &ItemView<'_>,
    owner: &Name,
    rtype: u16,
    rows: &mut S,
) -> Result<(), AllocError>
    ensures { OnOk result (Adds (S.has rows.old) (S.has rows.new) (owned_rows (with_owner owner.now (rrset_of rtype entry.now)))) }
{
    match entry.find_set(rtype) {
        Some(set) => rows.push(alloc, owner, &set),
        None => Ok(()),
    }
}

/// Hands on the addresses that the version has for a name of the zone.
fn push_addresses<V: Reading, S: RowSink>(
    alloc: Global,
    version: &mut V,
    origin: &Name,
    name: &Name,
    walker: &mut Walker,
    item: &mut [u8],
    rows: &mut S,
) -> Result<(), AllocError>
    requires shown { ShowsSome (V.holds version.old) }
    requires room { most_item_octets ≤ length item.old }
    ensures same { version.new ≡ version.old }
    ensures adds { (zone : Version) → Shows (V.holds version.old) zone
        → OnOk result (Adds (S.has rows.old) (S.has rows.new) (owned_rows (addresses origin.now zone name.now))) }
{
    if !name.is_under(origin) {
        return Ok(());
    }
    walker.key.set(name);
    let len = read_owned(version, name, &walker.key, item);
    let entry = ItemView::of(name, &item[..len]);
    push_set(alloc, &entry, name, A, rows)?;
    push_set(alloc, &entry, name, AAAA, rows)
}

/// Hands on the addresses of the name that data are from a place on.
fn push_named<V: Reading, S: RowSink>(
    alloc: Global,
    version: &mut V,
    origin: &Name,
    place: usize,
    octets: &[u8],
    walker: &mut Walker,
    item: &mut [u8],
    rows: &mut S,
) -> Result<(), AllocError>
    requires shown { ShowsSome (V.holds version.old) }
    requires room { most_item_octets ≤ length item.old }
    ensures same { version.new ≡ version.old }
    ensures adds { (zone : Version) → Shows (V.holds version.old) zone
        → OnOk result (Adds (S.has rows.old) (S.has rows.new) (owned_rows (addresses_of origin.now zone (name_from place octets.now)))) }
{
    match name_from(place, octets) {
        Some(name) => push_addresses(alloc, version, origin, &name, walker, item, rows),
        None => Ok(()),
    }
}

/// Hands on the addresses of each name that records name, one record after the other.
fn push_each<V: Reading, S: RowSink>(
    alloc: Global,
    version: &mut V,
    origin: &Name,
    set: &SetView<'_>,
    place: usize,
    walker: &mut Walker,
    item: &mut [u8],
    rows: &mut S,
) -> Result<(), AllocError>
    requires shown { ShowsSome (V.holds version.old) }
    requires room { most_item_octets ≤ length item.old }
    ensures same { version.new ≡ version.old }
    ensures adds { (zone : Version) → Shows (V.holds version.old) zone → OnOk result (Adds (S.has rows.old) (S.has rows.new)
        (owned_rows (flat_map (addresses origin.now zone) (filter_map (name_from place) set.now.records)))) }
{
    let mut records = set.records();
    while let Some(octets) = records.next() {
        push_named(alloc, version, origin, place, octets, walker, item, rows)?;
    }
    Ok(())
}

/// Hands on the addresses of the name that data are from a place on, unless it is among those that were gone to. It is then.
fn push_new<V: Reading, S: RowSink>(
    alloc: Global,
    version: &mut V,
    origin: &Name,
    place: usize,
    octets: &[u8],
    gone_to: &mut BTreeSet<Name>,
    walker: &mut Walker,
    item: &mut [u8],
    rows: &mut S,
) -> Result<(), AllocError>
    requires shown { ShowsSome (V.holds version.old) }
    requires room { most_item_octets ≤ length item.old }
    ensures same { version.new ≡ version.old }
    ensures adds { (zone : Version) → Shows (V.holds version.old) zone → OnOk result (GoesTo (addresses origin.now zone) (name_from place octets.now)
        (contains name_cmp gone_to.old) (contains name_cmp gone_to.new) (S.has rows.old) (S.has rows.new)) }
{
    let Some(name) = name_from(place, octets) else {
        return Ok(());
    };
    if !gone_to.insert(name)? {
        return Ok(());
    }
    push_addresses(alloc, version, origin, &name, walker, item, rows)
}

/// Hands on the addresses of each name that records name, where it comes first.
fn push_once<V: Reading, S: RowSink>(
    alloc: Global,
    version: &mut V,
    origin: &Name,
    set: &SetView<'_>,
    place: usize,
    walker: &mut Walker,
    item: &mut [u8],
    rows: &mut S,
) -> Result<(), AllocError>
    requires shown { ShowsSome (V.holds version.old) }
    requires room { most_item_octets ≤ length item.old }
    ensures same { version.new ≡ version.old }
    ensures adds { (zone : Version) → Shows (V.holds version.old) zone → OnOk result (Adds (S.has rows.old) (S.has rows.new)
        (owned_rows (flat_map (addresses origin.now zone) (once (filter_map (name_from place) set.now.records))))) }
{
    let mut gone_to = BTreeSet::new(alloc);
    let mut records = set.records();
    while let Some(octets) = records.next() {
        push_new(
            alloc,
            version,
            origin,
            place,
            octets,
            &mut gone_to,
            walker,
            item,
            rows,
        )?;
    }
    Ok(())
}

/// Hands on the addresses of the names that the records of an RRset name, each name once. Which were gone to is kept only where there
/// are several records that have more in them than a name: no two NS records have the same server.
pub fn push_for<V: Reading, S: RowSink>(
    alloc: Global,
    version: &mut V,
    origin: &Name,
    owner: &Name,
    set: &SetView<'_>,
    walker: &mut Walker,
    item: &mut [u8],
    rows: &mut S,
) -> Result<(), AllocError>
    requires shown { ShowsSome (V.holds version.old) }
    requires room { most_item_octets ≤ length item.old }
    requires rising { RisingOctets None set.now.records }
    ensures same { version.new ≡ version.old }
    ensures adds { (zone : Version) → Shows (V.holds version.old) zone
        → OnOk result (Adds (S.has rows.old) (S.has rows.new) (owned_rows (addresses_for origin.now zone (rows_of owner.now set.now)))) }
{
    let Some(place) = octets_before(set.rtype()) else {
        return Ok(());
    };
    if place == 0 || set.len() < 2 {
        return push_each(alloc, version, origin, set, place, walker, item, rows);
    }
    push_once(alloc, version, origin, set, place, walker, item, rows)
}
