//! What one name gives to an answer.

ghost use Rattle.std.specs.Prelude.{◌≡◌, ◌≤◌, length, Option, Some, None, MatchOption, true};
ghost use Rattle.zone_answer.specs.Prelude.{option_map, key_of, Records, IsHeld, held_at, most_item_octets, Labels, is_under, rrset_of, rows_of};
ghost use Rattle.zone_answer.specs.Prelude.{split_name, Version, exists, owned, Ends, LeadsTo, alias_in, by_alias, step, target_of};
ghost use Rattle.zone_answer.specs.Prelude.{set_rows, ns_type, Gives, GivesAtOnce, NoneOver, CanGive, IsApart, Shows, ShowsSome};

use crate::cut::{Cut, cut_over, is_cut, is_right_under};
use crate::kind::Kind;
use crate::node::absent_node;
use crate::records::read_owned;
use crate::sink::RowSink;
use crate::walker::Walker;
use dns_name::Name;
use rr_data::{CNAME, ItemView, NS, SetView};
use shift_key::Key;
use std::alloc::{AllocError, Global};
use trie_read::Reading;

/// How an answer goes on.
#[derive(Clone, Copy)]
pub enum Next {
    /// It ends.
    Ends(Kind),
    /// An alias leads on. Its target lies where the walker has it: none where the alias's data are no name.
    Leads,
}

/// The name that octets begin with.
fn name_in(octets: &[u8]) -> Option<Name>
    ensures { result ≡ option_map (λ x. x.0) (split_name octets.now) }
{
    Name::from_wire(octets)
}

/// The name that an alias's data are.
fn target_of(alias: &SetView<'_>) -> Option<Name>
    ensures { result ≡ target_of alias.now.records }
{
    let mut records = alias.records();
    match records.next() {
        Some(octets) => name_in(octets),
        None => None,
    }
}

/// The alias among a name's records, unless it is itself asked for.
fn alias_in<'a>(entry: &ItemView<'a>, rtype: u16) -> Option<SetView<'a>>
    ensures { MatchOption result (alias_in rtype entry.now ≡ None) (λ s. alias_in rtype entry.now ≡ Some s) }
{
    if rtype == CNAME {
        None
    } else {
        entry.find_set(CNAME)
    }
}

/// What an alias gives under an owner. Its target is put apart. It stands by itself, since a function clears the room for all names that it may read.
#[inline(never)]
fn give_alias<S: RowSink>(
    alloc: Global,
    alias: &SetView<'_>,
    owner: &Name,
    target: &mut Option<Name>,
    rows: &mut S,
) -> Result<Next, AllocError>
    ensures { Gives (record { rows = rows_of owner.now alias.now; next = LeadsTo (target_of alias.now.records) })
        (S.has rows.old) (S.has rows.new) target.new result }
{
    rows.push(alloc, owner, alias)?;
    *target = target_of(alias);
    Ok(Next::Leads)
}

/// What these records give under an owner. The target of an alias among them is put apart.
fn give<S: RowSink>(
    alloc: Global,
    entry: &ItemView<'_>,
    owner: &Name,
    rtype: u16,
    target: &mut Option<Name>,
    rows: &mut S,
) -> Result<Next, AllocError>
    ensures { Gives (by_alias owner.now rtype entry.now (alias_in rtype entry.now)) (S.has rows.old) (S.has rows.new) target.new result }
{
    if let Some(alias) = alias_in(entry, rtype) {
        return give_alias(alloc, &alias, owner, target, rows);
    }
    match entry.find_set(rtype) {
        Some(set) => {
            rows.push(alloc, owner, &set)?;
            Ok(Next::Ends(Kind::Answered))
        }
        None => Ok(Next::Ends(Kind::Nodata)),
    }
}

/// A referral to the servers of a cut.
fn refer<S: RowSink>(
    alloc: Global,
    cut: &Name,
    entry: &ItemView<'_>,
    rows: &mut S,
) -> Result<Next, AllocError>
    ensures { (target : Option Labels) →
        Gives (record { rows = set_rows cut.now (rrset_of ns_type entry.now); next = Ends Kind.Referral })
        (S.has rows.old) (S.has rows.new) target result }
{
    if let Some(servers) = entry.find_set(NS) {
        rows.push(alloc, cut, &servers)?;
        return Ok(Next::Ends(Kind::Referral));
    }
    Ok(Next::Ends(Kind::Referral))
}

/// A referral to the servers of a cut above a name, by what was read of it. It stands by itself, since a function clears the room for all names
/// that it may read.
#[inline(never)]
fn refer_above<S: RowSink>(
    alloc: Global,
    name: &Name,
    cut: Cut,
    item: &[u8],
    rows: &mut S,
) -> Result<Next, AllocError>
    requires few { cut.labels ≤ length name.now }
    requires held { (entry : Records) × IsHeld item.now (held_at name.now cut) entry }
    ensures { (target : Option Labels) (entry : Records) → IsHeld item.now (held_at name.now cut) entry
        → Gives (record { rows = set_rows (held_at name.now cut).name (rrset_of ns_type entry); next = Ends Kind.Referral })
        (S.has rows.old) (S.has rows.new) target result }
{
    let held = cut.held(name);
    refer(alloc, &held.name, &held.view(item), rows)
}

/// What a name that is there gives, where none above it is a cut.
fn give_own<S: RowSink>(
    alloc: Global,
    origin: &Name,
    name: &Name,
    entry: &ItemView<'_>,
    rtype: u16,
    target: &mut Option<Name>,
    rows: &mut S,
) -> Result<Next, AllocError>
    requires { is_under name.now origin.now ≡ true }
    ensures { (zone : Version) → NoneOver origin.now name.now zone → entry.now ≡ owned name.now zone → exists name.now zone ≡ true
        → Gives (step origin.now zone rtype name.now) (S.has rows.old) (S.has rows.new) target.new result }
{
    if is_cut(origin, name, entry) {
        return refer(alloc, name, entry, rows);
    }
    give(alloc, entry, name, rtype, target, rows)
}

/// What a name that isn't there gives, where none above it is a cut, whose key has its positions before a place in common with the nearest name's. The walker
/// has the name's key.
fn give_absent<V: Reading, S: RowSink>(
    alloc: Global,
    version: &mut V,
    walker: &mut Walker,
    name: &Name,
    place: u16,
    rtype: u16,
    item: &mut [u8],
    rows: &mut S,
) -> Result<Next, AllocError>
    requires apart { (zone : Version) × IsApart (V.holds version.old) (V.stands version.old walker.old.iter) name.now place zone }
    requires key { walker.old.key ≡ key_of name.now }
    requires room { most_item_octets ≤ length item.old }
    ensures same { version.new ≡ version.old }
    ensures gives { (zone : Version) (origin : Labels) → IsApart (V.holds version.old) (V.stands version.old walker.old.iter) name.now place zone
        → NoneOver origin name.now zone
        → Gives (step origin zone rtype name.now) (S.has rows.old) (S.has rows.new) walker.new.target result }
{
    match absent_node(version, walker, name, place, item) {
        Some(held) => give(
            alloc,
            &held.view(item),
            name,
            rtype,
            &mut walker.target,
            rows,
        ),
        None => Ok(Next::Ends(Kind::Nxdomain)),
    }
}

/// What a name gives, by one walk of the trie: the cuts above it, what it owns, or how far the nearest name is the same. The walker has the name's key.
/// It stands by itself, for names that are read at once.
#[inline(never)]
fn search<V: Reading, S: RowSink>(
    alloc: Global,
    version: &mut V,
    origin: &Name,
    name: &Name,
    rtype: u16,
    walker: &mut Walker,
    item: &mut [u8],
    rows: &mut S,
) -> Result<Next, AllocError>
    requires { CanGive (V.holds version.old) origin.now name.now walker.old.key item.old }
    ensures same { version.new ≡ version.old }
    ensures gives { (zone : Version) → Shows (V.holds version.old) zone
        → Gives (step origin.now zone rtype name.now) (S.has rows.old) (S.has rows.new) walker.new.target result }
{
    let _wire = name.wire(); // for the proof
    version.restart(&mut walker.iter);
    let reached = version.reach(&mut walker.iter, &walker.key, &mut walker.above);
    if let Some(cut) = cut_over(version, origin, name, walker.above.as_slice(), item) {
        return refer_above(alloc, name, cut, item, rows);
    }
    let Some(met) = reached else {
        return Ok(Next::Ends(Kind::Nxdomain));
    };
    match met.difference {
        Some(first) => give_absent(alloc, version, walker, name, first.place, rtype, item, rows),
        None => {
            let len = version.read(met.leaf, item);
            let entry = ItemView::of(name, &item[..len]);
            give_own(alloc, origin, name, &entry, rtype, &mut walker.target, rows)
        }
    }
}

/// What a name gives that is right under the origin, if it is there: no cut can lie above it. No rows are added where it tells nothing.
#[inline(always)]
pub fn give_there<V: Reading, S: RowSink>(
    alloc: Global,
    version: &mut V,
    origin: &Name,
    name: &Name,
    key: &Key,
    rtype: u16,
    item: &mut [u8],
    target: &mut Option<Name>,
    rows: &mut S,
) -> Result<Option<Next>, AllocError>
    requires { CanGive (V.holds version.old) origin.now name.now key.now item.old }
    ensures same { version.new ≡ version.old }
    ensures gives { (zone : Version) → Shows (V.holds version.old) zone
        → GivesAtOnce (step origin.now zone rtype name.now) (S.has rows.old) (S.has rows.new) target.new result }
{
    if !is_right_under(origin, name) {
        return Ok(None);
    }
    let len = read_owned(version, name, key, item);
    if len == 0 {
        return Ok(None);
    }
    let entry = ItemView::of(name, &item[..len]);
    let next = give_own(alloc, origin, name, &entry, rtype, target, rows)?;
    Ok(Some(next))
}

/// Adds the rows that a name at or under the origin gives, and tells how the answer goes on. Items are read into `item`.
#[inline(always)]
pub fn step<V: Reading, S: RowSink>(
    alloc: Global,
    version: &mut V,
    origin: &Name,
    name: &Name,
    rtype: u16,
    walker: &mut Walker,
    item: &mut [u8],
    rows: &mut S,
) -> Result<Next, AllocError>
    requires shown { ShowsSome (V.holds version.old) }
    requires under { is_under name.now origin.now ≡ true }
    requires room { most_item_octets ≤ length item.old }
    ensures same { version.new ≡ version.old }
    ensures gives { (zone : Version) → Shows (V.holds version.old) zone
        → Gives (step origin.now zone rtype name.now) (S.has rows.old) (S.has rows.new) walker.new.target result }
{
    walker.key.set(name);
    // Right under the origin no cut lies above, so a look-up without a path is enough; where it finds nothing the walk begins anew.
    match give_there(
        alloc,
        version,
        origin,
        name,
        &walker.key,
        rtype,
        item,
        &mut walker.target,
        rows,
    )? {
        Some(next) => Ok(next),
        None => search(alloc, version, origin, name, rtype, walker, item, rows),
    }
}
