//! The names of two zones, gone through side by side in canonical order.
ghost use Rattle.std.specs.Prelude.{◌≡◌, ◌≤◌, Some, length, IfOk, OnOk};
ghost use Rattle.zone_diff.specs.Prelude.{Adds, Entry, IsItem, Leaves, Stands, Version, difference, first_name, first_of, item_limit, name_changes};
ghost use Rattle.zone_diff.specs.Prelude.{pairs_ahead, passed_if};

use crate::Serial;
use crate::changes::{Change, OperationSink};
use crate::entries::push_entry;
use dns_name::Name;
use master_file::{LentItems, Zone};
use rr_data::item_buffer;
use std::alloc::{AllocError, Global};
use std::cmp::Ordering;
use std::marker::Model;

/// The names of a version that are left, the first of which is laid down as an item.
pub trait Names {
    ghost use Rattle.std.specs.Prelude.{◌≡◌, [], IsTrue, ◌↔◌};
    ghost use Rattle.zone_model.specs.Versions.{Version};
    ghost use Rattle.zone_diff.specs.NamesAhead.{SaysFirst, behind_first, owner_ahead};

    // These names are left, each with its entry.
    ghost shows: { Self → Version → Type 0 };

    // What the names are read from stays as it was.
    ghost stays: { Self → Self → Type 0 };

    /// No name is left.
    fn is_empty(&self) -> bool
        ensures { (left : Version) → shows self.now left → IsTrue result ↔ (left ≡ []) };

    /// The first name.
    fn owner(&self) -> Option<Name>
        ensures { (left : Version) → shows self.now left → result ≡ owner_ahead left };

    /// The first name's item; no octets where no name is left.
    fn item(&self) -> &[u8]
        requires { (left : Version) × shows self.now left }
        ensures { (left : Version) → shows self.now left → SaysFirst left result.now };

    /// Passes the first name.
    fn pass(&mut self)
        requires { (left : Version) × shows self.old left }
        ensures left { (left : Version) → shows self.old left → shows self.new (behind_first left) }
        ensures source { stays self.old self.new };

    ghost stays_same: { (n : Self) → stays n n };

    ghost stays_on: { (a b c : Self) → stays a b → stays b c → stays a c };
}

/// The name whose item is laid down, and how many octets that has.
#[derive(Clone, Copy)]
pub struct Ahead {
    pub owner: Name,
    pub len: usize,
}

/// The names of a zone that is lent from one on, which is laid down as an item. Contracts see the pairs of name and entry.
#[derive(Drop)]
pub struct NameCursor<'z> {
    ahead: Option<Ahead>,
    octets: Vec<u8>,
    behind: LentItems<'z>,
}

impl<'z> Model for NameCursor<'z> {
    ghost use Rattle.std.specs.Prelude.{◌≤◌, length};
    ghost use Rattle.zone_model.specs.Records.{item_limit};
    ghost use Rattle.zone_model.specs.Versions.{Version};
    ghost use Rattle.zone_diff.specs.NamesAhead.{Stands, pairs_ahead};

    ghost Value = { Version };

    ghost view = { λ c. pairs_ahead c.ahead c.octets.items c.behind };

    ghost invariant = { λ c. (item_limit ≤ length c.octets.items) × Stands c.ahead c.octets.items };
}

/// The owner of an item.
pub fn owner_of(item: &[u8]) -> Name
    requires { (owner : Name) × (entry : Entry) × IsItem item.now owner entry }
    ensures { (owner : Name) (entry : Entry) → IsItem item.now owner entry → result ≡ owner }
{
    let Some(owner) = Name::from_wire(item) else {
        // An item begins with its owner's octets.
        unreachable!();
    };
    owner
}

// Lays down the item of the next name.
fn next_of(behind: &mut LentItems<'_>, octets: &mut [u8]) -> Option<Ahead>
    requires { item_limit ≤ length octets.old }
    ensures names { pairs_ahead result octets.new behind.new ≡ behind.old }
    ensures stands { Stands result octets.new }
{
    let len = behind.next(octets)?;
    let owner = owner_of(&octets[..len]);
    Some(Ahead { owner, len })
}

impl<'z> NameCursor<'z> {
    /// All names of a zone.
    pub fn new(alloc: Global, zone: &'z Zone) -> Result<Self, AllocError>
        ensures { IfOk result (λ c. c ≡ zone.now.pairs) }
    {
        let mut octets = item_buffer(alloc)?;
        let mut behind = zone.items();
        let ahead = next_of(&mut behind, &mut octets);
        Ok(NameCursor {
            ahead,
            octets,
            behind,
        })
    }
}

impl Names for NameCursor<'_> {
    ghost use Rattle.std.specs.Prelude.{◌≡◌};

    ghost shows = { λ c left. left ≡ c };

    ghost stays = { λ a b. Unit {0} };

    fn is_empty(&self) -> bool {
        self.ahead.is_none()
    }

    fn owner(&self) -> Option<Name> {
        match &self.ahead {
            Some(ahead) => Some(ahead.owner),
            None => None,
        }
    }

    fn item(&self) -> &[u8] {
        match &self.ahead {
            Some(ahead) => &self.octets.as_slice()[..ahead.len],
            None => &[],
        }
    }

    fn pass(&mut self) {
        if self.ahead.is_some() {
            self.ahead = next_of(&mut self.behind, &mut self.octets);
        }
    }

    ghost stays_same = { λ n. tt };

    ghost stays_on = { λ a b c h k. tt };
}

// Of two names the one that comes first, and how the one before stands to the one after; a name that there isn't comes last.
fn first_name(old: Option<Name>, new: Option<Name>) -> Option<(Name, Ordering)>
    ensures { result ≡ first_name old new }
{
    match (old, new) {
        (None, None) => None,
        (Some(old), None) => Some((old, Ordering::Less)),
        (None, Some(new)) => Some((new, Ordering::Greater)),
        (Some(old), Some(new)) => match old.cmp(&new) {
            Ordering::Greater => Some((new, Ordering::Greater)),
            order => Some((old, order)),
        },
    }
}

// What becomes of the name that comes first.
fn push_name<B: Names, A: Names, K: OperationSink>(
    alloc: Global,
    serial: Serial,
    owner: &Name,
    order: Ordering,
    before: &B,
    after: &A,
    sink: &mut K,
) -> Result<(), AllocError>
    requires some_before { (left : Version) × B.shows before.now left }
    requires some_after { (left : Version) × A.shows after.now left }
    requires first { (b a : Version) → B.shows before.now b → A.shows after.now a → first_of b a ≡ Some (owner.now, order) }
    ensures { OnOk result ((b a : Version) → B.shows before.now b → A.shows after.now a
        → Adds (K.has sink.old) (K.has sink.new) (name_changes serial owner.now order b a)) }
{
    match order {
        Ordering::Less => sink.push(owner, &Change::Goes),
        Ordering::Equal => push_entry(alloc, serial, owner, before.item(), after.item(), sink),
        Ordering::Greater => push_entry(alloc, serial, owner, &[], after.item(), sink),
    }
}

// Passes the first name, if it is the one at hand.
fn pass_if<N: Names>(at_hand: bool, names: &mut N)
    requires { (left : Version) × N.shows names.old left }
    ensures left { (left : Version) → N.shows names.old left → N.shows names.new (passed_if at_hand left) }
    ensures source { N.stays names.old names.new }
{
    if at_hand {
        names.pass();
    }
}

// What becomes of the name that comes first, which is passed.
fn push_first<B: Names, A: Names, K: OperationSink>(
    alloc: Global,
    serial: Serial,
    before: &mut B,
    after: &mut A,
    sink: &mut K,
) -> Result<(), AllocError>
    requires some_before { (left : Version) × B.shows before.old left }
    requires some_after { (left : Version) × A.shows after.old left }
    ensures sources { B.stays before.old before.new × A.stays after.old after.new }
    ensures left { OnOk result ((b a : Version) → B.shows before.old b → A.shows after.old a
        → Leaves serial (K.has sink.old) (K.has sink.new) (difference serial b a) (B.shows before.new) (A.shows after.new)) }
{
    let Some(first) = first_name(before.owner(), after.owner()) else {
        return Ok(());
    };
    let (owner, order) = first;
    push_name(alloc, serial, &owner, order, before, after, sink)?;
    pass_if(order.is_le(), before);
    pass_if(order.is_ge(), after);
    Ok(())
}

/// Pushes the operations that make of a version another one, name by name; no name that was passed is looked at again. More names than
/// 64 bits count are taken for want of memory.
pub fn push_between<B: Names, A: Names, K: OperationSink>(
    alloc: Global,
    serial: Serial,
    before: &mut B,
    after: &mut A,
    sink: &mut K,
) -> Result<(), AllocError>
    requires some_before { (left : Version) × B.shows before.old left }
    requires some_after { (left : Version) × A.shows after.old left }
    ensures sources { B.stays before.old before.new × A.stays after.old after.new }
    ensures added { OnOk result ((b a : Version) → B.shows before.old b → A.shows after.old a
        → Adds (K.has sink.old) (K.has sink.new) (difference serial b a)) }
{
    'names: for _ in 0..u64::MAX {
        if before.is_empty() && after.is_empty() {
            return Ok(());
        }
        push_first(alloc, serial, before, after, sink)?;
    }
    Err(AllocError)
}

/// The same of two zones. Each of both is in memory once.
pub fn push_difference<K: OperationSink>(
    alloc: Global,
    serial: Serial,
    before: Zone,
    after: Zone,
    sink: &mut K,
) -> Result<(), AllocError>
    ensures { OnOk result (Adds (K.has sink.old) (K.has sink.new) (difference serial before.pairs after.pairs)) }
{
    let mut old = NameCursor::new(alloc, &before)?;
    let mut new = NameCursor::new(alloc, &after)?;
    push_between(alloc, serial, &mut old, &mut new, sink)
}
