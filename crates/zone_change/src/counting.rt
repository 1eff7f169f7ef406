//! What is counted of an entry, and of what an addition makes of it. No memory is taken.
ghost use Rattle.std.specs.Prelude.{◌≡◌, ◌≢◌, ◌≤◌, ◌+◌, ◌==◌, false, length, flat_map, if◌then◌else◌};
ghost use Rattle.zone_change.specs.Prelude.{Entry, IsEntry, rrset_bytes, has_record, item_limit, holds};
ghost use Rattle.zone_change.specs.Prelude.{with_added, SaysEntry, addition_view, count_of, lone_by, records_in};

use crate::operations::NewRecord;
use dns_name::Name;
use rr_data::{CNAME, ItemView, SOA, SetView};
use std::cmp::Ordering;

/// How many RRsets an entry has, how many records of aliases, and how many octets its item.
#[derive(Clone, Copy)]
pub struct Count {
    pub sets: usize,
    pub aliases: usize,
    pub octets: usize,
}

// Whether an RRset has a record.
pub fn has(set: &SetView<'_>, octets: &[u8]) -> bool
    ensures { result ≡ has_record octets.now set.now.records }
{
    let mut records = set.records();
    while let Some(other) = records.next() {
        if octets.cmp(other) == Ordering::Equal {
            return true;
        }
    }
    false
}

// Whether an entry has a record.
fn holds(entry: &ItemView<'_>, rtype: u16, octets: &[u8]) -> bool
    ensures { result ≡ holds rtype octets.now entry.now }
{
    match entry.find_set(rtype) {
        Some(set) => has(&set, octets),
        None => false,
    }
}

// The octets of an RRset in an item.
fn set_octets(set: &SetView<'_>) -> usize
    requires { length (rrset_bytes set.now) ≤ item_limit }
    ensures { result ≡ length (rrset_bytes set.now) }
{
    let mut octets = 8;
    let mut records = set.records();
    while let Some(other) = records.next() {
        octets += 2 + other.len();
    }
    octets
}

// How many RRsets are left.
fn sets_left(entry: ItemView<'_>) -> usize
    requires { length entry ≤ item_limit }
    ensures { result ≡ length entry.entry }
{
    let mut rest = entry;
    let mut sets = 0;
    while let Some(_set) = rest.next() {
        sets += 1;
    }
    sets
}

// How many aliases there are, where so many records are of a type now.
fn aliases_with(rtype: u16, records: usize, before: usize) -> usize
    ensures { result ≡ (if rtype == 5 then records else before) }
{
    if rtype == CNAME { records } else { before }
}

impl Count {
    /// Of what an owner has, by the octets of its item.
    pub fn of(owner: &Name, octets: &[u8]) -> Count
        requires { (entry : Entry) × SaysEntry owner.now octets.now entry }
        ensures counts { (entry : Entry) → SaysEntry owner.now octets.now entry → result ≡ count_of owner.now entry }
        ensures few { (result.sets ≤ item_limit) × (result.octets ≤ item_limit) }
    {
        let entry = ItemView::of(owner, octets);
        let aliases = match entry.find_set(CNAME) {
            Some(set) => set.len() as usize,
            None => 0,
        };
        let sets = sets_left(entry);
        if octets.is_empty() {
            return Count {
                sets,
                aliases,
                octets: owner.wire().len() + 2,
            };
        }
        Count {
            sets,
            aliases,
            octets: octets.len(),
        }
    }

    /// Whether an alias stands alone.
    pub fn is_lone(&self) -> bool
        ensures { result ≡ lone_by self.now }
    {
        self.aliases == 0 || (self.sets == 1 && self.aliases <= 1)
    }

    // With an SOA that isn't there, in the place of another.
    fn with_soa(self, entry: &ItemView<'_>, added: &NewRecord) -> Count
        requires entry { IsEntry entry.now }
        requires counted { self ≡ count_of added.now.owner entry.now }
        requires short { (self.sets ≤ item_limit) × (self.octets ≤ item_limit) }
        requires soa { added.now.rtype ≡ 6 }
        requires other { holds 6 added.now.rdata entry.now ≡ false }
        ensures { result ≡ count_of added.now.owner (with_added (addition_view added.now) entry.now) }
    {
        let octets = added.rdata.octets().len();
        match entry.find_set(SOA) {
            Some(set) => Count {
                sets: self.sets,
                aliases: self.aliases,
                octets: self.octets + 10 + octets - set_octets(&set),
            },
            None => Count {
                sets: self.sets + 1,
                aliases: self.aliases,
                octets: self.octets + 10 + octets,
            },
        }
    }

    // With a record of another type.
    fn with_record(self, entry: &ItemView<'_>, added: &NewRecord) -> Count
        requires entry { IsEntry entry.now }
        requires counted { self ≡ count_of added.now.owner entry.now }
        requires short { (self.sets ≤ item_limit) × (self.octets ≤ item_limit) }
        requires other { added.now.rtype ≢ 6 }
        ensures { result ≡ count_of added.now.owner (with_added (addition_view added.now) entry.now) }
    {
        let octets = added.rdata.octets();
        let Some(set) = entry.find_set(added.rtype) else {
            return Count {
                sets: self.sets + 1,
                aliases: aliases_with(added.rtype, 1, self.aliases),
                octets: self.octets + 10 + octets.len(),
            };
        };
        if has(&set, octets) {
            return self;
        }
        Count {
            sets: self.sets,
            aliases: aliases_with(added.rtype, set.len() as usize + 1, self.aliases),
            octets: self.octets + 2 + octets.len(),
        }
    }

    /// With a record more, unless it is there; an SOA takes another's place.
    pub fn with(self, entry: &ItemView<'_>, added: &NewRecord) -> Count
        requires entry { IsEntry entry.now }
        requires counted { self ≡ count_of added.now.owner entry.now }
        requires short { (self.sets ≤ item_limit) × (self.octets ≤ item_limit) }
        ensures { result ≡ count_of added.now.owner (with_added (addition_view added.now) entry.now) }
    {
        if added.rtype != SOA {
            return self.with_record(entry, added);
        }
        if holds(entry, SOA, added.rdata.octets()) {
            return self;
        }
        self.with_soa(entry, added)
    }
}
