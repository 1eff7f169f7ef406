//! Entries and RRsets where they lie in an item, read without taking memory.
ghost use Rattle.std.specs.Prelude.{◌≡◌, ◌≤◌, ◌∷◌, [], ℕ, List, length, IfSome, MatchOption, Some, None};
ghost use Rattle.rr_data.specs.Prelude.{Rrset, Entry, rrset_of, has_some, BeginsWithRecord, BeginsWithRecords, BeginsWithSet, SaysEntry};

use crate::splits::{number_of, short_of};
use dns_name::Name;
use std::marker::Model;

/// Records of one RRset where they lie in an item, in rising order of their octets. Contracts see those that are left.
#[derive(Drop)]
pub struct RecordViews<'a> {
    left: u16,
    octets: &'a [u8],
}

impl<'a> Model for RecordViews<'a> {
    ghost use Rattle.std.specs.Prelude.{List, ℕ, None};
    ghost use Rattle.zone_model.specs.Items.{split_records};
    ghost use Rattle.rr_data.specs.ItemViews.{records_seen, AreRecords};

    ghost Value = { List (List ℕ) };

    ghost view = { λ r. records_seen (split_records r.left None r.octets.now) };

    ghost invariant = { λ r. (records : List (List ℕ)) × AreRecords r.left r.octets.now records };
}

/// An RRset where it lies in an item.
#[derive(Drop)]
pub struct SetView<'a> {
    pub(crate) rtype: u16,
    pub(crate) ttl: u32,
    pub(crate) count: u16,
    pub(crate) octets: &'a [u8],
}

impl<'a> Model for SetView<'a> {
    ghost use Rattle.std.specs.Prelude.{List, ℕ, None};
    ghost use Rattle.zone_model.specs.Items.{split_records};
    ghost use Rattle.zone_model.specs.Records.{Rrset};
    ghost use Rattle.rr_data.specs.ItemViews.{records_seen, AreRecords};

    ghost Value = { Rrset };

    ghost view = { λ s. record { rtype = s.rtype; ttl = s.ttl; records = records_seen (split_records s.count None s.octets.now) } };

    ghost invariant = { λ s. (records : List (List ℕ)) × AreRecords s.count s.octets.now records };
}

/// RRsets of one owner where they lie in its item, in rising type. Contracts see those that are left.
#[derive(Drop)]
pub struct ItemView<'a> {
    left: u16,
    octets: &'a [u8],
}

impl<'a> Model for ItemView<'a> {
    ghost use Rattle.std.specs.Prelude.{None};
    ghost use Rattle.zone_model.specs.Items.{split_sets};
    ghost use Rattle.zone_model.specs.Records.{Entry};
    ghost use Rattle.rr_data.specs.ItemViews.{sets_seen, AreSets};

    ghost Value = { Entry };

    ghost view = { λ e. sets_seen (split_sets e.left None e.octets.now) };

    ghost invariant = { λ e. (sets : Entry) × AreSets e.left e.octets.now sets };
}

// The record in front, and the octets behind it.
fn first_record(bytes: &[u8]) -> (&[u8], &[u8])
    requires { (octets : List ℕ) × (more : List ℕ) × BeginsWithRecord bytes.now octets more }
    ensures split { (octets more : List ℕ) → BeginsWithRecord bytes.now octets more → (result.0.now ≡ octets) × (result.1.now ≡ more) }
    ensures short { length result.0.now ≤ 65535 }
{
    let (len, rest) = bytes.split_at(2);
    rest.split_at(short_of(len) as usize)
}

// The octets behind so many records.
fn behind_records(count: u16, bytes: &[u8]) -> &[u8]
    requires { (records : List (List ℕ)) × (more : List ℕ) × BeginsWithRecords count bytes.now records more }
    ensures { (records : List (List ℕ)) (more : List ℕ) → BeginsWithRecords count bytes.now records more → result.now ≡ more }
{
    let mut rest = bytes;
    for _ in 0..count {
        let (_octets, behind) = first_record(rest);
        rest = behind;
    }
    rest
}

// The RRset in front, and the octets behind it.
fn first_set(bytes: &[u8]) -> (SetView<'_>, &[u8])
    requires { (s : Rrset) × (more : List ℕ) × BeginsWithSet bytes.now s more }
    ensures { (s : Rrset) (more : List ℕ) → BeginsWithSet bytes.now s more → (result.0 ≡ s) × (result.1.now ≡ more) }
{
    let (rtype, behind_type) = bytes.split_at(2);
    let (ttl, behind_ttl) = behind_type.split_at(4);
    let (number, records) = behind_ttl.split_at(2);
    let count = short_of(number);
    let behind = behind_records(count, records);
    let (octets, _) = records.split_at(records.len() - behind.len());
    let set = SetView {
        rtype: short_of(rtype),
        ttl: number_of(ttl),
        count,
        octets,
    };
    (set, behind)
}

impl<'a> RecordViews<'a> {
    /// The octets of the next record; None where none is left.
    pub fn next(&mut self) -> Option<&'a [u8]>
        ensures next { MatchOption result (self.old ≡ []) (λ octets. self.old ≡ octets.now ∷ self.new) }
        ensures short { IfSome result (λ octets. length octets.now ≤ 65535) }
    {
        if self.left == 0 {
            return None;
        }
        let (octets, behind) = first_record(self.octets);
        self.left -= 1;
        self.octets = behind;
        Some(octets)
    }
}

impl<'a> SetView<'a> {
    pub fn rtype(&self) -> u16
        ensures { result ≡ self.now.rtype }
    {
        self.rtype
    }

    /// Its time to live, in seconds.
    pub fn ttl(&self) -> u32
        ensures { result ≡ self.now.ttl }
    {
        self.ttl
    }

    /// The same records with another time to live.
    pub fn with_ttl(&self, ttl: u32) -> SetView<'a>
        ensures { result ≡ record self.now { ttl = ttl } }
    {
        SetView {
            rtype: self.rtype,
            ttl,
            count: self.count,
            octets: self.octets,
        }
    }

    /// How many records it has.
    pub fn len(&self) -> u16
        ensures { result ≡ length self.now.records }
    {
        self.count
    }

    /// Its records.
    pub fn records(&self) -> RecordViews<'a>
        ensures { result ≡ self.now.records }
    {
        RecordViews {
            left: self.count,
            octets: self.octets,
        }
    }
}

impl<'a> ItemView<'a> {
    /// What an owner has, by the octets of its item; none where it has nothing.
    pub fn of(owner: &Name, octets: &'a [u8]) -> ItemView<'a>
        requires { (entry : Entry) × SaysEntry owner.now octets.now entry }
        ensures { (entry : Entry) → SaysEntry owner.now octets.now entry → result ≡ entry }
    {
        if octets.is_empty() {
            return ItemView { left: 0, octets };
        }
        let (_owner, entry) = octets.split_at(owner.wire().len());
        let (count, sets) = entry.split_at(2);
        ItemView {
            left: short_of(count),
            octets: sets,
        }
    }

    /// The next RRset; None where none is left.
    pub fn next(&mut self) -> Option<SetView<'a>>
        ensures { MatchOption result (self.old ≡ []) (λ s. self.old ≡ s ∷ self.new) }
    {
        if self.left == 0 {
            return None;
        }
        let (set, behind) = first_set(self.octets);
        self.left -= 1;
        self.octets = behind;
        Some(set)
    }

    /// Whether there is an RRset, or one of a type.
    pub fn has(&self, rtype: Option<u16>) -> bool
        ensures { result ≡ has_some rtype self.now }
    {
        match rtype {
            Some(rtype) => self.find_set(rtype).is_some(),
            None => {
                let mut sets = ItemView {
                    left: self.left,
                    octets: self.octets,
                };
                sets.next().is_some()
            }
        }
    }

    /// The RRset of a type, if there is one.
    pub fn find_set(&self, rtype: u16) -> Option<SetView<'a>>
        ensures { MatchOption result (rrset_of rtype self.now ≡ None) (λ s. rrset_of rtype self.now ≡ Some s) }
    {
        let mut rest = ItemView {
            left: self.left,
            octets: self.octets,
        };
        while let Some(set) = rest.next() {
            if set.rtype() == rtype {
                return Some(set);
            }
        }
        None
    }
}
