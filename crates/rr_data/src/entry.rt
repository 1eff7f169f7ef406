//! An entry.
ghost use Rattle.std.specs.Prelude.{◌≡◌, ◌<◌, ◌≤◌, [], ◌-◌, ◌^◌, ◌↔◌};
ghost use Rattle.std.specs.Prelude.{List, Option, length, OnOk, OnErr, MatchOption, take, Some, None, min, slice_get, IsTrue, IsNone, IsSome, IfSome, IfOk};
ghost use Rattle.rr_data.specs.Prelude.{Rrset, with_rr, without_rr, without_set, rrset_of, item};
ghost use Rattle.rr_data.specs.Prelude.{item_limit, rrset_bytes, IsEntry, IsItem, TellsChange, Decodes};

use crate::decoding::read_item;
use crate::encoding::{put, put_sets};
use crate::numbers::short_octets;
use crate::places::place_of;
use crate::rdata::Rdata;
use crate::refusal::DecodeRefusal;
use crate::rrset::RrSet;
use dns_name::Name;
use std::alloc::{AllocError, Global};
use std::cmp::Ordering;
use std::marker::Model;

/// The most octets of an item.
pub const ITEM_LIMIT: usize = 65_535;

/// Room for any item.
pub fn item_buffer(alloc: Global) -> Result<Vec<u8>, AllocError>
    ensures { IfOk result (λ v. length v.items ≡ item_limit) }
{
    vec![in alloc; 0; ITEM_LIMIT]
}

/// The records of one name: its RRsets in rising type.
#[derive(Drop)]
pub struct Entry {
    sets: Vec<RrSet>,
}

impl Model for Entry {
    ghost use Rattle.std.specs.Prelude.{List};
    ghost use Rattle.zone_model.specs.Records.{Rrset};

    ghost Value = { List Rrset };

    ghost use Rattle.zone_model.specs.Records.{IsEntry};

    ghost view = { λ e. e.sets.items };

    ghost invariant = { λ e. IsEntry e.sets.items };
}

impl Clone for Entry {
    ghost is_clone = { λ a b. b ≡ a };

    fn clone(&self) -> Result<Entry, AllocError> {
        Ok(Entry {
            sets: self.sets.clone()?,
        })
    }
}

// Adds a record to the RRset of its type. Answers whether it was added.
fn add_to(
    alloc: Global,
    sets: &mut Vec<RrSet>,
    rtype: u16,
    ttl: u32,
    added: Rdata,
) -> Result<bool, AllocError>
    requires { IsEntry sets.old.items }
    ensures ok { OnOk result (sets.new.items ≡ with_rr rtype ttl added sets.old.items) }
    ensures changed { IfOk result (λ changed. TellsChange changed sets.old.items sets.new.items) }
    ensures err { OnErr result (sets.new.items ≡ sets.old.items) }
{
    match place_of(sets, rtype) {
        Ok(at) => {
            let set = &mut sets[at];
            set.add(added)
        }
        Err(at) => {
            let set = RrSet::of(alloc, rtype, ttl, added)?;
            if sets.is_empty() {
                sets.reserve_exact(1)?;
            }
            sets.insert(at, set)?;
            Ok(true)
        }
    }
}

// Removes the RRset of a type. Answers whether there was one.
fn remove_set(sets: &mut Vec<RrSet>, rtype: u16) -> bool
    requires { IsEntry sets.old.items }
    ensures value { sets.new.items ≡ without_set rtype sets.old.items }
    ensures changed { TellsChange result sets.old.items sets.new.items }
{
    let Ok(at) = place_of(sets, rtype) else {
        return false;
    };
    let _removed = sets.remove(at);
    true
}

// Removes a record, and its RRset with the last one. Answers whether it was there.
fn remove_from(sets: &mut Vec<RrSet>, rtype: u16, octets: &[u8]) -> bool
    requires { IsEntry sets.old.items }
    ensures value { sets.new.items ≡ without_rr rtype octets.now sets.old.items }
    ensures changed { TellsChange result sets.old.items sets.new.items }
{
    let Ok(at) = place_of(sets, rtype) else {
        return false;
    };
    let set = &mut sets[at];
    let changed = set.remove(octets);
    if sets[at].is_empty() {
        let _removed = sets.remove(at);
        return true;
    }
    changed
}

// The octets of an RRset in an item.
fn set_len(set: &RrSet) -> usize
    ensures { result ≡ min (length (rrset_bytes set.now)) (2 ^ 64 - 1) }
{
    let mut len = 8usize;
    for kept in set.records() {
        len = len.saturating_add(2).saturating_add(kept.octets().len());
    }
    len
}

impl Entry {
    /// An entry without records.
    pub fn empty(alloc: Global) -> Self
        ensures { result ≡ [] }
    {
        Entry {
            sets: Vec::new(alloc),
        }
    }

    /// Whether it has no records.
    pub fn is_empty(&self) -> bool
        ensures { IsTrue result ↔ (self.now ≡ []) }
    {
        self.sets.is_empty()
    }

    /// How many RRsets it has.
    pub fn sets(&self) -> usize
        ensures { result ≡ length self.now }
    {
        self.sets.len()
    }

    /// The RRset at an index, in rising type.
    pub fn set_at(&self, index: usize) -> &RrSet
        requires { index < length self.now }
        ensures { slice_get self.now index ≡ Some result.now }
    {
        &self.sets[index]
    }

    /// Whether it has an RRset of a type.
    pub fn has(&self, rtype: u16) -> bool
        ensures { IsTrue result ↔ IsSome (rrset_of rtype self.now) }
    {
        self.find_set(rtype).is_some()
    }

    /// The RRset of a type, if it has one.
    pub fn find_set(&self, rtype: u16) -> Option<&RrSet>
        ensures { MatchOption result (rrset_of rtype self.now ≡ None) (λ s. rrset_of rtype self.now ≡ Some s.now) }
    {
        for set in &self.sets {
            match rtype.cmp(&set.rtype()) {
                Ordering::Less => return None,
                Ordering::Equal => return Some(set),
                Ordering::Greater => {}
            }
        }
        None
    }

    /// Adds a record, unless it is there, and answers whether it was added. An RRset that is there keeps its time to
    /// live. The rules on SOA and CNAME are the caller's.
    pub fn add(
        &mut self,
        alloc: Global,
        rtype: u16,
        ttl: u32,
        added: Rdata,
    ) -> Result<bool, AllocError>
        ensures ok { OnOk result (self.new ≡ with_rr rtype ttl added self.old) }
        ensures changed { IfOk result (λ changed. TellsChange changed self.old self.new) }
        ensures err { OnErr result (self.new ≡ self.old) }
    {
        let _octets = added.octets(); // for the proof
        add_to(alloc, &mut self.sets, rtype, ttl, added)
    }

    /// Removes the RRset of a type, and answers whether there was one.
    pub fn del_set(&mut self, rtype: u16) -> bool
        ensures value { self.new ≡ without_set rtype self.old }
        ensures changed { TellsChange result self.old self.new }
    {
        remove_set(&mut self.sets, rtype)
    }

    /// Removes a record, and answers whether it was there. An RRset goes with its last record.
    pub fn del_one(&mut self, rtype: u16, rdata: &Rdata) -> bool
        ensures value { self.new ≡ without_rr rtype rdata.now self.old }
        ensures changed { TellsChange result self.old self.new }
    {
        remove_from(&mut self.sets, rtype, rdata.octets())
    }

    /// The number of octets of the item of this entry, at most the greatest `usize`.
    pub fn item_len(&self, owner: &Name) -> usize
        ensures { result ≡ min (length (item owner.now self.now)) (2 ^ 64 - 1) }
    {
        let mut len = owner.wire().len().saturating_add(2);
        for set in &self.sets {
            len = len.saturating_add(set_len(set));
        }
        len
    }

    /// Writes the item of an owner and this entry, and answers its number of octets; None where these are over 65,535,
    /// and then nothing is written.
    pub fn encode(&self, owner: &Name, out: &mut [u8]) -> Option<usize>
        requires some { 0 < length self.now }
        requires room { item_limit ≤ length out.old }
        ensures item { IfSome result (λ n. IsItem (take n out.new) owner.now self.now) }
        ensures length { IfSome result (λ n. n ≡ length (item owner.now self.now)) }
        ensures long { IsNone result ↔ (item_limit < length (item owner.now self.now)) }
        ensures kept { IsNone result → out.new ≡ out.old }
    {
        if self.item_len(owner) > ITEM_LIMIT {
            return None;
        }
        let behind_owner = put(out, 0, owner.wire());
        let behind_count = put(out, behind_owner, &short_octets(self.sets.len() as u16));
        Some(put_sets(out, behind_count, &self.sets))
    }

    /// The entry of an item, whatever its owner.
    pub fn decode(alloc: Global, item: &[u8]) -> Result<Entry, DecodeRefusal>
        ensures { Decodes result item.now }
    {
        match read_item(alloc, item)? {
            Some(sets) => Ok(Entry { sets }),
            None => Err(DecodeRefusal::Malformed),
        }
    }
}
