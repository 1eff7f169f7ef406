//! What one name owns, as it is read.
ghost use Rattle.std.specs.Prelude.{◌≡◌, ◌≤◌, [], Some, None, Ok, Err, Result, IfOk, OnOk, is_some, length, take};
ghost use Rattle.master_file.specs.Prelude.{Labels, Records, with_rr, rrset_of, item_limit, IsItem, is_lone, soa_count, Checks, IsCounted, CanBeItem};

use dns_name::{Name, OwnedName};
use rr_data::{CNAME, DecodeRefusal, Entry, ITEM_LIMIT, Rdata, SOA, single_item};
use std::alloc::{AllocError, Global};
use std::marker::Model;
use zone_model::ZoneKind;
use zone_text::{ZoneRefusal, refuse};

/// A name and its records. Contracts see the pair.
#[derive(Drop)]
pub struct Owned {
    kept: Kept,
}

/// How they are kept: most names own one record, which takes one piece of memory.
#[derive(Drop)]
pub enum Kept {
    /// One record, as the octets of its item.
    Single(Vec<u8>),
    /// Several.
    Several(Box<Several>),
}

/// A name and its records, each by itself.
#[derive(Drop)]
pub struct Several {
    pub owner: OwnedName,
    pub entry: Entry,
    /// No fewer octets than their item has. It would be too long exactly where these are too many.
    pub octets: usize,
}

impl Model for Owned {
    ghost use Rattle.zone_model.specs.Names.{Name};
    ghost use Rattle.zone_model.specs.Records.{Entry};
    ghost use Rattle.master_file.specs.Owned.{kept_view, IsKept};

    ghost Value = { Name × Entry };

    ghost view = { λ o. kept_view o.kept };

    ghost invariant = { λ o. IsKept o.kept };
}

// An alias stands alone.
fn is_lone(entry: &Entry) -> bool
    ensures { result ≡ is_lone entry.now }
{
    match entry.sets() {
        0 => true,
        1 => {
            let set = entry.set_at(0);
            set.rtype() != CNAME || set.len() <= 1
        }
        _ => entry.find_set(CNAME).is_none(),
    }
}

fn soa_count(entry: &Entry) -> usize
    ensures { result ≡ soa_count entry.now }
{
    match entry.find_set(SOA) {
        Some(set) => set.len(),
        None => 0,
    }
}

// Whether an entry that a record made can stand. All octets of its item were counted.
fn check_entry(several: &Several, last: u32) -> Result<(), ZoneRefusal>
    requires { IsCounted several.now.owner several.now.entry several.now.octets }
    ensures { Checks result last several.now.owner several.now.entry }
{
    if soa_count(&several.entry) > 1 {
        return Err(refuse(last, ZoneKind::SoaRule));
    }
    if !is_lone(&several.entry) {
        return Err(refuse(last, ZoneKind::CnameAndOther));
    }
    if several.octets > ITEM_LIMIT {
        return Err(refuse(last, ZoneKind::LongEntry));
    }
    Ok(())
}

// The name and the records of an item.
fn several_of(alloc: Global, octets: &[u8]) -> Result<Several, AllocError>
    requires { (owner : Labels) × (entry : Records) × IsItem octets.now owner entry }
    ensures is { IfOk result (λ s. (owner : Labels) (entry : Records) → IsItem octets.now owner entry → (s.owner ≡ owner) × (s.entry ≡ entry)) }
    ensures counted { IfOk result (λ s. IsCounted s.owner s.entry s.octets) }
{
    let Some(name) = Name::from_wire(octets) else {
        // An item begins with its owner's octets.
        unreachable!();
    };
    match Entry::decode(alloc, octets) {
        Ok(entry) => Ok(Several {
            owner: OwnedName::of(alloc, &name)?,
            entry,
            octets: octets.len(),
        }),
        Err(DecodeRefusal::Memory) => Err(AllocError),
        // It was encoded here.
        Err(DecodeRefusal::Malformed) => unreachable!(),
    }
}

// A name's first record, by itself.
fn several_first(
    alloc: Global,
    owner: &Name,
    rtype: u16,
    time: u32,
    rdata: Rdata,
) -> Result<Several, AllocError>
    ensures owner { IfOk result (λ s. s.owner ≡ owner.now) }
    ensures entry { IfOk result (λ s. s.entry ≡ with_rr rtype time rdata []) }
    ensures counted { IfOk result (λ s. IsCounted s.owner s.entry s.octets) }
{
    let mut entry = Entry::empty(alloc);
    entry.add(alloc, rtype, time, rdata)?;
    let octets = entry.item_len(owner);
    Ok(Several {
        owner: OwnedName::of(alloc, owner)?,
        entry,
        octets,
    })
}

// Adds a record, unless it is there. It takes 10 octets beside its own where its RRset is new; all are counted anew only where as
// many would be too many.
fn add_to(
    alloc: Global,
    several: &mut Several,
    rtype: u16,
    time: u32,
    rdata: Rdata,
) -> Result<(), AllocError>
    requires { IsCounted several.old.owner several.old.entry several.old.octets }
    ensures owner { several.new.owner ≡ several.old.owner }
    ensures entry { OnOk result (several.new.entry ≡ with_rr rtype time rdata several.old.entry) }
    ensures counted { IsCounted several.new.owner several.new.entry several.new.octets }
{
    let more = rdata.octets().len();
    if !several.entry.add(alloc, rtype, time, rdata)? {
        return Ok(());
    }
    several.octets = several.octets.saturating_add(10 + more);
    if several.octets > ITEM_LIMIT {
        several.octets = several.entry.item_len(&several.owner.name());
    }
    Ok(())
}

impl Owned {
    /// A name's first record.
    pub fn first(
        alloc: Global,
        owner: &Name,
        rtype: u16,
        time: u32,
        rdata: &Rdata,
    ) -> Result<Owned, AllocError>
        ensures { IfOk result (λ o. o ≡ (owner.now, with_rr rtype time rdata.now [])) }
    {
        match single_item(alloc, owner, rtype, time, rdata.octets())? {
            Some(octets) => Ok(Owned {
                kept: Kept::Single(octets),
            }),
            None => {
                let several = several_first(alloc, owner, rtype, time, rdata.clone()?)?;
                Ok(Owned {
                    kept: Kept::Several(Box::new(alloc, several)?),
                })
            }
        }
    }

    /// Adds a record, unless it is there.
    fn add(&mut self, alloc: Global, rtype: u16, time: u32, rdata: Rdata) -> Result<(), AllocError>
        ensures { OnOk result (self.new ≡ (self.old.0, with_rr rtype time rdata self.old.1)) }
    {
        match &mut self.kept {
            Kept::Single(octets) => {
                let mut several = several_of(alloc, octets)?;
                add_to(alloc, &mut several, rtype, time, rdata)?;
                self.kept = Kept::Several(Box::new(alloc, several)?);
                Ok(())
            }
            Kept::Several(several) => add_to(alloc, several, rtype, time, rdata),
        }
    }

    /// Adds a copy of a record, unless it is there.
    pub fn add_copy(
        &mut self,
        alloc: Global,
        rtype: u16,
        time: u32,
        rdata: &Rdata,
    ) -> Result<(), AllocError>
        ensures { OnOk result (self.new ≡ (self.old.0, with_rr rtype time rdata.now self.old.1)) }
    {
        let added = rdata.clone()?;
        self.add(alloc, rtype, time, added)
    }

    /// Whether the records can stand: the owner's SOA and CNAME are alone, and the item isn't too long.
    pub fn check(&self, last: u32) -> Result<(), ZoneRefusal>
        ensures { Checks result last self.now.0 self.now.1 }
    {
        match &self.kept {
            Kept::Single(_) => Ok(()),
            Kept::Several(several) => check_entry(several, last),
        }
    }

    /// Whether there is an RRset of a type.
    pub fn has_set(&self, alloc: Global, rtype: u16) -> Result<bool, AllocError>
        ensures { IfOk result (λ b. b ≡ is_some (rrset_of rtype self.now.1)) }
    {
        match &self.kept {
            Kept::Single(octets) => {
                let several = several_of(alloc, octets)?;
                Ok(several.entry.find_set(rtype).is_some())
            }
            Kept::Several(several) => Ok(several.entry.find_set(rtype).is_some()),
        }
    }

    /// Writes the item, and answers how many octets it has.
    pub fn encode(&self, out: &mut [u8]) -> usize
        requires item { CanBeItem self.now }
        requires room { item_limit ≤ length out.old }
        ensures item { IsItem (take result out.new) self.now.0 self.now.1 }
        ensures short { result ≤ item_limit }
    {
        match &self.kept {
            Kept::Single(octets) => {
                let len = octets.len();
                out[..len].copy_from_slice(octets);
                len
            }
            Kept::Several(several) => {
                let Some(len) = several.entry.encode(&several.owner.name(), out) else {
                    // A record that would make it too long was refused.
                    unreachable!();
                };
                len
            }
        }
    }
}
