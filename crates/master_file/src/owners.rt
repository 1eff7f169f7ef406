//! The records of a zone by owner, as they are read.
ghost use Rattle.std.specs.Prelude.{◌≡◌, ◌-◌, [], Some, None, Ok, Err, Result, IfOk, OnOk, ◌==◌, ◌&&◌, not};
ghost use Rattle.master_file.specs.Prelude.{same_name, has_soa, soa_type, added, Gives, placed_at, version_of, AllHeld};

use crate::owned::Owned;
use dns_name::{Name, SortKey};
use rr_data::{Rdata, SOA};
use std::alloc::{AllocError, Global};
use std::collections::BTreeMap;
use std::collections::btree_map::Entry as Place;
use zone_model::ZoneKind;
use zone_text::{ZoneRefusal, refuse};

/// What names own, in canonical order.
#[derive(Drop)]
pub struct Owners {
    /// The octets of the sort key that is being made.
    pub scratch: Vec<u8>,
    pub owned: BTreeMap<SortKey, Owned>,
}

// Adds a record to what its owner's key has, in place where there is something. A refusal leaves what may be.
fn grow(
    alloc: Global,
    last: u32,
    key: SortKey,
    owner: &Name,
    rtype: u16,
    time: u32,
    rdata: &Rdata,
    owned: &mut BTreeMap<SortKey, Owned>,
) -> Result<(), ZoneRefusal>
    ensures { Gives result owned.new.entries (placed_at last key owner.now rtype time rdata.now owned.old.entries) }
{
    match owned.entry(key)? {
        Place::Occupied(taken) => {
            let kept = taken.into_mut();
            kept.add_copy(alloc, rtype, time, rdata)?;
            kept.check(last)
        }
        Place::Vacant(free) => {
            let kept = Owned::first(alloc, owner, rtype, time, rdata)?;
            kept.check(last)?;
            free.insert(kept);
            Ok(())
        }
    }
}

// An SOA below the apex.
fn is_low_soa(rtype: u16, owner: &Name, apex: &Name) -> bool
    ensures { result ≡ ((rtype == soa_type) && not (same_name owner.now apex.now)) }
{
    rtype == SOA && owner != apex
}

impl Owners {
    /// None.
    pub fn new(alloc: Global) -> Self
        ensures { result.owned.entries ≡ [] }
    {
        Owners {
            scratch: Vec::new(alloc),
            owned: BTreeMap::new(alloc),
        }
    }

    /// Adds a record to the zone of an apex.
    #[tactic(auto, unfolding(zone_model::specs::MasterFile::added))]
    pub fn add(
        &mut self,
        alloc: Global,
        apex: &Name,
        last: u32,
        owner: &Name,
        rtype: u16,
        time: u32,
        rdata: &Rdata,
    ) -> Result<(), ZoneRefusal>
        requires held { AllHeld apex.now self.old.owned.entries }
        ensures gives { Gives result (version_of self.new.owned.entries)
            (added apex.now last owner.now rtype time rdata.now (version_of self.old.owned.entries)) }
        ensures held { OnOk result (AllHeld apex.now self.new.owned.entries) }
    {
        let _wire = owner.wire(); // for the proof
        let Some(key) = SortKey::below(alloc, owner, apex, &mut self.scratch)? else {
            return Err(refuse(last, ZoneKind::OutsideZone));
        };
        if is_low_soa(rtype, owner, apex) {
            return Err(refuse(last, ZoneKind::SoaRule));
        }
        grow(alloc, last, key, owner, rtype, time, rdata, &mut self.owned)
    }

    /// Whether the apex has an SOA.
    pub fn has_soa(&mut self, alloc: Global, apex: &Name) -> Result<bool, AllocError>
        requires held { AllHeld apex.now self.old.owned.entries }
        ensures tells { IfOk result (λ b. b ≡ has_soa apex.now (version_of self.old.owned.entries)) }
        ensures kept { self.new.owned ≡ self.old.owned }
    {
        let _wire = apex.wire(); // for the proof
        let Some(key) = SortKey::below(alloc, apex, apex, &mut self.scratch)? else {
            return Ok(false);
        };
        match self.owned.get(&key) {
            Some(kept) => kept.has_set(alloc, SOA),
            None => Ok(false),
        }
    }
}
