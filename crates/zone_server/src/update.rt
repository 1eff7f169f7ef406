//! Transactions that a client asks for.
ghost use Rattle.std.specs.Prelude.{◌≡◌, ◌↔◌, ◌≤◌, true, Some, IsTrue};
ghost use Rattle.zone_server.specs.Prelude.{data_type};

use dns_name::Name;
use job_model::{Ending, Weight};
use job_script::Block;
use rr_data::Rdata;
use std::alloc::{AllocError, AllocFailed, Global};
use std::marker::Model;
use thiserror::Error;
use zone_change::{NewRecord, Operation, Prerequisite};

// The longest time to live (RFC 2181, section 8).
const MOST_TIME: u32 = 2_147_483_647;

/// Why an operation isn't taken into an update.
#[derive(Clone, Copy, PartialEq, Eq, Debug, Error)]
pub enum UpdateRefusal {
    /// Its owner isn't at or under the origin.
    #[error("the owner is outside of the zone")]
    Outside,
    /// No record has this type, or not these octets, or so long a time to live.
    #[error("this is no record")]
    NoRecord,
    #[error("out of memory")]
    Memory,
}

impl From<AllocError> for UpdateRefusal {
    ghost use Rattle.std.specs.Prelude.{◌≡◌};
    ghost use Rattle.zone_server.specs.declared.update.UpdateRefusal.TheVariants.{Memory};

    ghost from_gives = { λ _ e. e ≡ Memory };

    fn from(_: AllocError) -> UpdateRefusal {
        UpdateRefusal::Memory
    }
}

impl<T: Drop> From<AllocFailed<T>> for UpdateRefusal {
    ghost use Rattle.std.specs.Prelude.{◌≡◌};
    ghost use Rattle.zone_server.specs.declared.update.UpdateRefusal.TheVariants.{Memory};

    ghost from_gives = { λ _ e. e ≡ Memory };

    fn from(_: AllocFailed<T>) -> UpdateRefusal {
        UpdateRefusal::Memory
    }
}

/// A transaction of the zone of an origin: what it wants of the version that it changes, and its operations in order. Contracts see the
/// origin, and these.
#[derive(Drop)]
pub struct Update {
    pub(crate) origin: Name,
    pub(crate) block: Block,
}

impl Model for Update {
    ghost use Rattle.std.specs.Prelude.{◌≡◌};
    ghost use Rattle.zone_server.specs.Updates.{IsUpdate, UpdateView};
    ghost use Rattle.job_script.specs.Views.{asked_view};
    ghost use Rattle.job_model.specs.declared.Ending.TheVariants.{Commit};

    ghost Value = { UpdateView };

    ghost view = { λ u. record { origin = u.origin; asked = asked_view u.block } };

    ghost invariant = { λ u. IsUpdate u.origin (asked_view u.block) u.block.ending };
}

// Whether records have this type: it is no question's, and no message's.
fn has_data(rtype: u16) -> bool
    ensures { IsTrue result ↔ (data_type rtype ≡ Some rtype) }
{
    rtype != 0 && rtype != 41 && (rtype < 128 || rtype > 255)
}

impl Update {
    ghost use Rattle.std.specs.Prelude.{◌++◌, ◌∷◌, [], map};
    ghost use Rattle.zone_change.specs.Views.{operation_view, prerequisite_view};
    ghost use Rattle.zone_server.specs.Asks.{Needs, Takes, adds};
    ghost use Rattle.zone_model.specs.Versions as versions;
    ghost use Rattle.report_laws.specs.Changes.{IsSaid};

    /// That wants and does nothing yet.
    pub fn new(alloc: Global, origin: &Name) -> Update
        ensures { result ≡ record { origin = origin.now; asked = record { needs = []; operations = [] } } }
    {
        Update {
            origin: *origin,
            block: Block {
                weight: Weight::Light,
                needs: Vec::new(alloc),
                operations: Vec::new(alloc),
                ending: Ending::Commit,
            },
        }
    }

    /// It wants this too.
    pub fn need(&mut self, prerequisite: Prerequisite) -> Result<(), AllocError>
        ensures { Needs self.old (prerequisite_view prerequisite) result self.new }
    {
        self.block.needs.push(prerequisite)?;
        Ok(())
    }

    // Does this too, behind what it does.
    fn then(&mut self, operation: Operation) -> Result<(), UpdateRefusal>
        requires { IsSaid self.old.origin (operation_view operation) }
        ensures { Takes self.old (operation_view operation) result self.new }
    {
        self.block.operations.push(operation)?;
        Ok(())
    }

    /// A record is put in: of this type, whose data are these octets, names in them in lower case and whole.
    pub fn add(
        &mut self,
        owner: &Name,
        rtype: u16,
        ttl: u32,
        octets: Vec<u8>,
    ) -> Result<(), UpdateRefusal>
        ensures { Takes self.old (adds owner.now rtype ttl octets.items) result self.new }
    {
        if !owner.is_under(&self.origin) {
            return Err(UpdateRefusal::Outside);
        }
        if !has_data(rtype) || ttl > MOST_TIME {
            return Err(UpdateRefusal::NoRecord);
        }
        let Some(rdata) = Rdata::checked(rtype, octets) else {
            return Err(UpdateRefusal::NoRecord);
        };
        let _wire = owner.wire(); // for the proof: it is a name
        self.then(Operation::Add(NewRecord {
            owner: *owner,
            rtype,
            ttl,
            rdata,
        }))
    }

    /// All records of a name leave.
    pub fn delete_name(&mut self, owner: &Name) -> Result<(), UpdateRefusal>
        ensures { Takes self.old (versions.DeleteName owner.now) result self.new }
    {
        if !owner.is_under(&self.origin) {
            return Err(UpdateRefusal::Outside);
        }
        let _wire = owner.wire(); // for the proof: it is a name
        self.then(Operation::DeleteName(*owner))
    }

    /// The RRset of a type leaves.
    pub fn delete_set(&mut self, owner: &Name, rtype: u16) -> Result<(), UpdateRefusal>
        ensures { Takes self.old (versions.DeleteSet owner.now rtype) result self.new }
    {
        if !owner.is_under(&self.origin) {
            return Err(UpdateRefusal::Outside);
        }
        let _wire = owner.wire(); // for the proof: it is a name
        self.then(Operation::DeleteSet(*owner, rtype))
    }

    /// One record leaves.
    pub fn delete_record(
        &mut self,
        owner: &Name,
        rtype: u16,
        octets: Vec<u8>,
    ) -> Result<(), UpdateRefusal>
        ensures { Takes self.old (versions.DeleteRecord owner.now rtype octets.items) result self.new }
    {
        if !owner.is_under(&self.origin) {
            return Err(UpdateRefusal::Outside);
        }
        let Some(rdata) = Rdata::checked(rtype, octets) else {
            return Err(UpdateRefusal::NoRecord);
        };
        let _wire = owner.wire(); // for the proof: it is a name
        self.then(Operation::DeleteRecord(*owner, rtype, rdata))
    }
}
