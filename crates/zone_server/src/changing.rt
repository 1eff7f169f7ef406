//! Changes of a zone by transactions.
ghost use Rattle.std.specs.Prelude.{◌≡◌, ◌≢◌, Some, IfOk, OnErr};
ghost use Rattle.zone_server.specs.Prelude.{CanRunIn, Changes, EndsBlock, IsServed, IsServing, IsUpdate, RunsIn, WantsIn};
ghost use Rattle.zone_server.specs.Prelude.{RolledBack, UpdateView, asked_view, ended_of, ended_view, known_of};

use crate::finding::zone_of;
use crate::home::Home;
use crate::server::{Server, ServerPass};
use crate::update::Update;
use dns_name::Name;
use job_commands::{ZoneLaw, run_block};
use job_report::{Cause, Outcome, Told};
use job_script::Block;
use std::alloc::{AllocError, AllocFailed, Global};
use std::sync::Wait;
use thiserror::Error;
use zone_edit::ItemBuffers;
use zone_model::Refusal;
use zone_table::{Zones, ZonesPass};

/// Why no version was made. A version that is told is the zone's, which stays.
#[derive(Debug, Drop, Error)]
pub enum ChangeRefusal {
    /// The server has no zone of this origin.
    #[error("no zone has the origin")]
    NoZone,
    /// A prerequisite isn't met, or a rule of zones forbids an operation.
    #[error("refused: {rule:?}")]
    Refused {
        version: u64,
        rule: Refusal,
    },
    /// There is no room for the operation of this number, from 1, while these versions are kept.
    #[error("no room for operation {operation}")]
    Full {
        version: u64,
        operation: u64,
        kept: Vec<u64>,
    },
    /// No number is left for a next version.
    #[error("there is no version after {version}")]
    Spent {
        version: u64,
    },
    #[error("out of memory")]
    Memory,
}

impl From<AllocError> for ChangeRefusal {
    ghost use Rattle.std.specs.Prelude.{◌≡◌};
    ghost use Rattle.zone_server.specs.declared.changing.ChangeRefusal.TheVariants.{Memory};

    ghost from_gives = { λ _ e. e ≡ Memory };

    fn from(_: AllocError) -> ChangeRefusal {
        ChangeRefusal::Memory
    }
}

impl<T: Drop> From<AllocFailed<T>> for ChangeRefusal {
    ghost use Rattle.std.specs.Prelude.{◌≡◌};
    ghost use Rattle.zone_server.specs.declared.changing.ChangeRefusal.TheVariants.{Memory};

    ghost from_gives = { λ _ e. e ≡ Memory };

    fn from(_: AllocFailed<T>) -> ChangeRefusal {
        ChangeRefusal::Memory
    }
}

// What is told of a transaction that was to be committed.
fn told(outcome: Outcome) -> Result<u64, ChangeRefusal>
    requires ends { EndsBlock outcome.told }
    requires commits { ended_view outcome.told ≢ RolledBack }
    ensures { ended_of result ≡ Some (outcome.version, ended_view outcome.told) }
{
    let Outcome { version, told } = outcome;
    match told {
        Told::Committed => Ok(version),
        Told::Refused(Cause::Rule(rule)) => Err(ChangeRefusal::Refused { version, rule }),
        Told::Refused(Cause::Full { operation, kept }) => Err(ChangeRefusal::Full {
            version,
            operation,
            kept,
        }),
        Told::Refused(Cause::Spent) => Err(ChangeRefusal::Spent { version }),
        // It is no other command's.
        Told::Reply(_) | Told::Held | Told::Released | Told::Compacted | Told::RolledBack => {
            unreachable!()
        }
    }
}

// Runs a block on a zone.
fn run_in<R: Wait, H: Home>(
    rt: &R,
    alloc: Global,
    zones: &Zones<ZoneLaw, H>,
    pass: &mut ZonesPass<H>,
    zone: u32,
    origin: &Name,
    block: &Block,
    items: &mut ItemBuffers,
) -> Result<Outcome, AllocError>
    requires { CanRunIn H.zones zones.now pass.old zone origin.now (asked_view block.now) }
    ensures pass { IsServing H.zones pass.new }
    ensures ends { IfOk result (λ o. EndsBlock o.told) }
    ensures ran { IfOk result (RunsIn H.zones origin.now (asked_view block.now) block.now.ending (known_of pass.old) (known_of pass.new)) }
    ensures wants { OnErr result (WantsIn H.zones origin.now (asked_view block.now) (known_of pass.old) (known_of pass.new)) }
{
    let index = zones.zone(zone);
    let place = pass.zone(zones, zone);
    run_block(rt, alloc, origin, index, place, block, items)
}

// Runs an update on the zone of its origin.
fn change_zones<R: Wait, H: Home>(
    rt: &R,
    alloc: Global,
    zones: &Zones<ZoneLaw, H>,
    pass: &mut ZonesPass<H>,
    origin: &Name,
    block: &Block,
    items: &mut ItemBuffers,
) -> Result<u64, ChangeRefusal>
    requires zones { IsServed H.zones zones.now }
    requires pass { IsServing H.zones pass.old }
    requires update { IsUpdate origin.now (asked_view block.now) block.now.ending }
    ensures pass { IsServing H.zones pass.new }
    ensures changes { Changes H.zones (record { origin = origin.now; asked = asked_view block.now }) (known_of pass.old) (known_of pass.new) result }
{
    let Some(zone) = zone_of(zones, origin) else {
        return Err(ChangeRefusal::NoZone);
    };
    match run_in(rt, alloc, zones, pass, zone, origin, block, items) {
        Ok(outcome) => told(outcome),
        Err(_) => Err(ChangeRefusal::Memory),
    }
}

impl<H: Home> Server<H> {
    /// Waits for the zone's turn, and makes an update its next version, whose number it gives: all of its operations, or none.
    pub fn change<R: Wait>(
        &self,
        rt: &R,
        alloc: Global,
        pass: &mut ServerPass<H>,
        update: &Update,
    ) -> Result<u64, ChangeRefusal>
        ensures { Changes H.zones update.now pass.old pass.new result }
    {
        change_zones(
            rt,
            alloc,
            &self.zones,
            &mut pass.pass,
            &update.origin,
            &update.block,
            &mut pass.items,
        )
    }
}
