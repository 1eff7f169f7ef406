//! Zones that are attached and detached.
ghost use Rattle.std.specs.Prelude.{◌≡◌};
ghost use Rattle.zone_server.specs.Prelude.{Attached, Detached, IsServed, IsServing, attach_told, known_of};

use crate::finding::zone_of;
use crate::home::Home;
use crate::server::{Server, ServerPass};
use dns_name::Name;
use job_commands::ZoneLaw;
use qp_multi::Receipt;
use std::sync::Wait;
use thiserror::Error;
use zone_table::{TableRefusal, Zones, ZonesPass};

/// Why a zone isn't attached or detached.
#[derive(Clone, Copy, PartialEq, Eq, Debug, Error)]
pub enum AttachRefusal {
    /// The server has no zone of this origin.
    #[error("no zone has the origin")]
    NoZone,
    #[error("{0}")]
    Table(TableRefusal),
}

// What becomes of a change of the table.
fn told(ended: Result<Receipt, TableRefusal>) -> Result<Receipt, AttachRefusal>
    ensures { result ≡ attach_told ended }
{
    match ended {
        Ok(receipt) => Ok(receipt),
        Err(refusal) => Err(AttachRefusal::Table(refusal)),
    }
}

fn attach_zone<R: Wait, H: Home>(
    rt: &R,
    zones: &Zones<ZoneLaw, H>,
    pass: &mut ZonesPass<H>,
    origin: &Name,
) -> Result<Receipt, AttachRefusal>
    requires zones { IsServed H.zones zones.now }
    requires pass { IsServing H.zones pass.old }
    ensures pass { IsServing H.zones pass.new }
    ensures attached { Attached H.zones origin.now (known_of pass.old) (known_of pass.new) result }
{
    let Some(zone) = zone_of(zones, origin) else {
        return Err(AttachRefusal::NoZone);
    };
    told(zones.attach(rt, pass, zone))
}

fn detach_zone<R: Wait, H: Home>(
    rt: &R,
    zones: &Zones<ZoneLaw, H>,
    pass: &mut ZonesPass<H>,
    origin: &Name,
) -> Result<Receipt, AttachRefusal>
    requires zones { IsServed H.zones zones.now }
    requires pass { IsServing H.zones pass.old }
    ensures pass { IsServing H.zones pass.new }
    ensures detached { Detached H.zones origin.now (known_of pass.old) (known_of pass.new) result }
{
    let Some(zone) = zone_of(zones, origin) else {
        return Err(AttachRefusal::NoZone);
    };
    told(zones.detach(rt, pass, zone))
}

impl<H: Home> Server<H> {
    /// Waits for the table's turn, and attaches the zone of an origin: names at and under it are found there from the next version of the
    /// table on. The zone is as it was, or as it was changed meanwhile.
    pub fn attach<R: Wait>(
        &self,
        rt: &R,
        pass: &mut ServerPass<H>,
        origin: &Name,
    ) -> Result<Receipt, AttachRefusal>
        ensures { Attached H.zones origin.now pass.old pass.new result }
    {
        attach_zone(rt, &self.zones, &mut pass.pass, origin)
    }

    /// Waits for the table's turn, and detaches the zone of an origin. It can be changed still.
    pub fn detach<R: Wait>(
        &self,
        rt: &R,
        pass: &mut ServerPass<H>,
        origin: &Name,
    ) -> Result<Receipt, AttachRefusal>
        ensures { Detached H.zones origin.now pass.old pass.new result }
    {
        detach_zone(rt, &self.zones, &mut pass.pass, origin)
    }
}
