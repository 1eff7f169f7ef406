//! Transactions of a zone.
ghost use Rattle.std.specs.Prelude.{IfOk};
ghost use Rattle.zones_threads.specs.Prelude.{asked_view, IsPassOf, IsSaid, Opens, Goes};
ghost use Rattle.zones_model.specs.Commands as model;

use job_commands::{WorkerScratch, ZoneLaw, run_block};
use job_script::Block;
use qp_multi::Named;
use std::alloc::{AllocError, Global};
use std::sync::Wait;
use zone_table::{Zones, ZonesPass};
use zones_report::CommandEnd;

/// Runs a block on a zone: its operations are all made the zone's next version, or none.
pub fn change_zone<R: Wait, N: Named>(
    rt: &R,
    alloc: Global,
    zones: &Zones<ZoneLaw, N>,
    pass: &mut ZonesPass<N>,
    zone: u32,
    block: &Block,
    room: &mut WorkerScratch,
) -> Result<CommandEnd, AllocError>
    requires pass { IsPassOf zones.now.origins.items pass.old }
    requires opens { Opens zones.now pass.old }
    requires said { IsSaid zones.now.origins.items (model.Block zone block.now.weight (asked_view block.now) block.now.ending) }
    ensures { IfOk result
        (λ d. Goes zones.now (model.Block zone block.now.weight (asked_view block.now) block.now.ending) d pass.old pass.new) }
{
    let index = zones.zone(zone);
    let origin = zones.origin(zone);
    let place = pass.zone(zones, zone);
    let outcome = run_block(rt, alloc, origin, index, place, block, &mut room.items)?;
    Ok(CommandEnd::Ran { zone, outcome })
}
