//! A worker that runs its commands.
ghost use Rattle.std.specs.Prelude.{◌≡◌, IfOk, None, length, map};
ghost use Rattle.zones_threads.specs.Prelude.{AreHeard, IsPassOf, HasWorked, MayWork, IsSaid, Opens, Goes, command_view};

use crate::changing::{attach, detach};
use crate::getting::get;
use crate::transactions::change_zone;
use crew::Turnstile;
use job_commands::{Entered, Gate, WorkerScratch, ZoneLaw};
use qp_multi::Named;
use std::alloc::{AllocError, Global};
use std::sync::Wait;
use zone_table::{Zones, ZonesPass};
use zones_report::{CommandEnd, CommandEnds};
use zones_script::Command;

/// What became of a worker's commands. Its pass is back.
#[derive(Drop)]
pub struct Ended<N: Named> {
    pub done: CommandEnds,
    pub pass: ZonesPass<N>,
}

// Runs one command.
fn run_command<R: Wait, N: Named>(
    alloc: Global,
    zones: &Zones<ZoneLaw, N>,
    pass: &mut ZonesPass<N>,
    entered: Entered<'_, R, Command>,
    room: &mut WorkerScratch,
) -> Result<CommandEnd, AllocError>
    requires pass { IsPassOf zones.now.origins.items pass.old }
    requires opens { Opens zones.now pass.old }
    requires said { IsSaid zones.now.origins.items (command_view entered.command.now) }
    ensures { IfOk result (λ d. Goes zones.now (command_view entered.entry.command.now) d pass.old pass.new) }
{
    match entered.command() {
        Command::Get(name, rtype) => get(alloc, zones, pass, name, *rtype, room),
        Command::Block { zone, block } => {
            change_zone(entered.rt(), alloc, zones, pass, *zone, block, room)
        },
        Command::Attach(zone) => Ok(attach(entered.rt(), zones, pass, *zone)),
        Command::Detach(zone) => Ok(detach(entered.rt(), zones, pass, *zone)),
    }
}

/// Runs the commands of a worker's turnstile, each between the gate's two calls. It goes through once for each.
pub fn run_worker<R: Wait, N: Named, G: Gate>(
    alloc: Global,
    zones: &Zones<ZoneLaw, N>,
    turnstile: &mut Turnstile<'_, R, Command, G>,
    mut pass: ZonesPass<N>,
) -> Result<Ended<N>, AllocError>
    requires fresh { (turnstile.old.entered ≡ None) × (turnstile.old.told ≡ 0) }
    requires may { MayWork zones.now pass (map command_view turnstile.old.commands.now) }
    ensures done { IfOk result (λ e. HasWorked zones.now pass e.pass (map command_view turnstile.old.commands.now) e.done.list.items) }
    // It has left the turnstile, which has told of all commands.
    ensures heard { IfOk result (λ _. AreHeard (G.hears turnstile.old.gate.now) turnstile.old.worker (length (map command_view turnstile.old.commands.now))
        × (turnstile.new.entered ≡ None) × (turnstile.new.told ≡ length turnstile.old.commands.now)) }
{
    let mut room = WorkerScratch::new(alloc)?;
    let count = turnstile.count();
    let mut list = Vec::with_capacity(alloc, count)?;
    for place in 0..count {
        let entered = turnstile.enter(place);
        let done = run_command(alloc, zones, &mut pass, entered, &mut room)?;
        list.push(done)?;
        turnstile.leave(&list);
    }
    Ok(Ended {
        done: CommandEnds { list },
        pass,
    })
}
