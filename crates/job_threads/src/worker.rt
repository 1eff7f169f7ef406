//! A worker that runs its commands.
ghost use Rattle.std.specs.Prelude.{◌≡◌, IfOk, None, length, map};
ghost use Rattle.job_threads.specs.Prelude.{MayCome, held_after};
ghost use Rattle.job_threads.specs.Prelude.{command_view, AllAsked, known_at, OpenedWith, AreHeard, IsOpenedWith, IsUnder};
ghost use Rattle.job_threads.specs.Prelude.{Step, Begins, Numbers, WorkerEndRan, table_size, holder_of, holds_one, worker_passes_of};
ghost use Rattle.job_threads.specs.Prelude.{CanRun, CanBeRun, AreReady, IsBack};

use crate::passes::{Passes, ask_snapshot, give_back, second_pass, take_snapshot};
use crew::Turnstile;
use dns_name::Name;
use job_commands::{Entered, Gate, WorkerScratch, ZoneLaw, run_alone};
use job_report::{Outcome, Outcomes};
use job_script::Command;
use qp_multi::{Index, Named, Pass};
use std::alloc::{AllocError, Global};
use std::sync::Wait;

/// What became of a worker's commands. Its passes are back.
#[derive(Drop)]
pub struct WorkerEnd<N: Named> {
    pub outcomes: Outcomes,
    pub asks: Pass<N>,
    pub spare: Pass<N>,
}

/// Runs one command of a worker, which may take a snapshot, ask it or give it back.
pub fn run_command<'i, R: Wait, N: Named>(
    alloc: Global,
    origin: &Name,
    index: &'i Index<ZoneLaw, N>,
    passes: &mut Passes<'i, N>,
    entered: Entered<'_, R, Command>,
    room: &mut WorkerScratch,
) -> Result<Outcome, AllocError>
    requires can { CanRun origin.now index.now.place (holds_one passes.old) passes.old }
    requires may { MayCome (holds_one passes.old) (command_view entered.command.now) }
    requires said { AllAsked origin.now (command_view entered.command.now) }
    ensures can { IfOk result
        (λ _. CanRun origin.now index.now.place (held_after (holds_one passes.old) (command_view entered.entry.command.now)) passes.new) }
    ensures steps { (s : OpenedWith) → IsOpenedWith s origin.now (table_size index.now) (known_at passes.old.asks.seat)
        → IsUnder (known_at passes.old.asks.seat) (holder_of passes.old)
        → IfOk result (λ o. Step s (command_view entered.entry.command.now) o (worker_passes_of passes.old) (worker_passes_of passes.new)) }
{
    match entered.command() {
        Command::Hold => Ok(take_snapshot(index, passes)),
        Command::AskHeld(question) => {
            let outcome = ask_snapshot(alloc, origin, passes, question, room)?;
            Ok(outcome)
        }
        Command::Release => Ok(give_back(passes)),
        Command::Ask(_) | Command::Block(_) | Command::Compact => {
            let asks = &mut passes.asks;
            let outcome = run_alone(alloc, origin, index, asks, entered, room)?;
            Ok(outcome)
        }
    }
}

/// Runs the commands of a worker's turnstile, each between the gate's two calls. It goes through once for each.
pub fn run_worker<R: Wait, N: Named, G: Gate>(
    alloc: Global,
    origin: &Name,
    index: &Index<ZoneLaw, N>,
    turnstile: &mut Turnstile<'_, R, Command, G>,
    asks: Pass<N>,
    spare: Pass<N>,
) -> Result<WorkerEnd<N>, AllocError>
    requires fresh { (turnstile.old.entered ≡ None) × (turnstile.old.told ≡ 0) × CanBeRun origin.now (map command_view turnstile.old.commands.now) }
    requires ready { AreReady origin.now index.now.place asks spare }
    ensures back { IfOk result (IsBack index.now.place) }
    ensures ran { (s : OpenedWith) (numbers : Numbers) → IsOpenedWith s origin.now (table_size index.now) (known_at asks.seat)
        → Begins s numbers (known_at asks.seat) (known_at spare.seat)
        → IfOk result (WorkerEndRan s numbers (map command_view turnstile.old.commands.now)) }
    // It has left the turnstile, which has told of all commands.
    ensures heard { IfOk result (λ _. AreHeard (G.hears turnstile.old.gate.now) turnstile.old.worker (length (map command_view turnstile.old.commands.now))
        × (turnstile.new.entered ≡ None) × (turnstile.new.told ≡ length turnstile.old.commands.now)) }
{
    let mut room = WorkerScratch::new(alloc)?;
    let mut passes = Passes {
        asks,
        spare: Some(spare),
        held: None,
    };
    let count = turnstile.count();
    let mut list = Vec::with_capacity(alloc, count)?;
    for place in 0..count {
        let entered = turnstile.enter(place);
        let outcome = run_command(alloc, origin, index, &mut passes, entered, &mut room)?;
        list.push(outcome)?;
        turnstile.leave(&list);
    }
    let (asks, spare) = second_pass(passes);
    Ok(WorkerEnd {
        outcomes: Outcomes { list },
        asks,
        spare,
    })
}
