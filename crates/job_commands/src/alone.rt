//! Commands that need no snapshot. One pass of the index is enough for them.
ghost use Rattle.job_commands.specs.Prelude.{IsHere, MayRunAlone, RunsByWeight, StepsAlone, command_view, known_at, table_size};

use crate::asking::run_question;
use crate::compactions::run_compaction;
use crate::entered::Entered;
use crate::law::ZoneLaw;
use crate::scratch::WorkerScratch;
use crate::transactions::run_block;
use dns_name::Name;
use job_report::Outcome;
use job_script::Command;
use qp_multi::{Index, Named, Pass};
use std::alloc::{AllocError, Global};
use std::sync::Wait;

/// Runs a question to the current version, a transaction or a compaction. What a second pass knows stays the same, wherever that is. It is inlined,
/// since what it only hands on would be copied.
#[inline(always)]
pub fn run_alone<R: Wait, N: Named>(
    alloc: Global,
    origin: &Name,
    index: &Index<ZoneLaw, N>,
    pass: &mut Pass<N>,
    entered: Entered<'_, R, Command>,
    room: &mut WorkerScratch,
) -> Result<Outcome, AllocError>
    requires pass { IsHere index.now.place pass.old }
    requires may { MayRunAlone origin.now (command_view entered.command.now) (known_at pass.old.seat) }
    ensures pass { IsHere pass.old.place pass.new }
    ensures steps { StepsAlone origin.now (table_size index.now) (command_view entered.entry.command.now) pass.old.seat pass.new.seat result }
    ensures weight { RunsByWeight entered.entry.command.now pass.old.seat pass.new.seat result }
{
    match entered.command() {
        Command::Ask(question) => run_question(alloc, origin, index, pass, question, room),
        Command::Block(block) => {
            run_block(
                entered.rt(),
                alloc,
                origin,
                index,
                pass,
                block,
                &mut room.items,
            )
        },
        Command::Compact => Ok(run_compaction(entered.rt(), index, pass)),
        // They need a snapshot.
        Command::Hold | Command::AskHeld(_) | Command::Release => unreachable!(),
    }
}
