//! One list of commands that is handed out to workers.
ghost use Rattle.std.specs.Prelude.{◌≤◌, IfOk, IfErr};
ghost use Rattle.qp_main.specs.Prelude.{fed_job_of, FedAnswers, FedJobHeard, IsAnswerDue, IsStop, WhereRun};

use crate::input::Input;
use crate::items::zone_items;
use crate::refusing::Stop;
use crate::run_report::report_list;
use crate::status::Status;
use command_line::Invocation;
use feed_threads::table_for_list;
use job_commands::Gate;
use job_report::Pieces;
use std::alloc::Global;
use std::sync::Wait;
use std::thread::Threads;

/// The status and the text for an input of a zone and one list, which is handed out to workers. The table comes before the zone, as
/// for a job.
pub fn answer_list<R: Threads + Wait + Sync, G: Gate>(
    rt: &R,
    alloc: Global,
    invocation: &Invocation,
    input: Input,
    workers: u32,
    gate: &G,
) -> Result<(Status, Pieces), Stop>
    requires { (1 ≤ workers) × (workers ≤ 16) }
    ensures told { IfOk result (IsAnswerDue (FedAnswers workers invocation.now.chunks (fed_job_of invocation.now.origin input))) }
    ensures stops { IfErr result (IsStop (FedAnswers workers invocation.now.chunks (fed_job_of invocation.now.origin input))) }
    ensures heard { IfOk result (IsAnswerDue (WhereRun (FedJobHeard (G.hears gate.now) workers (fed_job_of invocation.now.origin input)))) }
    ensures unheard { IfErr result (IsStop (WhereRun (FedJobHeard (G.hears gate.now) workers (fed_job_of invocation.now.origin input)))) }
{
    let commands = input.list(alloc, &invocation.origin)?;
    // No commands need no worker.
    let crew = if commands.is_empty() { 0 } else { workers };
    let blank = table_for_list(alloc, invocation.chunks, crew)?;
    let zone = input.zone(alloc, &invocation.origin)?;
    drop(input);
    let items = zone_items(alloc, zone)?;
    let answer = report_list(rt, alloc, invocation, blank, &items, &commands, crew, gate)?;
    Ok(answer)
}
