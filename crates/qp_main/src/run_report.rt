//! What is told of a job that is run.
ghost use Rattle.std.specs.Prelude.{◌≡◌, ◌<◌, [], ℕ, IfOk, Ok, length, vec_len, if◌then◌else◌};
ghost use Rattle.qp_main.specs.Prelude.{Version, CanBeDumped, passes_for, pieces_text};
ghost use Rattle.qp_main.specs.Prelude.{job_view, list_view, AreItemsOf, IsZone, entries_of_items, fed_job_on, finished_text, job_on};
ghost use Rattle.qp_main.specs.Prelude.{AllHeard, Answers, FedAnswers, IsAnswerDue, ListHeard, WhereRun, CanBeHandedOut, CanRunOn};

use crate::refusal_lines::no_room;
use crate::status::Status;
use command_line::Invocation;
use feed_threads::{FedFinished, FedRan, run_list};
use job_commands::{Gate, ZoneLaw};
use job_report::{Pieces, any_fed_refused, any_refused, print_fed, print_outcomes, print_summary};
use job_script::{Command, Job};
use job_threads::{Finished, Ran, run_zone};
use qp_multi::Blank;
use std::alloc::{AllocError, Global};
use std::sync::Wait;
use std::thread::Threads;
use trie_write::Item;

/// What is told of a run.
#[derive(Clone, Copy, Debug, PartialEq, Eq)]
pub enum Telling {
    /// Each command, with what it gave.
    Report,
    /// How many commands there were, the transactions that were refused, and how large the last version is.
    Summary,
}

/// The status says whether a block was refused.
pub(crate) fn status_of(refused: bool) -> Status
    ensures { result ≡ (if refused then Status.SomeRefused else Status.Done) }
{
    if refused {
        Status::SomeRefused
    } else {
        Status::Done
    }
}

// What is told of a job that was run.
fn told(alloc: Global, finished: Finished, telling: Telling) -> Result<Pieces, AllocError>
    ensures { IfOk result (λ text. pieces_text text ≡ finished_text telling finished) }
{
    let Finished {
        outcomes,
        version,
        names,
        nodes,
    } = finished;
    match telling {
        Telling::Report => print_outcomes(alloc, outcomes, version, names),
        Telling::Summary => {
            let text = print_summary(alloc, &outcomes, version, names, nodes)?;
            Ok(Pieces::of(alloc, text))
        }
    }
}

/// Runs a job on the index of its zone, by a table that was made for it, and answers the status and what is told of it, which is
/// printed when all is done.
pub fn report_job<R: Threads + Wait + Sync, G: Gate>(
    rt: &R,
    alloc: Global,
    invocation: &Invocation,
    blank: Blank<ZoneLaw>,
    items: &[Item],
    job: &Job,
    telling: Telling,
    gate: &G,
) -> Result<(Status, Pieces), AllocError>
    requires chunks { blank.shared.table.shared.key.chunks ≡ invocation.now.chunks }
    requires can { CanRunOn invocation.now.origin (entries_of_items items.now) blank.shared.table.shared.key.passes (length job.now.workers.items)
        (job_view job.now) }
    ensures told { (zone : Version) → AreItemsOf items.now zone → CanBeDumped invocation.now.origin zone
        → IfOk result (IsAnswerDue (Answers telling invocation.now.chunks (Ok (job_on invocation.now.origin zone (job_view job.now))))) }
    ensures heard { IfOk result (IsAnswerDue (WhereRun (AllHeard (G.hears gate.now) 1 (job_view job.now)))) }
{
    let origin = &invocation.origin;
    match run_zone(rt, alloc, blank, origin, items, job, gate)? {
        Ran::Finished(finished) => {
            let refused = any_refused(&finished.outcomes);
            let text = told(alloc, finished, telling)?;
            Ok((status_of(refused), text))
        }
        Ran::DoesNotFit { cells, limit } => {
            Ok((Status::DoesNotFit, no_room(alloc, cells, limit)?))
        }
    }
}

// The report of no commands: that of the last line alone.
fn report_none<R: Threads + Wait + Sync, G: Gate>(
    rt: &R,
    alloc: Global,
    invocation: &Invocation,
    blank: Blank<ZoneLaw>,
    items: &[Item],
    gate: &G,
) -> Result<(Status, Pieces), AllocError>
    requires chunks { blank.shared.table.shared.key.chunks ≡ invocation.now.chunks }
    requires passes { blank.shared.table.shared.key.passes ≡ passes_for 0 }
    requires zone { IsZone invocation.now.origin (entries_of_items items.now) }
    ensures { (zone : Version) (workers : ℕ) → AreItemsOf items.now zone
        → IfOk result (IsAnswerDue (FedAnswers workers invocation.now.chunks (Ok (fed_job_on invocation.now.origin zone [])))) }
{
    let job = Job {
        workers: Vec::new(alloc),
    };
    let origin = &invocation.origin;
    match run_zone(rt, alloc, blank, origin, items, &job, gate)? {
        Ran::Finished(finished) => {
            let text = print_fed(alloc, Vec::new(alloc), finished.version, finished.names)?;
            Ok((Status::Done, text))
        }
        Ran::DoesNotFit { cells, limit } => {
            Ok((Status::DoesNotFit, no_room(alloc, cells, limit)?))
        }
    }
}

/// Hands one list of commands out to workers on the index of a zone, by a table that was made for them, and answers the status and
/// the report. No commands need no worker.
pub fn report_list<R: Threads + Wait + Sync, G: Gate>(
    rt: &R,
    alloc: Global,
    invocation: &Invocation,
    blank: Blank<ZoneLaw>,
    items: &[Item],
    commands: &Vec<Command>,
    crew: u32,
    gate: &G,
) -> Result<(Status, Pieces), AllocError>
    requires chunks { blank.shared.table.shared.key.chunks ≡ invocation.now.chunks }
    requires can { CanBeHandedOut invocation.now.origin (entries_of_items items.now) blank.shared.table.shared.key.passes crew (vec_len commands.now)
        (list_view commands.now) }
    ensures told { (zone : Version) (workers : ℕ) → AreItemsOf items.now zone → CanBeDumped invocation.now.origin zone
        → (0 < vec_len commands.now → workers ≡ crew)
        → IfOk result (IsAnswerDue (FedAnswers workers invocation.now.chunks (Ok (fed_job_on invocation.now.origin zone (list_view commands.now))))) }
    ensures heard { IfOk result (IsAnswerDue (WhereRun (ListHeard (G.hears gate.now) crew (length (list_view commands.now))))) }
{
    if commands.is_empty() {
        return report_none(rt, alloc, invocation, blank, items, gate);
    }
    let origin = &invocation.origin;
    match run_list(rt, alloc, blank, origin, items, commands, crew, gate)? {
        FedRan::Finished(finished) => {
            let FedFinished {
                outcomes,
                version,
                names,
            } = finished;
            let status = status_of(any_fed_refused(&outcomes));
            let text = print_fed(alloc, outcomes, version, names)?;
            Ok((status, text))
        }
        FedRan::DoesNotFit { cells, limit } => {
            Ok((Status::DoesNotFit, no_room(alloc, cells, limit)?))
        }
    }
}
