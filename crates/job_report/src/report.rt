//! The report of a job, of outcomes that go once they are printed.
ghost use Rattle.std.specs.Prelude.{◌≡◌, ◌+◌, ◌++◌, OnOk, IfOk, length};
ghost use Rattle.job_model.specs.Reports.{end_text, report};
ghost use Rattle.job_report.specs.Pieces.{pieces_text};
ghost use Rattle.job_report.specs.Outcomes.{told_text, outcome_text, outcomes_text, all_text, AllTell, job_pairs, versions_made};
ghost use Rattle.job_report.specs.Feeds.{fed_outcomes_text};
ghost use Rattle.job_script.specs.Views.{job_view};

use crate::lines::{push_end, push_head, push_told};
use crate::outcomes::{FedOutcome, Outcome, Outcomes, Told};
use crate::pieces::Pieces;
use job_script::Job;
use master_file::Zone;
use std::alloc::{AllocError, Global};

/// What is printed of what a command came to, of which a long reply isn't copied.
pub fn append_told(out: &mut Pieces, told: Told) -> Result<(), AllocError>
    ensures { OnOk result (pieces_text out.new ≡ pieces_text out.old ++ told_text told) }
{
    match told {
        Told::Reply(text) => text.append_to(out),
        other => push_told(&mut out.last, &other),
    }
}

fn append_outcome(
    out: &mut Pieces,
    worker: u64,
    command: u64,
    outcome: Outcome,
) -> Result<(), AllocError>
    ensures { OnOk result (pieces_text out.new ≡ pieces_text out.old ++ outcome_text worker command outcome) }
{
    push_head(&mut out.last, worker, command, outcome.version)?;
    append_told(out, outcome.told)
}

fn append_outcomes(out: &mut Pieces, worker: u64, list: Vec<Outcome>) -> Result<(), AllocError>
    ensures { OnOk result (pieces_text out.new ≡ pieces_text out.old ++ outcomes_text worker 1 list.items) }
{
    let mut command = 0;
    for outcome in list {
        command += 1;
        append_outcome(out, worker, command, outcome)?;
    }
    Ok(())
}

fn append_all(out: &mut Pieces, workers: Vec<Outcomes>) -> Result<(), AllocError>
    ensures { OnOk result (pieces_text out.new ≡ pieces_text out.old ++ all_text 1 workers.items) }
{
    let mut worker = 0;
    for outcomes in workers {
        worker += 1;
        append_outcomes(out, worker, outcomes.list)?;
    }
    Ok(())
}

/// Prints the outcomes of workers, the last version, and how many names that has. Where the outcomes are those of a
/// job, this is its report.
pub fn print_outcomes(
    alloc: Global,
    outcomes: Vec<Outcomes>,
    version: u64,
    names: u64,
) -> Result<Pieces, AllocError>
    ensures { IfOk result (λ text. pieces_text text ≡ all_text 1 outcomes.items ++ end_text version names) }
{
    let mut out = Pieces::of(alloc, Vec::new(alloc));
    append_all(&mut out, outcomes)?;
    push_end(&mut out.last, version, names)?;
    Ok(out)
}

/// Prints the report of a job that was run on a zone: its outcomes, a list for each worker, then the last version and
/// how many names that has. The zone and the job are read by the conditions alone.
pub fn print_report(
    alloc: Global,
    _zone: &Zone,
    _job: &Job,
    outcomes: Vec<Outcomes>,
    version: u64,
    names: u64,
) -> Result<Pieces, AllocError>
    requires tell { AllTell _zone.now.origin
        (versions_made _zone.now.origin _zone.now.pairs (job_view _job.now) outcomes.items) (job_view _job.now) outcomes.items }
    requires names { names ≡ length (versions_made _zone.now.origin _zone.now.pairs (job_view _job.now) outcomes.items version) }
    ensures { IfOk result (λ text. pieces_text text ≡ report _zone.now.origin _zone.now.pairs (job_pairs (job_view _job.now) outcomes.items) version) }
{
    print_outcomes(alloc, outcomes, version, names)
}

fn append_fed(out: &mut Pieces, fed: Vec<FedOutcome>) -> Result<(), AllocError>
    ensures { OnOk result (pieces_text out.new ≡ pieces_text out.old ++ fed_outcomes_text 1 fed.items) }
{
    let mut command = 0;
    for ran in fed {
        command += 1;
        append_outcome(out, u64::from(ran.worker), command, ran.outcome)?;
    }
    Ok(())
}

/// Prints the outcomes of one list in the order of its commands, each with the worker that ran it, the last version, and how
/// many names that has.
pub fn print_fed(
    alloc: Global,
    fed: Vec<FedOutcome>,
    version: u64,
    names: u64,
) -> Result<Pieces, AllocError>
    ensures { IfOk result (λ text. pieces_text text ≡ fed_outcomes_text 1 fed.items ++ end_text version names) }
{
    let mut out = Pieces::of(alloc, Vec::new(alloc));
    append_fed(&mut out, fed)?;
    push_end(&mut out.last, version, names)?;
    Ok(out)
}
