//! The summary of a job.
ghost use Rattle.std.specs.Prelude.{◌≡◌, ◌+◌, ◌++◌, OnOk, IfOk, if◌then◌else◌};
ghost use Rattle.job_report.specs.Prelude.{counts_text, sized_end_text, Tallied, AllTallied, refused_lines, all_refused_lines, summary_text};

use crate::lines::push_outcome;
use crate::outcomes::{Outcome, Outcomes, is_committed, is_refused};
use crate::replies::push_size;
use std::alloc::{AllocError, Global};
use zone_text::push_decimal;

/// How many commands there were, and how many transactions were committed and refused.
#[derive(Clone, Copy)]
pub(crate) struct Tally {
    commands: u64,
    committed: u64,
    refused: u64,
}

// One more, if there is one. What 64 bits can't count is taken for want of memory.
fn counted(before: u64, more: bool) -> Result<u64, AllocError>
    ensures { IfOk result (λ n. n ≡ before + (if more then 1 else 0)) }
{
    match before.checked_add(u64::from(more)) {
        Some(count) => Ok(count),
        None => Err(AllocError),
    }
}

fn tally_worker(before: Tally, list: &[Outcome]) -> Result<Tally, AllocError>
    ensures { IfOk result (λ t. Tallied before list.now t) }
{
    let mut tally = before;
    for outcome in list {
        let commands = counted(tally.commands, true)?;
        let committed = counted(tally.committed, is_committed(outcome))?;
        let refused = counted(tally.refused, is_refused(outcome))?;
        tally = Tally {
            commands,
            committed,
            refused,
        };
    }
    Ok(tally)
}

fn tally_all(workers: &[Outcomes]) -> Result<Tally, AllocError>
    ensures { IfOk result (λ t. AllTallied (record { commands = 0; committed = 0; refused = 0 }) workers.now t) }
{
    let mut tally = Tally {
        commands: 0,
        committed: 0,
        refused: 0,
    };
    for outcomes in workers {
        tally = tally_worker(tally, &outcomes.list)?;
    }
    Ok(tally)
}

fn push_counts(out: &mut Vec<u8>, tally: Tally) -> Result<(), AllocError>
    ensures { OnOk result (out.new.items ≡ out.old.items ++ counts_text tally.commands tally.committed tally.refused) }
{
    out.extend_from_slice(b"make commands ")?;
    push_decimal(out, tally.commands)?;
    out.extend_from_slice(b" committed ")?;
    push_decimal(out, tally.committed)?;
    out.extend_from_slice(b" refused ")?;
    push_decimal(out, tally.refused)?;
    out.extend_from_slice(b"\n")
}

// The lines of a worker's refused transactions.
fn push_refusals(out: &mut Vec<u8>, worker: u64, list: &[Outcome]) -> Result<(), AllocError>
    ensures { OnOk result (out.new.items ≡ out.old.items ++ refused_lines worker 1 list.now) }
{
    for (place, outcome) in list.iter().enumerate() {
        if is_refused(outcome) {
            push_outcome(out, worker, place as u64 + 1, outcome)?;
        }
    }
    Ok(())
}

fn push_all_refusals(out: &mut Vec<u8>, workers: &[Outcomes]) -> Result<(), AllocError>
    ensures { OnOk result (out.new.items ≡ out.old.items ++ all_refused_lines 1 workers.now) }
{
    for (place, outcomes) in workers.iter().enumerate() {
        push_refusals(out, place as u64 + 1, &outcomes.list)?;
    }
    Ok(())
}

// The last version, and how large it is.
fn push_sized_end(out: &mut Vec<u8>, last: u64, names: u64, nodes: u64) -> Result<(), AllocError>
    ensures { OnOk result (out.new.items ≡ out.old.items ++ sized_end_text last names nodes) }
{
    out.extend_from_slice(b"end v")?;
    push_decimal(out, last)?;
    out.extend_from_slice(b" ")?;
    push_size(out, names, nodes)
}

/// Prints how many commands of a load there were, how many transactions were committed and refused, the refused ones, and
/// the last version with its names and nodes.
pub fn print_summary(
    alloc: Global,
    outcomes: &[Outcomes],
    version: u64,
    names: u64,
    nodes: u64,
) -> Result<Vec<u8>, AllocError>
    ensures { IfOk result (λ text. text.items ≡ summary_text outcomes.now version names nodes) }
{
    let mut out = Vec::new(alloc);
    push_counts(&mut out, tally_all(outcomes)?)?;
    push_all_refusals(&mut out, outcomes)?;
    push_sized_end(&mut out, version, names, nodes)?;
    Ok(out)
}
