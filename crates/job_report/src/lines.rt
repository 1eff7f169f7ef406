//! What is printed of a job's outcomes, one by one.
ghost use Rattle.std.specs.Prelude.{◌≡◌, ◌++◌, OnOk, codes, decimal};
ghost use Rattle.job_report.specs.Prelude.{flat_map, head_text, ended_text, cause_text, end_text, rule_text, cause_view, told_text, outcome_text};
ghost use Rattle.job_model.specs.Outcomes as outcomes;

use crate::marks::push_marked;
use crate::outcomes::{Cause, Outcome, Told};
use std::alloc::AllocError;
use zone_model::Refusal;
use zone_text::push_decimal;

/// Worker, command and version.
pub fn push_head(
    out: &mut Vec<u8>,
    worker: u64,
    command: u64,
    version: u64,
) -> Result<(), AllocError>
    ensures { OnOk result (out.new.items ≡ out.old.items ++ head_text worker command version) }
{
    push_marked(out, worker, b'.')?;
    push_decimal(out, command)?;
    out.extend_from_slice(b" v")?;
    push_marked(out, version, b' ')
}

fn push_rule(out: &mut Vec<u8>, refusal: Refusal) -> Result<(), AllocError>
    ensures { OnOk result (out.new.items ≡ out.old.items ++ rule_text refusal) }
{
    match refusal {
        Refusal::Prereq => out.extend_from_slice(b"prereq"),
        Refusal::Soa => out.extend_from_slice(b"soa"),
        Refusal::Cname => out.extend_from_slice(b"cname"),
        Refusal::Long => out.extend_from_slice(b"long"),
    }
}

fn push_kept(out: &mut Vec<u8>, kept: &[u64]) -> Result<(), AllocError>
    ensures { OnOk result (out.new.items ≡ out.old.items ++ flat_map (λ v. codes " " ++ decimal v) kept.now) }
{
    for version in kept {
        out.extend_from_slice(b" ")?;
        push_decimal(out, *version)?;
    }
    Ok(())
}

fn push_full(out: &mut Vec<u8>, operation: u64, kept: &[u64]) -> Result<(), AllocError>
    ensures { OnOk result (out.new.items ≡ out.old.items ++ cause_text (outcomes.Full operation kept.now)) }
{
    out.extend_from_slice(b"full at ")?;
    push_decimal(out, operation)?;
    out.extend_from_slice(b" kept")?;
    push_kept(out, kept)
}

fn push_cause(out: &mut Vec<u8>, cause: &Cause) -> Result<(), AllocError>
    ensures { OnOk result (out.new.items ≡ out.old.items ++ cause_text (cause_view cause.now)) }
{
    match cause {
        Cause::Rule(refusal) => push_rule(out, *refusal),
        Cause::Full { operation, kept } => push_full(out, *operation, kept),
        Cause::Spent => out.extend_from_slice(b"spent"),
    }
}

fn push_refused(out: &mut Vec<u8>, cause: &Cause) -> Result<(), AllocError>
    ensures { OnOk result (out.new.items ≡ out.old.items ++ ended_text (outcomes.Refused (cause_view cause.now))) }
{
    out.extend_from_slice(b"REFUSED ")?;
    push_cause(out, cause)?;
    out.extend_from_slice(b"\n")
}

/// What is printed of what a command came to, behind its version.
pub fn push_told(out: &mut Vec<u8>, told: &Told) -> Result<(), AllocError>
    ensures { OnOk result (out.new.items ≡ out.old.items ++ told_text told.now) }
{
    match told {
        Told::Reply(text) => text.push_to(out),
        Told::Held => out.extend_from_slice(b"HELD\n"),
        Told::Released => out.extend_from_slice(b"RELEASED\n"),
        Told::Committed => out.extend_from_slice(b"COMMITTED\n"),
        Told::Compacted => out.extend_from_slice(b"COMPACTED\n"),
        Told::RolledBack => out.extend_from_slice(b"ROLLED BACK\n"),
        Told::Refused(cause) => push_refused(out, cause),
    }
}

pub(crate) fn push_outcome(
    out: &mut Vec<u8>,
    worker: u64,
    command: u64,
    outcome: &Outcome,
) -> Result<(), AllocError>
    ensures { OnOk result (out.new.items ≡ out.old.items ++ outcome_text worker command outcome.now) }
{
    push_head(out, worker, command, outcome.version)?;
    push_told(out, &outcome.told)
}

/// Two numbers, each behind a text, and the end of the line.
pub fn push_pair(
    out: &mut Vec<u8>,
    before: &[u8],
    first: u64,
    between: &[u8],
    second: u64,
) -> Result<(), AllocError>
    ensures { OnOk result (out.new.items ≡ out.old.items ++ before.now ++ decimal first ++ between.now ++ decimal second ++ codes "\n") }
{
    out.extend_from_slice(before)?;
    push_decimal(out, first)?;
    out.extend_from_slice(between)?;
    push_decimal(out, second)?;
    out.extend_from_slice(b"\n")
}

/// The last line: the last version, and how many names it has.
pub fn push_end(out: &mut Vec<u8>, last: u64, names: u64) -> Result<(), AllocError>
    ensures { OnOk result (out.new.items ≡ out.old.items ++ end_text last names) }
{
    push_pair(out, b"end v", last, b" names ", names)
}
