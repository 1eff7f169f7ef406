//! Runs a case, and says whether all is as it is due.
use crate::case::{Case, InTurn};
use anyhow::bail;
use outer_io::{MemSink, MemSource};
use qp_main::{Gate, run};
use std::alloc::{AllocError, Global};
use std::io;
use std::sync::Wait;
use std::thread::Threads;

/// A gate that does nothing.
struct Open;

impl Gate for Open {
    ghost hears = { λ _ _. Unit {0} };

    fn before(&self, _worker: u32, _command: u32) {}

    fn after(&self, _worker: u32, _command: u32) {}
}

/// The most bytes of an output that is compared.
const ROOM: usize = 400_000;

/// The most calls that fail in turn.
const MOST_CALLS: u64 = 1000;

/// What stands behind the digits that a text begins with.
fn past_number(text: &[u8]) -> &[u8] {
    match text.iter().position(|b| !b.is_ascii_digit()) {
        Some(end) => &text[end..],
        None => b"",
    }
}

/// Whether a text is one that is due, in which `?` stands for any number.
fn is_like(text: &[u8], due: &[u8]) -> bool {
    let mut left = text;
    for (place, part) in due.split(|b| *b == b'?').enumerate() {
        if place > 0 {
            left = past_number(left);
        }
        let Some(behind) = left.strip_prefix(part) else {
            return false;
        };
        left = behind;
    }
    left.is_empty()
}

/// A case's run.
#[derive(Drop)]
struct Outcome {
    status: u8,
    written: Vec<u8>,
}

/// Runs a case on an input, with the reads and writes of these numbers failing.
fn run_case<R: Threads + Wait + Sync>(
    rt: &R,
    alloc: Global,
    case: &Case,
    input: &[u8],
    reads: Vec<u64>,
    writes: Vec<u64>,
) -> anyhow::Result<Outcome> {
    let input = Vec::from_slice(alloc, input)?;
    let mut source = MemSource::new(input, case.reads.most, reads);
    let mut sink = MemSink::new(alloc, ROOM, case.writes.most, writes)?;
    let status = run(rt, alloc, &case.words, &mut source, &mut sink, &Open).code();
    let written = sink.held().unwrap_or(b"more than there is room for");
    Ok(Outcome {
        status,
        written: Vec::from_slice(alloc, written)?,
    })
}

/// Whether a run ended with a status, and wrote one of the texts that are due.
fn is_one_of(found: &Outcome, status: u8, outputs: &[String]) -> bool {
    let like = outputs
        .iter()
        .any(|due| is_like(&found.written, due.as_bytes()));
    found.status == status && like
}

/// Says on standard output what a run gave that isn't as it is due.
fn say_other<R: Print>(rt: &R, alloc: Global, name: &str, found: &Outcome) -> anyhow::Result<()> {
    println!(rt; "{name}: status {}, and written was", found.status)?;
    println!(rt; "{}", String::from_utf8_lossy(alloc, &found.written)?)?;
    Ok(())
}

/// Whether a run whose source failed wrote nothing, or one whose sink failed what is due up to there.
fn is_cut_short(case: &Case, found: &Outcome) -> bool {
    match case.in_turn {
        InTurn::None => false,
        InTurn::Reads => found.status == 5 && found.written.is_empty(),
        InTurn::Writes => {
            let due = case.outputs.first();
            found.status == 6 && due.is_some_and(|due| due.as_bytes().starts_with(&found.written))
        }
    }
}

/// The reads and the writes that fail in a run whose number is given; without one, those that the case names.
fn failing(alloc: Global, case: &Case, number: u64) -> Result<(Vec<u64>, Vec<u64>), AllocError> {
    match case.in_turn {
        InTurn::None => Ok((case.reads.fails.clone()?, case.writes.fails.clone()?)),
        InTurn::Reads => Ok((vec![in alloc; number]?, Vec::new(alloc))),
        InTurn::Writes => Ok((Vec::new(alloc), vec![in alloc; number]?)),
    }
}

/// Runs a case once, or with each of its calls failing in turn until none is left to fail, and answers whether all is as due.
fn runs_as_due<R: Threads + Wait + Sync + Print>(
    rt: &R,
    alloc: Global,
    case: &Case,
) -> anyhow::Result<bool> {
    for number in 1..=MOST_CALLS {
        let (reads, writes) = failing(alloc, case, number)?;
        let found = run_case(rt, alloc, case, case.input.as_bytes(), reads, writes)?;
        if is_one_of(&found, case.status, &case.outputs) {
            return Ok(true);
        }
        if !is_cut_short(case, &found) {
            say_other(rt, alloc, case.name.as_str(), &found)?;
            return Ok(false);
        }
    }
    Ok(false)
}

/// Runs a case on its input, cut after each byte, and answers whether all is as due.
fn cuts_as_due<R: Threads + Wait + Sync + Print>(
    rt: &R,
    alloc: Global,
    case: &Case,
) -> anyhow::Result<bool> {
    let input = case.input.as_bytes();
    for len in 0..=input.len() {
        let Some(cut) = case.cuts.iter().find(|cut| len <= cut.upto) else {
            bail!("nothing is due of {len} bytes");
        };
        let (reads, writes) = failing(alloc, case, 0)?;
        let found = run_case(rt, alloc, case, &input[..len], reads, writes)?;
        if found.status != cut.status || !is_like(&found.written, cut.output.as_bytes()) {
            println!(rt; "of {len} bytes")?;
            say_other(rt, alloc, case.name.as_str(), &found)?;
            return Ok(false);
        }
    }
    Ok(true)
}

/// Runs a case, and says on standard output how it differs from what is due. Answers whether it does not.
pub(crate) fn is_as_due<R: Threads + Wait + Sync + Print>(
    rt: &R,
    alloc: Global,
    case: &Case,
) -> anyhow::Result<bool> {
    if case.cuts.is_empty() {
        runs_as_due(rt, alloc, case)
    } else {
        cuts_as_due(rt, alloc, case)
    }
}
