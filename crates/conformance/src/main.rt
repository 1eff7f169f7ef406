//! Runs the program's own call on worked inputs, with a source and a sink in memory, and compares the status and what was
//! written with what is due. The inputs are data (`data/*.cases`, whose form `case.rt` tells), so one more needs no proof.
//! What is due was written down before the program was.
#![tactic(auto)]

mod case;
mod judge;
mod reader;

use judge::is_as_due;
use reader::read_cases;
use std::alloc::Global;
use std::fs;
use std::process::ExitCode;
use std::rt::Files;
use std::sync::Wait;
use std::thread::Threads;

/// The files of cases, one a topic.
const TOPICS: [&str; 17] = [
    "answers.cases",
    "check.cases",
    "diff.cases",
    "dumps.cases",
    "examples.cases",
    "faults.cases",
    "feed.cases",
    "jobs.cases",
    "live.cases",
    "loads.cases",
    "prerequisites.cases",
    "refusals.cases",
    "responses.cases",
    "room.cases",
    "sizes.cases",
    "workers.cases",
    "zones.cases",
];

/// Judges each case of a topic, and answers how many differ from what is due.
fn judge_topic<R: Threads + Wait + Sync + Files + Print + AllocGlobal>(
    rt: &R,
    topic: &str,
) -> anyhow::Result<usize> {
    let text = fs::read_to_string(rt, topic)?;
    let cases = read_cases(rt.alloc(), text.as_str())?;
    let mut as_due = 0usize;
    for case in cases.iter() {
        if is_as_due(rt, rt.alloc(), case)? {
            as_due = as_due.saturating_add(1);
        }
    }
    println!(rt; "{topic}: {as_due} of {} as due", cases.len())?;
    Ok(cases.len().saturating_sub(as_due))
}

fn main(rt: HostRuntime) -> anyhow::Result<ExitCode> {
    let mut differ = 0usize;
    for topic in TOPICS {
        differ = differ.saturating_add(judge_topic(&rt, topic)?);
    }
    Ok(ExitCode::from(if differ == 0 { 0 } else { 1 }))
}
