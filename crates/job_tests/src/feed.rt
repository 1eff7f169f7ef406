//! One list of commands that is handed out to workers.
ghost use Rattle.std.specs.Prelude.{◌≤◌};

use crate::crowd::Tally;
use crate::gates::Open;
use crate::runs::{ZONE, example, lone_apex, told};
use feed_threads::{FedFinished, FedRan, run_list, table_for_list};
use qp_main::list_in;
use std::alloc::{AllocError, Global};
use std::sync::Wait;
use std::test::Fail;
use std::thread::Threads;

/// What becomes of a list on a zone that has no names but its own yet, handed out to so many workers over 64 chunks.
fn hand_out<R: Threads + Wait + Sync>(
    rt: &R,
    alloc: Global,
    script: &str,
    workers: u32,
) -> Result<FedFinished, Fail>
    requires { (1 ≤ workers) × (workers ≤ 16) }
{
    if script.len() > 16_000_000 {
        return Err(Fail::from("a long script"));
    }
    let origin = example()?;
    let commands = list_in(alloc, script.as_bytes(), 1, &origin)?;
    if commands.is_empty() {
        return Err(Fail::from("no commands"));
    }
    let items = lone_apex(alloc, &origin)?;
    let blank = table_for_list(alloc, 64, workers)?;
    match run_list(rt, alloc, blank, &origin, &items, &commands, workers, &Open)? {
        FedRan::Finished(finished) => Ok(finished),
        FedRan::DoesNotFit { .. } => Err(Fail::from("no room")),
    }
}

#[test]
fn sixteen_workers_share_one_command(rt: HostRuntime) -> Result<(), Fail> {
    let finished = hand_out(&rt, rt.alloc(), "stat\n", 16)?;
    assert_eq!(rt; finished.outcomes.len(), 1);
    assert_eq!(rt; finished.version, 0);
    Ok(())
}

/// So many blocks, each of which adds a record under a name of its own.
fn blocks(alloc: Global, count: u32, record: &str) -> Result<String, AllocError> {
    let mut script = String::new(alloc);
    for block in 0..count {
        write!(script, "write\nadd w{block:06} 60 {record}\ncommit\n")?;
    }
    Ok(script)
}

/// The version that a line tells, if it tells that this command made it.
fn made_by(line: &str, command: u32) -> Option<usize> {
    let (_worker, rest) = line.split_once('.')?;
    let (number, rest) = rest.split_once(" v")?;
    let version = rest.strip_suffix(" COMMITTED")?;
    if number.parse::<u32>().ok()? != command {
        return None;
    }
    version.parse().ok()
}

/// A hundred blocks, the I-th of which adds the name wI with the address 192.0.2.I.
fn hundred_addresses(alloc: Global) -> Result<String, AllocError> {
    let mut script = String::new(alloc);
    for number in 1..101u32 {
        write!(
            script,
            "write\nadd w{number} 60 A 192.0.2.{number}\ncommit\n"
        )?;
    }
    Ok(script)
}

// By four workers, in the order of the commands: each block makes a version of its own.
#[test]
fn a_hundred_blocks_make_a_hundred_versions(rt: HostRuntime) -> Result<(), Fail> {
    let words = "feed --origin example. --workers 4 --chunks 256";
    let script = hundred_addresses(rt.alloc())?;
    let (status, report) = told(&rt, rt.alloc(), words, ZONE, script.as_str(), &Open)?;
    assert_eq!(rt; status, 0);
    assert_eq!(rt; report.lines().count(), 101);
    let mut made = Vec::new(rt.alloc());
    for (line, command) in report.lines().zip(1..101u32) {
        made.push(made_by(line, command).ok_or("no commit")?)?;
    }
    made.sort_unstable();
    assert!(rt; made.iter().copied().eq(1..101));
    assert!(rt; report.ends_with("\nend v100 names 102\n"));
    Ok(())
}

#[test]
fn a_list_fills_a_small_table(rt: HostRuntime) -> Result<(), Fail> {
    let octets = "5".repeat(rt.alloc(), 100)?;
    let record = format!(in rt.alloc(); "TYPE65280 \\# 50 {octets}")?;
    let script = blocks(rt.alloc(), 10_000, record.as_str())?;
    let finished = hand_out(&rt, rt.alloc(), script.as_str(), 16)?;
    assert_eq!(rt; finished.outcomes.len(), 10_000);
    let mut tally = Tally::new(rt.alloc(), 10_000)?;
    let mut seen = [0u64; 17];
    for ran in finished.outcomes.iter() {
        let worker = ran.worker as usize;
        assert!(rt; worker < 17);
        seen[worker] = tally.count(seen[worker], &ran.outcome);
    }
    tally.check(&rt, 10_000, finished.version, finished.names);
    Ok(())
}
