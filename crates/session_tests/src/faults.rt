//! Each read and each write of a session fails in turn.

use crate::sessions::{Calls, ZONE, lived};
use std::alloc::{AllocError, Global};
use std::process::Abort;
use std::sync::Wait;
use std::test::Fail;
use std::thread::Threads;

/// The most calls that are tried.
const MOST_CALLS: u64 = 2000;

/// A piece of the input that is one line or the zone, and what is due for it.
type Line = (&'static str, &'static str);

const LINES: [Line; 14] = [
    (ZONE, "live v0 names 2\n"),
    (
        "get ns A\n",
        "1.1 v0 ANSWER 1\nns.example. 300 IN A 192.0.2.1\n",
    ),
    ("write\n", ""),
    ("add www 300 A 192.0.2.7\n", ""),
    ("hold\n", "refused line 9 BadCommand\n"),
    ("commit\n", "1.2 v0 REFUSED line\n"),
    ("hold\n", "1.3 v0 HELD\n"),
    ("update\n", ""),
    ("add www 300 A 192.0.2.7\n", ""),
    ("commit\n", "1.4 v1 COMMITTED\n"),
    ("at get www A\n", "1.5 v0 NXDOMAIN\n"),
    (
        "ask www A\n",
        "1.6 v1 ask NOERROR aa 1 0 0\nwww.example. 300 IN A 192.0.2.7\n",
    ),
    ("rollback\n", "refused line 17 BadCommand\n"),
    ("stat\n", "1.7 v1 names 3 nodes 4\n"),
];

const LAST: &str = "end v1 names 3\n";

/// All lines.
fn input(alloc: Global) -> Result<Vec<u8>, AllocError> {
    let mut input = Vec::new(alloc);
    for (line, _) in LINES {
        input.extend_from_slice(line.as_bytes())?;
    }
    Ok(input)
}

/// What is due for the lines that are whole where so many bytes have come.
fn due_of(alloc: Global, bytes: u64) -> Result<Vec<u8>, AllocError> {
    let mut due = Vec::new(alloc);
    let mut end: u64 = 0;
    for (line, told) in LINES {
        end = end.saturating_add(line.len() as u64);
        if end <= bytes {
            due.extend_from_slice(told.as_bytes())?;
        }
    }
    Ok(due)
}

/// What is due for all lines.
fn all_due(alloc: Global) -> Result<Vec<u8>, AllocError> {
    let mut due = due_of(alloc, u64::MAX)?;
    due.extend_from_slice(LAST.as_bytes())?;
    Ok(due)
}

/// By reads of so many bytes, each of which fails in turn: all that came whole is answered.
fn each_read_fails<R: Threads + Wait + Sync + Abort>(
    rt: &R,
    alloc: Global,
    reads: Calls,
) -> Result<u64, Fail> {
    let input = input(alloc)?;
    for failing in 1..MOST_CALLS {
        let found = lived(
            rt,
            alloc,
            &input,
            reads.with_failing(failing),
            Calls::of(4096),
        )?;
        if found.status != 5 {
            assert_eq!(rt; found.status, 1);
            assert_eq!(rt; found.written, all_due(alloc)?);
            return Ok(failing);
        }
        let came = (failing - 1).saturating_mul(reads.most as u64);
        assert_eq!(rt; found.written, due_of(alloc, came)?);
    }
    Err(Fail::from("each read failed"))
}

/// By writes of so many bytes, each of which fails in turn: what stands is a front of what is due, and longer than where an earlier one failed.
fn each_write_fails<R: Threads + Wait + Sync + Abort>(
    rt: &R,
    alloc: Global,
    writes: Calls,
) -> Result<u64, Fail> {
    let input = input(alloc)?;
    let due = all_due(alloc)?;
    let mut stood = 0;
    for failing in 1..MOST_CALLS {
        let found = lived(
            rt,
            alloc,
            &input,
            Calls::of(16),
            writes.with_failing(failing),
        )?;
        if found.status != 6 {
            assert_eq!(rt; found.status, 1);
            assert_eq!(rt; found.written, due);
            return Ok(failing);
        }
        assert!(rt; due.as_slice().starts_with(&found.written));
        assert!(rt; failing == 1 || stood < found.written.len());
        stood = found.written.len();
    }
    Err(Fail::from("each write failed"))
}

#[test]
fn reads_of_a_byte_fail(rt: HostRuntime) -> Result<(), Fail> {
    let calls = each_read_fails(&rt, rt.alloc(), Calls::of(1))?;
    assert_eq!(rt; calls, 1 + 1 + input(rt.alloc())?.len() as u64);
    Ok(())
}

#[test]
fn reads_of_some_bytes_fail(rt: HostRuntime) -> Result<(), Fail> {
    each_read_fails(&rt, rt.alloc(), Calls::of(7))?;
    each_read_fails(&rt, rt.alloc(), Calls::of(64))?;
    Ok(())
}

#[test]
fn writes_fail(rt: HostRuntime) -> Result<(), Fail> {
    let calls = each_write_fails(&rt, rt.alloc(), Calls::of(1))?;
    assert_eq!(rt; calls, 1 + all_due(rt.alloc())?.len() as u64);
    each_write_fails(&rt, rt.alloc(), Calls::of(9))?;
    each_write_fails(&rt, rt.alloc(), Calls::of(4096))?;
    Ok(())
}
