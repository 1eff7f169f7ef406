//! A million commands, which nobody holds: a reader makes them as they are read, and a writer counts the lines of their replies.

use crate::sessions::{ZONE, status_over};
use outer_io::{StdSink, StdSource};
use std::alloc::{AllocError, Global};
use std::io;
use std::sync::atomic::{AtomicU64, Ordering};
use std::test::Fail;

/// Gives a text, and then another one again and again.
#[derive(Drop)]
struct Asking<'a> {
    next: &'a [u8],
    again: &'a [u8],
    times: u64,
}

impl io::Read for Asking<'_> {
    fn read(&mut self, piece: &mut [u8]) -> io::Result<usize> {
        let Some(times) = self.times.checked_sub(1) else {
            return Ok(0);
        };
        let count = self.next.len().min(piece.len());
        piece[..count].copy_from_slice(&self.next[..count]);
        self.times = times;
        self.next = self.again;
        Ok(count)
    }
}

/// Counts lines.
#[derive(Drop)]
struct Counting<'a>(&'a AtomicU64);

impl io::Write for Counting<'_> {
    fn write(&mut self, piece: &[u8]) -> io::Result<usize> {
        let lines = piece.iter().filter(|b| **b == b'\n').count();
        self.0.fetch_add(lines as u64, Ordering::SeqCst);
        Ok(piece.len())
    }

    fn flush(&mut self) -> io::Result<()> {
        Ok(())
    }
}

/// A line, so many times.
fn repeated(alloc: Global, line: &[u8], times: usize) -> Result<Vec<u8>, AllocError> {
    let mut lines = Vec::new(alloc);
    for _ in 0..times {
        lines.extend_from_slice(line)?;
    }
    Ok(lines)
}

#[test]
fn a_million_questions(rt: HostRuntime) -> Result<(), Fail> {
    let again = repeated(rt.alloc(), b"get ns A\n", 4000)?;
    let lines = AtomicU64::new(0);
    let mut source = StdSource::new(Asking {
        next: ZONE.as_bytes(),
        again: &again,
        times: 251,
    });
    let mut sink = StdSink::new(Counting(&lines));
    let status = status_over(&rt, rt.alloc(), &mut source, &mut sink)?;
    assert_eq!(rt; status, 0);
    assert_eq!(rt; lines.load(Ordering::SeqCst), 2_000_002);
    Ok(())
}
