//! Sessions over sources and sinks in memory.
ghost use Rattle.std.specs.Prelude.{◌<◌};

use outer_io::{MemSink, MemSource, Sink, Source};
use qp_main::{Gate, run};
use std::alloc::{AllocError, Global};
use std::sync::Wait;
use std::test::Fail;
use std::thread::Threads;

/// A zone with two names, and the line behind it: five lines.
pub(crate) const ZONE: &str =
    "$TTL 300\n@ SOA ns hostmaster 1 3600 600 86400 60\n@ NS ns\nns A 192.0.2.1\n%%\n";

/// A gate that does nothing.
struct Open;

impl Gate for Open {
    ghost hears = { λ _ _. Unit {0} };

    fn before(&self, _worker: u32, _command: u32) {}

    fn after(&self, _worker: u32, _command: u32) {}
}

/// The words of a session's command line.
fn words(alloc: Global) -> Result<Vec<String>, AllocError> {
    let mut words = Vec::new(alloc);
    for word in ["qpzone", "live", "--origin", "example."] {
        words.push(String::from_str(alloc, word)?)?;
    }
    Ok(words)
}

/// The status of a session.
pub(crate) fn status_over<R: Threads + Wait + Sync, S: Source, K: Sink>(
    rt: &R,
    alloc: Global,
    source: &mut S,
    sink: &mut K,
) -> Result<u8, Fail> {
    let words = words(alloc)?;
    Ok(run(rt, alloc, &words, source, sink, &Open).code())
}

/// How bytes are moved: at most so many in a call, of which the one with a number fails, if it isn't 0.
#[derive(Clone, Copy)]
pub(crate) struct Calls {
    pub most: usize,
    pub failing: u64,
    ghost some: { 0 < most },
}

impl Calls {
    /// No call fails.
    pub(crate) fn of(most: usize) -> Calls
        requires { 0 < most }
    {
        Calls { most, failing: 0 }
    }

    /// The call with this number fails.
    pub(crate) fn with_failing(self, failing: u64) -> Calls {
        Calls {
            most: self.most,
            failing,
        }
    }
}

/// The status of a session, and what was written.
#[derive(Drop)]
pub(crate) struct Ended {
    pub status: u8,
    pub written: Vec<u8>,
}

/// A session on this input.
pub(crate) fn lived<R: Threads + Wait + Sync>(
    rt: &R,
    alloc: Global,
    input: &[u8],
    reads: Calls,
    writes: Calls,
) -> Result<Ended, Fail> {
    let input = Vec::from_slice(alloc, input)?;
    let mut source = MemSource::new(input, reads.most, vec![in alloc; reads.failing]?);
    let mut sink = MemSink::new(alloc, 65536, writes.most, vec![in alloc; writes.failing]?)?;
    let status = status_over(rt, alloc, &mut source, &mut sink)?;
    let written = Vec::from_slice(alloc, sink.held().ok_or("no room")?)?;
    Ok(Ended { status, written })
}
