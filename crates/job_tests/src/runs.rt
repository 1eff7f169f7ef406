//! Runs of texts: by the program's own call, and by the calls below it that tell their outcomes.
ghost use Rattle.std.specs.Prelude.{IfOk};
ghost use Rattle.trie_write.specs.Entries.{entries_of_items};
ghost use Rattle.job_commands.specs.Histories.{IsZone};

use crate::gates::Open;
use dns_name::Name;
use job_threads::{Finished, Ran, run_zone, table_for};
use outer_io::{QuietSink, QuietSource};
use qp_main::{Gate, job_in, run, zone_in, zone_items};
use std::alloc::{AllocError, Global};
use std::sync::Wait;
use std::test::Fail;
use std::thread::Threads;
use trie_write::Item;

/// A zone with two names, and the line behind it.
pub(crate) const ZONE: &str =
    "$TTL 300\n@ SOA ns hostmaster 1 3600 600 86400 60\n@ NS ns\nns A 192.0.2.1\n%%\n";

/// The program's name, and the words between the spaces of a text.
fn command_line(alloc: Global, text: &str) -> Result<Vec<String>, AllocError> {
    let mut words = Vec::new(alloc);
    words.push(String::from_str(alloc, "qpzone")?)?;
    for word in text.split_whitespace() {
        words.push(String::from_str(alloc, word)?)?;
    }
    Ok(words)
}

/// The status and the report of a zone and a script, run as words say, by way of a gate.
pub(crate) fn told<R: Threads + Wait + Sync, G: Gate>(
    rt: &R,
    alloc: Global,
    words: &str,
    zone: &str,
    script: &str,
    gate: &G,
) -> Result<(u8, String), Fail> {
    let mut input = Vec::from_slice(alloc, zone.as_bytes())?;
    input.extend_from_slice(script.as_bytes())?;
    let mut source = QuietSource::new(input, 4096);
    let mut sink = QuietSink::new(alloc, 262_144, 7)?;
    let words = command_line(alloc, words)?;
    let status = run(rt, alloc, &words, &mut source, &mut sink, gate).code();
    let written = sink.held().ok_or("no room")?;
    Ok((status, String::from_utf8(Vec::from_slice(alloc, written)?)?))
}

/// The name of the zone whose outcomes are told.
pub(crate) fn example() -> Result<Name, Fail> {
    Ok(Name::from_wire(b"\x07example\x00").ok_or("no name")?)
}

/// The items of a zone that has no names but its own yet.
pub(crate) fn lone_apex(alloc: Global, origin: &Name) -> Result<Vec<Item>, Fail>
    ensures { IfOk result (λ items. IsZone origin.now (entries_of_items items.items)) }
{
    let zone = zone_in(
        alloc,
        b"@ 300 SOA ns hostmaster 1 3600 600 86400 60\n",
        origin,
    )?;
    Ok(zone_items(alloc, zone)?)
}

/// What becomes of a script on that zone, over 64 chunks.
pub(crate) fn outcomes_of<R: Threads + Wait + Sync>(
    rt: &R,
    alloc: Global,
    script: &str,
) -> Result<Finished, Fail> {
    if script.len() > 16_000_000 {
        return Err(Fail::from("a long script"));
    }
    let origin = example()?;
    let job = job_in(alloc, script.as_bytes(), 1, &origin)?;
    let items = lone_apex(alloc, &origin)?;
    let blank = table_for(alloc, 64, job.workers.len())?;
    match run_zone(rt, alloc, blank, &origin, &items, &job, &Open)? {
        Ran::Finished(finished) => Ok(finished),
        Ran::DoesNotFit { .. } => Err(Fail::from("no room")),
    }
}
