//! Passes in threads of their own, beside each other.
ghost use Rattle.std.specs.Prelude.{◌≡◌};
ghost use Rattle.trie_read.specs.Readings.{IsHeld};
ghost use Rattle.shared_cells.specs.Views.{pinned_image};
ghost use Rattle.qp_multi.specs.Passes.{version_seen};
ghost use Rattle.qp_multi.specs.Meanings.{Holds};

use crate::buffer::Buffer;
use crate::course::{NAMES, due, name_at, visit_of};
use crate::items::numbered;
use crate::readers::{Due, read_all};
use crate::worker::{Any, Worker, pair, tag, walk};
use qp_multi::{Named, Snapshot};
use shift_key::Key;
use std::alloc::Global;
use std::sync::Wait;
use std::sync::atomic::{AtomicU32, Ordering};
use std::thread::{Threads, join};
use trie_read::Reading;
use trie_write::Item;

/// How often each reader of a crowd asks at most.
const ASKED: u32 = 20_000;

/// Holds a query until the other thread holds one too. Whether that came about.
fn meet<N: Named>(worker: Worker<N>, here: &AtomicU32) -> bool {
    let Worker { index, mut pass } = worker;
    here.fetch_add(1, Ordering::SeqCst);
    let query = pass.query(index);
    let mut met = false;
    for _ in 0..10_000_000 {
        if here.load(Ordering::SeqCst) == 2 {
            met = true;
            break;
        }
    }
    drop(query);
    met
}

/// Two passes ask at the same time.
pub(crate) fn at_once<N: Named + Send + Sync, R: Threads + Wait + Sync>(
    rt: &R,
    workers: Vec<Worker<N>>,
) -> Option<bool> {
    let (p, q) = pair(workers)?;
    let here = AtomicU32::new(0);
    let (first, second) = join(rt, || meet(p, &here), || meet(q, &here));
    Some(first && second)
}

/// Commits a hundred times, and tells when that is done. The last version.
fn commit_on<N: Named, R: Wait>(rt: &R, alloc: Global, writer: Worker<N>, done: &AtomicU32) -> u64 {
    let mut writer = writer;
    let mut last = 0;
    for number in 0..100 {
        if let Ok(receipt) = writer.renumber(rt, alloc, number + 2, 600) {
            last = receipt.version;
        }
    }
    done.store(1, Ordering::SeqCst);
    last
}

/// Whether a reading is of version 0, and has the first item at the key.
fn is_as_opened<V: Reading>(reading: &mut V, key: &Key, buffer: &mut Buffer) -> bool
    requires { IsHeld (V.holds reading.old) }
    ensures { reading.new ≡ reading.old }
{
    let version = reading.version();
    let number = tag(reading, key, buffer);
    version == 0 && number == Some(1)
}

/// Reads a snapshot until all commits are done, and once more. Whether it always was as at first.
fn read_held<N: Named>(
    alloc: Global,
    snapshot: Snapshot<'_, Any, N>,
    first: &Item,
    done: &AtomicU32,
) -> bool
    requires { Holds (pinned_image snapshot.seat.place.me.0.progress) snapshot.seat.root (version_seen snapshot.seat.place.me.0.seen) }
{
    let Some(mut buffer) = Buffer::new(alloc) else {
        return false;
    };
    let mut snapshot = snapshot;
    let key = first.key();
    let mut right = true;
    for _ in 0..10_000_000 {
        let last = done.load(Ordering::SeqCst) == 1;
        let same = is_as_opened(&mut snapshot, &key, &mut buffer);
        right = right && same;
        if last {
            return right;
        }
    }
    false
}

/// A snapshot goes to another thread, and is read there while others commit.
pub(crate) fn moved<N: Named + Send + Sync, R: Threads + Wait + Sync>(
    rt: &R,
    alloc: Global,
    workers: Vec<Worker<N>>,
    first: &Item,
) -> Option<bool> {
    let (writer, reader) = pair(workers)?;
    let Worker { index, pass } = reader;
    let snapshot = pass.hold(index);
    let done = AtomicU32::new(0);
    let (last, right) = join(
        rt,
        || commit_on(rt, alloc, writer, &done),
        || -> bool
            requires { Holds (pinned_image snapshot.seat.place.me.0.progress) snapshot.seat.root (version_seen snapshot.seat.place.me.0.seen) }
        { read_held(alloc, snapshot, first, &done) },
    );
    Some(last == 100 && right)
}

/// How many names a version has: each eighth one is walked through.
fn count<V: Reading>(reading: &mut V, version: u64) -> u64
    requires { IsHeld (V.holds reading.old) }
    ensures { reading.new ≡ reading.old }
{
    if version % 8 == 0 {
        return walk(reading);
    }
    reading.count()
}

/// Whether a version has as many names as its number says, and what it should have at each 25th of their places.
pub(crate) fn has_names<V: Reading>(
    reading: &mut V,
    names: &[Item],
    version: u64,
    buffer: &mut Buffer,
) -> bool
    requires { IsHeld (V.holds reading.old) }
    ensures { reading.new ≡ reading.old }
{
    let mut names_due = 1u64;
    let mut right = true;
    for place in 0..names.len() {
        let due = due(version, place as u64);
        if due.is_some() {
            names_due = names_due.saturating_add(1);
        }
        if place as u64 % 25 == version % 25 {
            right = right && tag(reading, &names[place].key(), buffer) == due;
        }
    }
    let counted = count(reading, version);
    right && counted == names_due
}

/// Makes one transaction of the course. Whether a version was made, and all that was to be moved for it found room.
fn take_turn<N: Named, R: Wait>(
    rt: &R,
    alloc: Global,
    writer: &mut Worker<N>,
    number: u64,
) -> bool {
    let visit = visit_of(number);
    let octets = visit.octets as usize;
    match numbered(alloc, name_at(visit.place), number.wrapping_add(1), octets) {
        Some(item) => writer
            .write(rt, &item, visit.act)
            .is_ok_and(|receipt| receipt.whole),
        None => false,
    }
}

/// Makes all transactions of the course, and looks at the last version.
fn write_on<N: Named, R: Wait>(
    rt: &R,
    alloc: Global,
    writer: Worker<N>,
    due: Due<'_>,
    last: u64,
) -> bool {
    let mut writer = writer;
    for number in 0..last {
        if !take_turn(rt, alloc, &mut writer, number) {
            return false;
        }
    }
    let Some(mut buffer) = Buffer::new(alloc) else {
        return false;
    };
    writer.sees(due, &mut buffer) == (last, true)
}

/// The names of the course. None for want of memory.
fn names(alloc: Global) -> Option<Vec<Item>> {
    let mut names = Vec::new(alloc);
    for place in 0..NAMES {
        names.push(numbered(alloc, name_at(place), 0, 12)?).ok()?;
    }
    Some(names)
}

/// One makes so many transactions of the course, and all others ask: which names are there, and each of them.
pub(crate) fn crowd<N: Named + Send + Sync, R: Threads + Wait + Sync>(
    rt: &R,
    alloc: Global,
    workers: Vec<Worker<N>>,
    last: u64,
) -> Option<bool> {
    let names = names(alloc)?;
    let mut workers = workers;
    let writer = workers.pop()?;
    let due = Due::Names(names.as_slice());
    let (written, read) = join(
        rt,
        || write_on(rt, alloc, writer, due, last),
        || read_all(rt, alloc, workers, due, ASKED, last),
    );
    Some(written && read)
}
