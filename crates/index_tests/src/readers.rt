//! Readers beside a writer: each asks until the last version is there.
ghost use Rattle.std.specs.Prelude.{◌≡◌};
ghost use Rattle.trie_read.specs.Readings.{IsHeld};

use crate::buffer::Buffer;
use crate::crowd::has_names;
use crate::long_items::has_item;
use crate::worker::Worker;
use qp_multi::Named;
use shift_key::Key;
use std::alloc::Global;
use std::thread::{Threads, map_vec};
use trie_read::Reading;
use trie_write::Item;

/// What a version's number tells of it.
#[derive(Clone, Copy)]
pub(crate) enum Due<'a> {
    /// Which of the course's names are there, and each of them.
    Names(&'a [Item]),
    /// The item at this key.
    Item(&'a Key),
}

/// Whether a version is as its number says.
fn is_as_due<V: Reading>(reading: &mut V, due: Due<'_>, version: u64, buffer: &mut Buffer) -> bool
    requires { IsHeld (V.holds reading.old) }
    ensures { reading.new ≡ reading.old }
{
    match due {
        Due::Names(names) => has_names(reading, names, version, buffer),
        Due::Item(key) => has_item(reading, key, version, buffer),
    }
}

impl<N: Named> Worker<'_, N> {
    /// The version that a query shows, and whether it is as its number says.
    pub(crate) fn sees(&mut self, due: Due<'_>, buffer: &mut Buffer) -> (u64, bool) {
        let mut query = self.pass.query(self.index);
        let version = query.version();
        (version, is_as_due(&mut query, due, version, buffer))
    }
}

/// Asks so often at most, until the last version is there. Whether all was right, and no version older than the one before.
fn read_on<N: Named>(
    alloc: Global,
    worker: Worker<N>,
    due: Due<'_>,
    times: u32,
    last: u64,
) -> bool {
    let Some(mut buffer) = Buffer::new(alloc) else {
        return false;
    };
    let mut worker = worker;
    let mut seen = 0;
    for _ in 0..times {
        let (version, right) = worker.sees(due, &mut buffer);
        if !right || version < seen {
            return false;
        }
        if version == last {
            break;
        }
        seen = version;
    }
    true
}

/// All ask beside each other. Whether all was right.
pub(crate) fn read_all<N: Named + Send + Sync, R: Threads + Sync>(
    rt: &R,
    alloc: Global,
    workers: Vec<Worker<N>>,
    due: Due<'_>,
    times: u32,
    last: u64,
) -> bool {
    // What is inferred of a closure isn't proved where its argument has a lifetime, so it has a clause.
    let read = map_vec(
        rt,
        workers,
        &|worker: Worker<N>| -> bool
            ensures { Unit {0} }
        { read_on(alloc, worker, due, times, last) },
    );
    match read {
        Ok(read) => read.iter().all(|right| *right),
        Err(_) => false,
    }
}
