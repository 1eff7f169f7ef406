//! Items of all lengths at which the number of their extents changes, in the shared table: exchanged for each other, and read while they
//! are exchanged.
ghost use Rattle.std.specs.Prelude.{◌≡◌};
ghost use Rattle.trie_read.specs.Readings.{IsHeld};

use crate::buffer::Buffer;
use crate::readers::{Due, read_all};
use crate::worker::{Act, Worker, alone};
use dns_name::Name;
use qp_multi::Named;
use shift_key::Key;
use std::alloc::Global;
use std::sync::Wait;
use std::thread::{Threads, join};
use trie_read::Reading;
use trie_write::Item;

/// How long the items are.
const LENGTHS: [usize; 14] = [
    1, 16, 17, 4080, 4081, 4096, 4097, 8160, 8161, 8176, 8177, 65_519, 65_520, 65_535,
];

/// How often each reader asks at most.
const ASKED: u32 = 200_000;

/// An octet of an item, which depends on its place and on the item's number.
fn octet_at(place: usize, number: u64) -> u8 {
    let place = place as u64;
    let mixed = (place ^ (place >> 8)).wrapping_add(number.wrapping_mul(101));
    (mixed % 256) as u8
}

/// The root's item of so many octets. None for want of memory.
fn root_item(alloc: Global, octets: usize, number: u64) -> Option<Item> {
    let mut payload = Vec::new(alloc);
    for place in 1..octets {
        payload.push(octet_at(place, number)).ok()?;
    }
    Item::of(alloc, &Name::root(), &payload).ok()
}

/// One of each length. None for want of memory.
fn root_items(alloc: Global, number: u64) -> Option<Vec<Item>> {
    let mut items = Vec::new(alloc);
    for octets in LENGTHS {
        items.push(root_item(alloc, octets, number)?).ok()?;
    }
    Some(items)
}

/// Whether a reading has this item.
fn has<V: Reading>(reading: &mut V, item: &Item, buffer: &mut Buffer) -> bool
    requires { IsHeld (V.holds reading.old) }
    ensures { reading.new ≡ reading.old }
{
    match reading.fetch(&item.key(), &mut buffer.octets) {
        Some(len) => &buffer.octets[..len] == item.octets(),
        None => false,
    }
}

impl<N: Named> Worker<'_, N> {
    /// Whether a query shows this item.
    fn shows(&mut self, item: &Item, buffer: &mut Buffer) -> bool {
        let mut query = self.pass.query(self.index);
        has(&mut query, item, buffer)
    }

    /// Commits one change of the root's item. Whether a query then shows what was put there, or nothing.
    fn is_put<R: Wait>(&mut self, rt: &R, item: &Item, act: Act, buffer: &mut Buffer) -> bool {
        let there = !matches!(act, Act::Out);
        self.write(rt, item, act).is_ok() && self.shows(item, buffer) == there
    }
}

/// Puts an item in, exchanges it for each of some others, and takes it out in the end.
fn exchanges<N: Named, R: Wait>(
    rt: &R,
    worker: &mut Worker<N>,
    first: &Item,
    others: &[Item],
    buffer: &mut Buffer,
) -> bool {
    for other in others {
        let right = worker.is_put(rt, first, Act::In, buffer)
            && worker.is_put(rt, other, Act::Exchange, buffer)
            && worker.is_put(rt, other, Act::Out, buffer);
        if !right {
            return false;
        }
    }
    true
}

/// Items of each length come, are exchanged for those of each other length, and go.
pub(crate) fn exchanged<N: Named, R: Wait>(
    rt: &R,
    alloc: Global,
    workers: Vec<Worker<N>>,
) -> Option<bool> {
    let mut buffer = Buffer::new(alloc)?;
    let firsts = root_items(alloc, 1)?;
    let others = root_items(alloc, 2)?;
    let mut worker = alone(workers)?;
    for first in &firsts {
        if !exchanges(rt, &mut worker, first, &others, &mut buffer) {
            return Some(false);
        }
    }
    Some(true)
}

/// How long the first name's item is in the version of a number.
fn length_of(number: u64) -> usize {
    LENGTHS[(number % 14) as usize].max(12)
}

/// The first name's item in the version of a number, which stands behind the name. None for want of memory.
fn item_of(alloc: Global, number: u64) -> Option<Item> {
    let name = Name::from_wire(b"\x02aa\0")?;
    let mut payload = Vec::new(alloc);
    payload.extend_from_slice(&number.to_be_bytes()).ok()?;
    for place in 12..length_of(number) {
        payload.push(octet_at(place, number)).ok()?;
    }
    Item::of(alloc, &name, &payload).ok()
}

/// Whether octets are those of that item, from the first to the last.
fn are_of(octets: &[u8], number: u64) -> bool {
    if octets.len() != length_of(number) || octets.len() < 12 {
        return false;
    }
    if &octets[4..12] != number.to_be_bytes().as_slice() {
        return false;
    }
    for place in 12..octets.len() {
        if octets[place] != octet_at(place, number) {
            return false;
        }
    }
    true
}

/// Whether the item of a key is that of the version of this number, from version 1 on.
pub(crate) fn has_item<V: Reading>(
    reading: &mut V,
    key: &Key,
    version: u64,
    buffer: &mut Buffer,
) -> bool
    requires { IsHeld (V.holds reading.old) }
    ensures { reading.new ≡ reading.old }
{
    match reading.fetch(key, &mut buffer.octets) {
        Some(len) => version == 0 || are_of(&buffer.octets[..len], version),
        None => false,
    }
}

/// Exchanges the first name's item so often. Whether a version was made each time.
fn write_on<N: Named, R: Wait>(rt: &R, alloc: Global, writer: Worker<N>, last: u64) -> bool {
    let mut writer = writer;
    for number in 0..last {
        let Some(item) = item_of(alloc, number + 1) else {
            return false;
        };
        if writer.write(rt, &item, Act::Exchange).is_err() {
            return false;
        }
    }
    true
}

/// One exchanges the first name's item, and all others read it.
pub(crate) fn read_while_exchanged<N: Named + Send + Sync, R: Threads + Wait + Sync>(
    rt: &R,
    alloc: Global,
    workers: Vec<Worker<N>>,
    first: &Item,
    last: u64,
) -> Option<bool> {
    let key = first.key();
    let mut workers = workers;
    let writer = workers.pop()?;
    let (written, read) = join(
        rt,
        || write_on(rt, alloc, writer, last),
        || read_all(rt, alloc, workers, Due::Item(&key), ASKED, last),
    );
    Some(written && read)
}
