//! What passes of one index do in turn: snapshots, notes, full tables, rollbacks.
ghost use Rattle.std.specs.Prelude.{◌≤◌, IsSomeAnd};
ghost use Rattle.qp_multi.specs.WorkingVersions.{Works};

use crate::buffer::Buffer;
use crate::items::numbered;
use crate::worker::{Act, Any, Refusal, Worker, act_within, alone, pair, tag};
use qp_multi::{Named, OutOfSpace, Snapshot, Transaction, WriteGuard};
use shift_key::Key;
use std::alloc::Global;
use std::sync::Wait;
use trie_read::Reading;
use trie_write::Item;

/// How many octets a large item has: with its node it takes 256 cells, a quarter of a chunk.
pub(crate) const LARGE: usize = 4080;

/// A snapshot stays at its version; the next one has what was committed.
pub(crate) fn held<N: Named, R: Wait>(
    rt: &R,
    alloc: Global,
    workers: Vec<Worker<N>>,
    second: &Item,
) -> Option<bool> {
    let mut buffer = Buffer::new(alloc)?;
    let (mut writer, reader) = pair(workers)?;
    let Worker { index, pass } = reader;
    let key = second.key();
    let mut snapshot = pass.hold(index);
    let receipt = writer.write(rt, second, Act::Exchange);
    let old = (snapshot.version(), tag(&mut snapshot, &key, &mut buffer));
    let told = writer.learn(snapshot.note(index));
    let seen = writer.look(&key, &mut buffer);
    let mut snapshot = snapshot.release().hold(index);
    let new = (snapshot.version(), tag(&mut snapshot, &key, &mut buffer));
    let right = old == (0, Some(1)) && seen == (1, Some(2)) && new == (1, Some(2));
    Some(told && right && receipt.is_ok_and(|receipt| receipt.version == 1))
}

/// A snapshot stays while one name is put in and another is taken out.
pub(crate) fn in_turn<N: Named, R: Wait>(
    rt: &R,
    alloc: Global,
    workers: Vec<Worker<N>>,
    first: &Item,
) -> Option<bool> {
    let other = numbered(alloc, [b'a', b'b'], 1, 600)?;
    let (mut writer, reader) = pair(workers)?;
    let Worker { index, pass } = reader;
    let mut snapshot = pass.hold(index);
    let put_in = writer.write(rt, &other, Act::In).is_ok() && writer.count() == (1, 2);
    let taken_out = writer.update(rt, first, Act::Out).is_ok() && writer.count() == (2, 1);
    let kept = (snapshot.version(), snapshot.count());
    let mut reader = Worker {
        index,
        pass: snapshot.release(),
    };
    Some(put_in && taken_out && kept == (0, 1) && reader.count() == (2, 1))
}

/// A pass that has learnt what another committed sees it. The next query, without a note, shows what is current then.
pub(crate) fn told<N: Named, R: Wait>(
    rt: &R,
    alloc: Global,
    workers: Vec<Worker<N>>,
    second: &Item,
) -> Option<bool> {
    let mut buffer = Buffer::new(alloc)?;
    let (mut p, mut q) = pair(workers)?;
    let key = second.key();
    let first = p.write(rt, second, Act::Exchange).ok()?;
    let learnt = q.learn_of(&mut p);
    let told = first.version == 1 && learnt && q.look(&key, &mut buffer) == (1, Some(2));
    let next = p.write(rt, second, Act::Exchange).ok()?;
    let untold = next.version == 2 && q.look(&key, &mut buffer) == (2, Some(2));
    Some(told && untold)
}

/// The base's number, and the last octet of the number at a key of the working set.
fn peek<N: Named, K>(
    transaction: &mut Transaction<'_, '_, Any, N, K>,
    key: &Key,
    buffer: &mut Buffer,
) -> (u64, u8)
    requires { IsSomeAnd transaction.old.locked.now.working Works }
{
    let number = transaction.version();
    let _octets = transaction.fetch(key, &mut buffer.octets);
    (number, buffer.octets[11])
}

/// Exchanges an item by a light transaction, and looks at it there. No version is made.
fn look_inside<N: Named, R: Wait>(
    rt: &R,
    worker: Worker<N>,
    item: &Item,
    buffer: &mut Buffer,
) -> (u64, u8) {
    let Worker { index, mut pass } = worker;
    let mut locked = WriteGuard::of(index);
    let mut write = index.write(rt, &mut locked, &mut pass);
    let _done = write.replace(&item.key(), item.octets());
    peek(&mut write, &item.key(), buffer)
}

impl<N: Named> Worker<'_, N> {
    /// Exchanges an item by a heavy transaction, which is rolled back or dropped. Whether it was exchanged meanwhile.
    fn give_up<R: Wait>(&mut self, rt: &R, item: &Item, rolls_back: bool) -> bool {
        let mut locked = WriteGuard::of(self.index);
        let mut update = self.index.update(rt, &mut locked, &mut self.pass);
        let done = act_within(&mut update, item, Act::Exchange).is_ok();
        if rolls_back {
            update.rollback();
        }
        done
    }

    /// An operation that finds no room leaves the working set as it was, and its transaction commits.
    fn is_refused<R: Wait>(
        &mut self,
        rt: &R,
        item: &Item,
        number: u64,
        buffer: &mut Buffer,
    ) -> bool {
        let mut locked = WriteGuard::of(self.index);
        let mut write = self.index.write(rt, &mut locked, &mut self.pass);
        let outcome = act_within(&mut write, item, Act::Exchange);
        let same = write.fetch(&item.key(), &mut buffer.octets) == Some(LARGE)
            && &buffer.octets[4..12] == number.to_be_bytes().as_slice();
        matches!(outcome, Err(Refusal::Full(_)))
            && same
            && write
                .commit()
                .is_ok_and(|receipt| receipt.version == number)
    }
}

/// A working set is read under the base's number, and is gone after a rollback.
pub(crate) fn rolled_back<N: Named, R: Wait>(
    rt: &R,
    alloc: Global,
    workers: Vec<Worker<N>>,
    second: &Item,
) -> Option<bool> {
    let mut buffer = Buffer::new(alloc)?;
    let (mut p, q) = pair(workers)?;
    let inside = look_inside(rt, q, second, &mut buffer);
    let done = p.give_up(rt, second, true);
    Some(done && inside == (0, 2) && p.look(&second.key(), &mut buffer) == (0, Some(1)))
}

/// Transactions that are dropped give back all that they took.
pub(crate) fn dropped<N: Named, R: Wait>(
    rt: &R,
    workers: Vec<Worker<N>>,
    second: &Item,
) -> Option<bool> {
    let mut worker = alone(workers)?;
    for _ in 0..1000 {
        if !worker.give_up(rt, second, false) {
            return Some(false);
        }
    }
    let receipt = worker.write(rt, second, Act::Exchange);
    Some(receipt.is_ok_and(|receipt| receipt.version == 1 && receipt.kept == 1))
}

/// Another pass holds the version that is current, if there is another.
fn hold_one<'i, N: Named>(
    workers: &mut Vec<Worker<'i, N>>,
    held: &mut Vec<Snapshot<'i, Any, N>>,
) -> bool {
    match workers.pop() {
        Some(Worker { index, pass }) => held.push(pass.hold(index)).is_ok(),
        None => true,
    }
}

/// Each commit's version is held, until there is no room, at the 64th exchange at the latest. Why there is none, and the number of the item
/// that was put last.
fn fill_up<'i, N: Named, R: Wait>(
    rt: &R,
    alloc: Global,
    writer: &mut Worker<'i, N>,
    workers: &mut Vec<Worker<'i, N>>,
    held: &mut Vec<Snapshot<'i, Any, N>>,
    octets: usize,
) -> Option<(OutOfSpace, u64)>
    requires { octets ≤ 4096 }
{
    for round in 0..64u64 {
        match writer.renumber(rt, alloc, round + 2, octets) {
            Ok(_) => {
                if !hold_one(workers, held) {
                    return None;
                }
            }
            Err(Refusal::Full(full)) => return Some((full, round + 1)),
            Err(Refusal::Other) => return None,
        }
    }
    None
}

/// When there is no room since all passes but the writer's hold versions, all of these are told. An operation is refused then, and its
/// transaction commits. When they are released there is room again.
pub(crate) fn full<N: Named, R: Wait>(
    rt: &R,
    alloc: Global,
    workers: Vec<Worker<N>>,
    second: &Item,
) -> Option<bool> {
    let mut buffer = Buffer::new(alloc)?;
    let mut workers = workers;
    let mut writer = workers.pop()?;
    let mut held = Vec::new(alloc);
    let (full, number) = fill_up(rt, alloc, &mut writer, &mut workers, &mut held, LARGE)?;
    let told = full.shortage.free <= full.shortage.reserve
        && full.shortage.left < full.shortage.needed
        && workers.is_empty()
        && full.kept.as_slice().len() == held.len()
        && number == 64;
    let same = writer.is_refused(rt, second, number, &mut buffer);
    drop(held);
    let after = writer.write(rt, second, Act::Exchange);
    Some(told && same && after.is_ok())
}

/// How many cells a version of one item of 4,096 octets has: 256, and a node.
const VERSION_CELLS: usize = 257;

/// Whether what is told of a refusal is so on 16 chunks: the versions that it names and the working set have more cells than there are chunks,
/// but for those that are kept free and eight more.
fn is_cramped(full: &OutOfSpace) -> bool {
    let versions = full.kept.as_slice().len().saturating_add(1);
    let cells = versions.saturating_mul(VERSION_CELLS);
    let others = (full.shortage.reserve as usize).saturating_add(8);
    full.shortage.free <= full.shortage.reserve
        && full.shortage.left < full.shortage.needed
        && others.saturating_add(cells) >= 16
}

/// Each commit's version is held until there is no room. When they are released the same exchange is made.
pub(crate) fn crowded<N: Named, R: Wait>(
    rt: &R,
    alloc: Global,
    workers: Vec<Worker<N>>,
) -> Option<bool> {
    let mut workers = workers;
    let mut writer = workers.pop()?;
    let mut held = Vec::new(alloc);
    let (full, number) = fill_up(rt, alloc, &mut writer, &mut workers, &mut held, 4096)?;
    let told = is_cramped(&full) && full.kept.as_slice().len() == held.len();
    drop(held);
    let after = writer.renumber(rt, alloc, number.saturating_add(1), 4096);
    Some(told && after.is_ok_and(|receipt| receipt.version == number))
}

/// A hundred commits while version 0 is read: each round keeps two versions.
fn kept_beside<N: Named, R: Wait>(
    rt: &R,
    alloc: Global,
    reader: Worker<N>,
    writer: &mut Worker<N>,
    key: &Key,
    buffer: &mut Buffer,
) -> bool {
    let Worker { index, mut pass } = reader;
    let mut right = true;
    let mut query = pass.query(index);
    for number in 0..100 {
        let receipt = writer.renumber(rt, alloc, number + 2, 4096);
        right = right && receipt.is_ok_and(|receipt| receipt.kept == 2);
    }
    right && query.version() == 0 && tag(&mut query, key, buffer) == Some(1)
}

/// A version is kept while it is read, and no longer.
pub(crate) fn kept<N: Named, R: Wait>(
    rt: &R,
    alloc: Global,
    workers: Vec<Worker<N>>,
    second: &Item,
) -> Option<bool> {
    let mut buffer = Buffer::new(alloc)?;
    let (mut writer, reader) = pair(workers)?;
    let beside = kept_beside(rt, alloc, reader, &mut writer, &second.key(), &mut buffer);
    let receipt = writer.write(rt, second, Act::Exchange);
    Some(beside && receipt.is_ok_and(|receipt| receipt.kept == 1))
}
