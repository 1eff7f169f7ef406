//! A pass with its index, as tests use it.
ghost use Rattle.std.specs.Prelude.{◌≡◌, ◌≤◌, IsSome, IsSomeAnd, All};
ghost use Rattle.trie_read.specs.Readings.{IsHeld};
ghost use Rattle.qp_multi.specs.WorkingVersions.{Works};

use crate::buffer::Buffer;
use crate::items::numbered;
use qp_multi::{
    ChangeRefusal, Index, InsertRefusal, Law, Named, Note, OutOfSpace, Pass, Receipt, Transaction,
    WriteGuard,
};
use shift_key::Key;
use std::alloc::Global;
use std::sync::Wait;
use trie_read::Reading;
use trie_write::Item;

/// Every version is lawful.
pub(crate) struct Any;

impl Law for Any {
    ghost lawful = { λ first es. Unit {0} };
}

/// A pass that is in its place, with its index.
#[derive(Drop)]
pub(crate) struct Worker<'i, N: Named> {
    pub(crate) index: &'i Index<Any, N>,
    pub(crate) pass: Pass<N>,
    ghost ready: { IsSome pass.seat },
    ghost here: { pass.place ≡ index.now.place },
}

/// What a transaction does with a name.
#[derive(Clone, Copy)]
pub(crate) enum Act {
    In,
    Exchange,
    Out,
}

/// Why a transaction made no version.
#[derive(Clone, Copy)]
pub(crate) enum Refusal {
    Full(OutOfSpace),
    /// It is there already, or isn't there; or there is no version or no memory left.
    Other,
}

impl From<InsertRefusal> for Refusal {
    fn from(refusal: InsertRefusal) -> Refusal {
        match refusal {
            InsertRefusal::Full(full) => Refusal::Full(full),
            InsertRefusal::Exists => Refusal::Other,
        }
    }
}

impl From<ChangeRefusal> for Refusal {
    fn from(refusal: ChangeRefusal) -> Refusal {
        match refusal {
            ChangeRefusal::Full(full) => Refusal::Full(full),
            ChangeRefusal::NotFound => Refusal::Other,
        }
    }
}

/// A worker for each pass. None for want of memory.
pub(crate) fn workers<'i, N: Named>(
    alloc: Global,
    index: &'i Index<Any, N>,
    passes: Vec<Pass<N>>,
) -> Option<Vec<Worker<'i, N>>>
    requires { All (λ p. (IsSome p.seat) × (p.place ≡ index.now.place)) passes.items }
{
    let mut passes = passes;
    let mut workers = Vec::new(alloc);
    while let Some(pass) = passes.pop() {
        workers.push(Worker { index, pass }).ok()?;
    }
    Some(workers)
}

/// One of them.
pub(crate) fn alone<'i, N: Named>(workers: Vec<Worker<'i, N>>) -> Option<Worker<'i, N>> {
    let mut workers = workers;
    workers.pop()
}

/// Two of them.
pub(crate) fn pair<'i, N: Named>(
    workers: Vec<Worker<'i, N>>,
) -> Option<(Worker<'i, N>, Worker<'i, N>)> {
    let mut workers = workers;
    let first = workers.pop()?;
    Some((first, workers.pop()?))
}

/// Does something within a transaction.
pub(crate) fn act_within<N: Named, K>(
    transaction: &mut Transaction<'_, '_, Any, N, K>,
    item: &Item,
    act: Act,
) -> Result<(), Refusal>
    requires { IsSomeAnd transaction.old.locked.now.working Works }
    ensures same_reference { (transaction.new.home.ghost_name ≡ transaction.old.home.ghost_name)
        × (transaction.new.locked.ghost_name ≡ transaction.old.locked.ghost_name) }
    ensures place { transaction.new.locked.now.place ≡ transaction.old.locked.now.place }
    ensures works { IsSomeAnd transaction.new.locked.now.working Works }
{
    let key = item.key();
    match act {
        Act::In => transaction.insert(&key, item.octets())?,
        Act::Exchange => transaction.replace(&key, item.octets())?,
        Act::Out => transaction.delete(&key)?,
    }
    Ok(())
}

impl<'i, N: Named> Worker<'i, N> {
    /// Does something by a light transaction, and commits.
    pub(crate) fn write<R: Wait>(
        &mut self,
        rt: &R,
        item: &Item,
        act: Act,
    ) -> Result<Receipt, Refusal> {
        let mut locked = WriteGuard::of(self.index);
        let mut write = self.index.write(rt, &mut locked, &mut self.pass);
        act_within(&mut write, item, act)?;
        write.commit().map_err(|_| Refusal::Other)
    }

    /// The same by a heavy transaction.
    pub(crate) fn update<R: Wait>(
        &mut self,
        rt: &R,
        item: &Item,
        act: Act,
    ) -> Result<Receipt, Refusal> {
        let mut locked = WriteGuard::of(self.index);
        let mut update = self.index.update(rt, &mut locked, &mut self.pass);
        act_within(&mut update, item, act)?;
        update.commit().map_err(|_| Refusal::Other)
    }

    /// Exchanges the first name's item for one with this number, by a light transaction.
    pub(crate) fn renumber<R: Wait>(
        &mut self,
        rt: &R,
        alloc: Global,
        number: u64,
        octets: usize,
    ) -> Result<Receipt, Refusal>
        requires { octets ≤ 4096 }
    {
        match numbered(alloc, [b'a', b'a'], number, octets) {
            Some(item) => self.write(rt, &item, Act::Exchange),
            None => Err(Refusal::Other),
        }
    }

    /// Makes a version of the same names.
    pub(crate) fn compact<R: Wait>(&mut self, rt: &R) -> Option<Receipt> {
        self.index.compact(rt, &mut self.pass).ok()
    }

    /// The version that a query shows, and the number at a key.
    pub(crate) fn look(&mut self, key: &Key, buffer: &mut Buffer) -> (u64, Option<u64>) {
        let mut query = self.pass.query(self.index);
        (query.version(), tag(&mut query, key, buffer))
    }

    /// The version that a query shows, and how many names it has.
    pub(crate) fn count(&mut self) -> (u64, u64) {
        let mut query = self.pass.query(self.index);
        (query.version(), query.count())
    }

    /// Learns what a note tells, if it is of the same index.
    pub(crate) fn learn(&mut self, note: Note<N>) -> bool {
        let same = note.place() == self.pass.place();
        if same {
            self.pass.learn(self.index, note);
        }
        same
    }

    /// Learns what another has seen.
    pub(crate) fn learn_of(&mut self, other: &mut Worker<'i, N>) -> bool {
        let note = other.pass.note(other.index);
        self.learn(note)
    }
}

/// The number behind the name in an item whose name has four octets. None where the key isn't there.
pub(crate) fn tag<V: Reading>(reading: &mut V, key: &Key, buffer: &mut Buffer) -> Option<u64>
    requires { IsHeld (V.holds reading.old) }
    ensures { reading.new ≡ reading.old }
{
    reading.fetch(key, &mut buffer.octets)?;
    let out = &buffer.octets;
    let octets = [
        out[4], out[5], out[6], out[7], out[8], out[9], out[10], out[11],
    ];
    Some(u64::from_be_bytes(octets))
}

/// How many names a walk passes.
pub(crate) fn walk<V: Reading>(reading: &mut V) -> u64
    requires { IsHeld (V.holds reading.old) }
    ensures { reading.new ≡ reading.old }
{
    let mut iter = reading.iter();
    for names in 0..2000 {
        if reading.next(&mut iter).is_none() {
            return names;
        }
    }
    2000
}
