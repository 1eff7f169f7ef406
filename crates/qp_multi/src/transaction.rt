//! Transactions: one at a time, each of a pass that has joined the turn.
ghost use Rattle.std.specs.Prelude.{◌≡◌, ◌≤◌, true, false, Some, Err, IsSome};
ghost use Rattle.std.specs.Prelude.{IsNone, IfSome, IfNone, is_some, IsSomeAnd, IsOk, IfOk, IfErr, length, slice_get};
ghost use Rattle.zone_model.specs.Keys.{most_item_octets};
ghost use Rattle.qp_multi.specs.Passes.{IsHere, known_at};
ghost use Rattle.std.specs.Option.{ForSome};
ghost use Rattle.std.proofs.Props.{props};
ghost use Rattle.qp_multi.specs.Bounds.{HasRoom};

use crate::change::TrieChange;
use crate::commit::Receipt;
use crate::index::{Index, Turn};
use crate::kept::Versions;
use crate::kind::{Compaction, Heavy, Kind, Light};
use crate::lock::HeldLock;
use crate::meaning::{Law, Meaning, Named, Operations, Version};
use crate::pass::Pass;
use crate::refusal::{ChangeRefusal, InsertRefusal, OutOfSpace};
use crate::writer::{WorkingVersion, WriterAtRest};
use chunk_usage::Shortage;
use pin_core::Spent;
use shared_cells::{PassSeat, Shared};
use shift_key::Key;
use std::marker::PhantomData;
use std::sync::Wait;
use trie_write::NotDone;

/// Where a transaction keeps the lock and its working set: a local of the caller, which outlives the transaction. Where the transaction
/// was forgotten, dropping this rolls it back.
pub struct WriteGuard<'i, L: Law, N: Named> {
    lock: Option<HeldLock<'i, N>>,
    pub(crate) place: u32,
    pub(crate) shared: &'i Shared<Version, Operations, Meaning<L>>,
    /// It is away while a call works on it, and between transactions.
    pub(crate) working: Option<WorkingVersion>,
    ghost named: { slice_get N.tables place ≡ Some shared.now.table.shared.table_id },
    ghost here: { ForSome working (λ d. d.seat.place.table_id ≡ shared.now.table.shared.table_id) },
    ghost room: { ForSome working HasRoom } by { Prim.hlevel props },
    ghost both: { is_some lock ≡ is_some working },
}

/// Gives the turn back with the writer at rest, and lets the lock go.
fn leave<N: Named>(lock: HeldLock<'_, N>, place: u32, writer: WriterAtRest)
    requires { slice_get N.tables place ≡ Some writer.seat.place.table_id }
{
    let turn = Turn {
        place,
        writer,
        names: PhantomData,
    };
    let _there = lock.put_back(turn);
}

impl<L: Law, N: Named> Drop for WriteGuard<'_, L, N> {
    fn drop(self) {
        let Self {
            lock,
            place,
            shared,
            working,
        } = self;
        let Some(lock) = lock else {
            return;
        };
        let Some(working) = working else {
            // The lock is held by a transaction, which has a working version.
            unreachable!()
        };
        let (writer, _seat) = working.undo(shared);
        leave(lock, place, writer);
    }
}

/// A transaction on the current version, its base. Until it commits, what it writes is seen by nobody else. Dropping it rolls
/// it back.
pub struct Transaction<'t, 'i, L: Law, N: Named, K> {
    pub(crate) home: &'t mut Pass<N>,
    pub(crate) locked: &'t mut WriteGuard<'i, L, N>,
    kind: PhantomData<K>,
}

pub type Write<'t, 'i, L, N> = Transaction<'t, 'i, L, N, Light>;

pub type Update<'t, 'i, L, N> = Transaction<'t, 'i, L, N, Heavy>;

impl<'i, L: Law, N: Named> WriteGuard<'i, L, N> {
    ghost use Rattle.qp_multi.specs.Attempts.{DoesChange, FindsNoRoom};
    ghost use Rattle.qp_multi.specs.Changes.{LeadsItem};
    ghost use Rattle.trie_read.specs.Readings.{Fetched};
    ghost use Rattle.qp_multi.specs.WorkingVersions.{Works, IsSame, Between, working_set};
    ghost use Rattle.qp_multi.specs.Fulls.{full_with};
    ghost use Rattle.qp_multi.specs.Keepings.{versions_in};
    ghost use Rattle.qp_multi.specs.declared.kept.Versions.{Versions as Kept};
    ghost use Rattle.chunk_usage.specs.Keeping.{kept_versions};

    /// For transactions of an index, none of which has the lock by it yet.
    pub fn of(index: &'i Index<L, N>) -> Self
        ensures place { result.place ≡ index.now.place }
        ensures none { IsNone result.working }
    {
        WriteGuard {
            lock: None,
            place: index.place,
            shared: &index.shared,
            working: None,
        }
    }

    // The lock and the working set, where there is a transaction.
    fn take(&mut self) -> Option<(HeldLock<'i, N>, WorkingVersion)>
        ensures place { self.new.place ≡ self.old.place }
        ensures some { IfSome result (λ held. self.old.working ≡ Some held.1) }
        ensures none { IfNone result (IsNone self.old.working) }
        ensures gone { IsNone self.new.working }
    {
        let working = self.working.take()?;
        let Some(lock) = self.lock.take() else {
            // Where there is a working set, the lock is held.
            unreachable!()
        };
        Some((lock, working))
    }

    // The pass of this seat, in its place.
    fn pass_of(&self, seat: PassSeat<Version, Operations>) -> Pass<N>
        requires { seat.place.table_id ≡ self.now.shared.now.table.shared.table_id }
        ensures place { result.place ≡ self.now.place }
        ensures here { IsSome result.seat }
        ensures known { known_at result.seat ≡ seat.place.me.0 }
    {
        Pass {
            place: self.place,
            seat: Some(seat),
            names: PhantomData,
        }
    }

    // Does an operation on the working set.
    fn change(&mut self, change: &TrieChange<'_>) -> Result<(), NotDone>
        requires works { IsSomeAnd self.old.working Works }
        requires leads { LeadsItem change.now }
        ensures place { self.new.place ≡ self.old.place }
        ensures does { Between (DoesChange change.now (IsOk result) (result ≡ Err NotDone.Refused)) self.old.working self.new.working }
        ensures full { (f : _) → result ≡ Err (NotDone.Full f) → Between (λ d e. HasRoom d × FindsNoRoom change.now d e f) self.old.working self.new.working }
    {
        let Some(working) = self.working.take() else {
            // A transaction's working version is there between two calls.
            unreachable!()
        };
        let (working, outcome) = working.change(self.shared, change);
        self.working = Some(working);
        outcome
    }

    // The versions that are kept.
    fn kept(&self) -> Versions
        requires { IsSome self.now.working }
        ensures { IfSome self.now.working (λ d. versions_in result ≡ kept_versions d.usage) }
    {
        match &self.working {
            Some(working) => Versions::of(&working.usage),
            // A transaction's working version is there between two calls.
            None => unreachable!(),
        }
    }

    // Why there is no room, with the versions that are kept.
    fn full(&self, shortage: Shortage) -> OutOfSpace
        requires { IsSome self.now.working }
        ensures { (kept : Kept) × IfSome self.now.working (λ d. versions_in kept ≡ kept_versions d.usage) × (result ≡ full_with shortage kept) }
    {
        OutOfSpace {
            shortage,
            kept: self.kept(),
        }
    }

    // Reads an item of the working set.
    fn fetch(&mut self, key: &Key, out: &mut [u8]) -> Option<usize>
        requires works { IsSomeAnd self.old.working Works }
        requires room { most_item_octets ≤ length out.old }
        ensures place { self.new.place ≡ self.old.place }
        ensures same { Between IsSame self.old.working self.new.working }
        ensures item { IfSome self.old.working (λ d. Fetched key.now (working_set d) out.old out.new result) }
    {
        let Some(working) = self.working.take() else {
            // A transaction's working version is there between two calls.
            unreachable!()
        };
        let (working, found) = working.fetch(self.shared, key, out);
        self.working = Some(working);
        found
    }
}

impl<L: Law, N: Named> Index<L, N> {
    ghost use Rattle.qp_multi.specs.Bases.{CommitsAreWithin};
    ghost use Rattle.qp_multi.specs.Calls.{BeginsAs, Joins};
    ghost use Rattle.qp_multi.specs.Capacity.{RestsRoomy};
    ghost use Rattle.qp_multi.specs.WorkingVersions.{Begins};
    ghost use Rattle.qp_multi.specs.Turns.{AtRest};

    // The lock, and the turn out of it.
    fn wait<'i, R: Wait>(&'i self, rt: &R) -> (HeldLock<'i, N>, WriterAtRest)
        ensures table { slice_get N.tables self.now.place ≡ Some result.1.seat.place.table_id }
        ensures passes { result.1.seat.passes ≡ self.now.passes }
    {
        for _ in rt.forever() {
            if let Some((lock, turn)) = HeldLock::take(self.turn.lock(rt)) {
                let Turn {
                    place,
                    writer,
                    names,
                } = turn;
                if place == self.place && writer.seat.passes == self.passes {
                    return (lock, writer);
                }
                let _there = lock.put_back(Turn {
                    place,
                    writer,
                    names,
                });
            }
        }
        // The loop has no end but that return.
        unreachable!()
    }

    // Waits for the turn, and joins the pass to it. The pass is then away.
    fn join<'i, R: Wait>(&'i self, rt: &R, pass: &mut Pass<N>) -> (HeldLock<'i, N>, WorkingVersion)
        requires { IsHere self.now.place pass.old }
        ensures joins { Joins L.lawful self.now.shared.table.shared.table_id self.now.shared.table.shared.key (known_at pass.old.seat) result.1 }
        ensures few_operations { CommitsAreWithin L.most_operations result.1.seat.place.me.0 }
        ensures at_rest { AtRest result.1.usage }
        ensures rests { RestsRoomy result.1.usage result.1.seat.place.me.0.seen }
    {
        let Some(seat) = pass.seat.take() else {
            // No query and no transaction of this pass has its seat.
            unreachable!()
        };
        let (lock, writer) = self.wait(rt);
        (lock, writer.begin(&self.shared, seat))
    }

    /// Waits for the turn, and begins a transaction of a kind.
    pub fn begin<'t, 'i, K: Kind, R: Wait>(
        &'i self,
        rt: &R,
        locked: &'t mut WriteGuard<'i, L, N>,
        pass: &'t mut Pass<N>,
    ) -> Transaction<'t, 'i, L, N, K>
        requires { IsHere self.now.place pass.old }
        ensures same_reference { result.home.ghost_name ≡ pass.entry.ghost_name }
        ensures place { result.locked.now.place ≡ self.now.place }
        ensures begins { IsSomeAnd result.locked.now.working (Begins L.lawful (known_at pass.old.seat)) }
        ensures kind { IsSomeAnd result.locked.now.working (BeginsAs K.OWN_CHUNK self.now.shared.table.shared.key L.most_operations) }
    {
        let (lock, working) = self.join(rt, pass);
        *locked = WriteGuard {
            lock: Some(lock),
            place: self.place,
            shared: &self.shared,
            working: Some(working.start::<K>()),
        };
        Transaction {
            home: pass,
            locked,
            kind: PhantomData,
        }
    }

    /// Waits for the turn, and begins a light transaction.
    pub fn write<'t, 'i, R: Wait>(
        &'i self,
        rt: &R,
        locked: &'t mut WriteGuard<'i, L, N>,
        pass: &'t mut Pass<N>,
    ) -> Write<'t, 'i, L, N>
        requires { IsHere self.now.place pass.old }
        ensures same_reference { result.home.ghost_name ≡ pass.entry.ghost_name }
        ensures place { result.locked.now.place ≡ self.now.place }
        ensures begins { IsSomeAnd result.locked.now.working (Begins L.lawful (known_at pass.old.seat)) }
        ensures kind { IsSomeAnd result.locked.now.working (BeginsAs false self.now.shared.table.shared.key L.most_operations) }
    {
        self.begin::<Light, R>(rt, locked, pass)
    }

    /// Waits for the turn, and begins a heavy transaction.
    pub fn update<'t, 'i, R: Wait>(
        &'i self,
        rt: &R,
        locked: &'t mut WriteGuard<'i, L, N>,
        pass: &'t mut Pass<N>,
    ) -> Update<'t, 'i, L, N>
        requires { IsHere self.now.place pass.old }
        ensures same_reference { result.home.ghost_name ≡ pass.entry.ghost_name }
        ensures place { result.locked.now.place ≡ self.now.place }
        ensures begins { IsSomeAnd result.locked.now.working (Begins L.lawful (known_at pass.old.seat)) }
        ensures kind { IsSomeAnd result.locked.now.working (BeginsAs true self.now.shared.table.shared.key L.most_operations) }
    {
        self.begin::<Heavy, R>(rt, locked, pass)
    }
}

impl<L: Law, N: Named> Index<L, N> {
    ghost use Rattle.qp_multi.specs.Compactions.{Compacts, IsLast};

    /// Waits for the turn, and makes the next version of the entries that the current one has. What it has in sparse chunks is moved to
    /// others first. Where there is no next version, the current one stays.
    pub fn compact<R: Wait>(&self, rt: &R, pass: &mut Pass<N>) -> Result<Receipt, Spent>
        requires { IsHere self.now.place pass.old }
        ensures home { IsHere pass.old.place pass.new }
        ensures compacts { IfOk result (Compacts L.lawful self.now.shared.table.shared.table_id self.now.shared.table.shared.key.passes
            (known_at pass.old.seat) (known_at pass.new.seat)) }
        ensures back { IfErr result (IsLast L.lawful (known_at pass.old.seat) (known_at pass.new.seat)) }
    {
        let mut locked = WriteGuard::of(self);
        let transaction = self.begin::<Compaction, R>(rt, &mut locked, pass);
        transaction.commit()
    }
}

impl<L: Law, N: Named, K> Drop for Transaction<'_, '_, L, N, K> {
    ghost use Rattle.qp_multi.specs.WorkingVersions.{IsBack};

    fn drop(self)
        ensures back { IfSome self.entry.locked.now.working (λ d. IsBack d.seat.place.me.0 self.exit.0.now.seat) }
        ensures place { IfSome self.entry.locked.now.working (λ _. self.exit.0.now.place ≡ self.entry.locked.now.place) }
    {
        let Self {
            home,
            locked,
            kind: _,
        } = self;
        if let Some((lock, working)) = locked.take() {
            let (writer, seat) = working.undo(locked.shared);
            leave(lock, locked.place, writer);
            *home = locked.pass_of(seat);
        }
    }
}

impl<L: Law, N: Named, K> Transaction<'_, '_, L, N, K> {
    ghost use Rattle.chunk_usage.specs.Keeping.{kept_versions};
    ghost use Rattle.qp_multi.specs.Keepings.{versions_in};

    /// The base's number.
    pub fn version(&self) -> u64
        requires { IsSome self.now.locked.now.working }
        ensures { IfSome self.now.locked.now.working (λ d. result ≡ length d.seat.place.me.0.seen.history) }
    {
        match &self.locked.working {
            Some(working) => working.seat.version,
            // A transaction's working version is there between two calls.
            None => unreachable!(),
        }
    }

    /// The versions that are kept, as the last round found them.
    pub fn kept(&self) -> Versions
        requires { IsSome self.now.locked.now.working }
        ensures { IfSome self.now.locked.now.working (λ d. versions_in result ≡ kept_versions d.usage) }
    {
        self.locked.kept()
    }
}

impl<L: Law, N: Named, K> Transaction<'_, '_, L, N, K> {
    ghost use Rattle.zone_model.specs.Keys.{Leads};
    ghost use Rattle.qp_multi.specs.Calls.{Deletes, Inserts, IsOfSame, IsOutOfRoom, IsOutOfRoomToPut, OnWorkings, Replaces};
    ghost use Rattle.qp_multi.specs.WorkingVersions.{Works, IsSame, working_set};
    ghost use Rattle.trie_read.specs.Readings.{Fetched};
    ghost use Rattle.trie_write.specs.Paths.{insert_asks, replace_asks, delete_asks};

    /// Reads the item of a key of the working set into the beginning of `out`, and gives its length; `None` where the key is not
    /// there.
    pub fn fetch(&mut self, key: &Key, out: &mut [u8]) -> Option<usize>
        requires works { IsSomeAnd self.old.locked.now.working Works }
        requires room { most_item_octets ≤ length out.old }
        ensures of_same { IsOfSame self.old self.new }
        ensures same { OnWorkings IsSame self.old self.new }
        ensures item { IfSome self.old.locked.now.working (λ d. Fetched key.now (working_set d) out.old out.new result) }
    {
        self.locked.fetch(key, out)
    }

    /// Puts a name in. The item begins with the name's wire form. After a refusal the working set is as before.
    pub fn insert(&mut self, key: &Key, item: &[u8]) -> Result<(), InsertRefusal>
        requires works { IsSomeAnd self.old.locked.now.working Works }
        requires leads { Leads key.now item.now }
        ensures of_same { IsOfSame self.old self.new }
        ensures inserts { OnWorkings (Inserts key.now item.now (IsOk result) (result ≡ Err InsertRefusal.Exists)) self.old self.new }
        // It comes neither where the table has room for what was published and done, nor where few small versions are kept.
        ensures full { (f : _) → result ≡ Err (InsertRefusal.Full f) → OnWorkings (IsOutOfRoomToPut key.now item.now insert_asks f) self.old self.new }
    {
        match self.locked.change(&TrieChange::Insert(key, item)) {
            Ok(()) => Ok(()),
            Err(NotDone::Refused) => Err(InsertRefusal::Exists),
            Err(NotDone::Full(full)) => Err(InsertRefusal::Full(self.locked.full(full))),
        }
    }

    /// Exchanges a name's item. The item begins with the name's wire form. After a refusal the working set is as before.
    pub fn replace(&mut self, key: &Key, item: &[u8]) -> Result<(), ChangeRefusal>
        requires works { IsSomeAnd self.old.locked.now.working Works }
        requires leads { Leads key.now item.now }
        ensures of_same { IsOfSame self.old self.new }
        ensures replaces { OnWorkings (Replaces key.now item.now (IsOk result) (result ≡ Err ChangeRefusal.NotFound)) self.old self.new }
        // It comes neither where the table has room for what was published and done, nor where few small versions are kept.
        ensures full { (f : _) → result ≡ Err (ChangeRefusal.Full f) → OnWorkings (IsOutOfRoomToPut key.now item.now replace_asks f) self.old self.new }
    {
        match self.locked.change(&TrieChange::Replace(key, item)) {
            Ok(()) => Ok(()),
            Err(NotDone::Refused) => Err(ChangeRefusal::NotFound),
            Err(NotDone::Full(full)) => Err(ChangeRefusal::Full(self.locked.full(full))),
        }
    }

    /// Takes a name out. After a refusal the working set is as before.
    pub fn delete(&mut self, key: &Key) -> Result<(), ChangeRefusal>
        requires { IsSomeAnd self.old.locked.now.working Works }
        ensures of_same { IsOfSame self.old self.new }
        ensures deletes { OnWorkings (Deletes key.now (IsOk result) (result ≡ Err ChangeRefusal.NotFound)) self.old self.new }
        // It comes neither where the table has room for what was published and done, nor where few small versions are kept.
        ensures full { (f : _) → result ≡ Err (ChangeRefusal.Full f) → OnWorkings (IsOutOfRoom key.now 1 delete_asks f) self.old self.new }
    {
        match self.locked.change(&TrieChange::Delete(key)) {
            Ok(()) => Ok(()),
            Err(NotDone::Refused) => Err(ChangeRefusal::NotFound),
            Err(NotDone::Full(full)) => Err(ChangeRefusal::Full(self.locked.full(full))),
        }
    }
}

impl<L: Law, N: Named, K: Kind> Transaction<'_, '_, L, N, K> {
    ghost use Rattle.qp_multi.specs.Calls.{CommitsOrStays};
    ghost use Rattle.qp_multi.specs.WorkingVersions.{Works, working_set};
    ghost use Rattle.qp_multi.specs.Operations.{AreWithin};
    ghost use Rattle.qp_multi.specs.Passes.{first_version};

    /// Makes the working set the next version; where there is none, the base stays. What the working set has in sparse chunks is moved
    /// first: by a heavy transaction always, by a light one where more than 8 chunks are sparse.
    pub fn commit(self) -> Result<Receipt, Spent>
        requires works { IsSomeAnd self.locked.now.working Works }
        requires lawful { IsSomeAnd self.locked.now.working (λ d. L.lawful (first_version d.seat.place.me.0.seen) (working_set d)) }
        requires few_operations { ForSome self.locked.now.working (λ d. AreWithin L.most_operations d.log.operations) }
        ensures home { IsHere self.entry.locked.now.place self.exit.0.now }
        ensures ends { IfSome self.entry.locked.now.working (CommitsOrStays K.MOST_SPARSE self.exit.0.now.seat result) }
    {
        let Self {
            home,
            locked,
            kind: _,
        } = self;
        let Some((lock, working)) = locked.take() else {
            // A transaction's working version is there between two calls.
            unreachable!()
        };
        let (writer, seat, outcome) = working.commit(locked.shared, K::MOST_SPARSE);
        leave(lock, locked.place, writer);
        *home = locked.pass_of(seat);
        outcome
    }
}

impl<L: Law, N: Named> Transaction<'_, '_, L, N, Heavy> {
    ghost use Rattle.qp_multi.specs.WorkingVersions.{IsBack};

    /// Goes back to the base. No version is made.
    pub fn rollback(self)
        ensures back { IfSome self.entry.locked.now.working (λ d. IsBack d.seat.place.me.0 self.exit.0.now.seat) }
        ensures place { IfSome self.entry.locked.now.working (λ _. self.exit.0.now.place ≡ self.entry.locked.now.place) }
    {
        drop(self);
    }
}
