//! A transaction's operations: each is tried, and once more where there is no room, after rounds and an evacuation.
//!
//! What the trie's crate says of its three calls is said here of one, `change_trie`; nothing else in this crate names them.
ghost use Rattle.std.specs.Prelude.{◌≡◌, ◌↔◌, ◌⊎◌, ◌∷◌, ◌++◌, [], ℕ, List, Err, IsOk, IfOk, IfErr, All, Contains};
ghost use Rattle.qp_multi.specs.Prelude.{Entry, Lacks, account_of, StaysAsItWas, Becomes, CanTry, ChangesFew};
ghost use Rattle.qp_multi.specs.Prelude.{IsRooted, kept_versions, kept_in, IsNamed, IsVersion, operation_of, key_of};
ghost use Rattle.qp_multi.specs.Prelude.{asked_by, IsRefused, Tried};

use crate::freeing::free_unreached;
use crate::keeping::make_round;
use crate::meaning::{Law, Meaning, Operations, Version};
use crate::writer::WorkingVersion;
use chunk_cells::CellWrite;
use chunk_usage::Usage;
use packed_node::Ref;
use shared_cells::{Lent, Shared};
use shift_key::Key;
use std::marker::Brand;
use trie_write::{NotDone, delete, insert, replace};

/// An operation of a transaction, with what its call was given.
#[derive(Clone, Copy, Drop)]
pub enum TrieChange<'a> {
    Insert(&'a Key, &'a [u8]),
    Replace(&'a Key, &'a [u8]),
    Delete(&'a Key),
}

/// The root of the trie with an operation done. Where it is not, the root stands as before.
pub(crate) fn change_trie<C: CellWrite>(
    cells: &mut C,
    usage: &mut Usage,
    root: Option<Ref>,
    change: &TrieChange<'_>,
) -> Result<Option<Ref>, NotDone>
    requires { CanTry C.has C.kept C.given cells.old usage.old root change.now }
    ensures done { IfOk result (Becomes C.has cells.old usage.old cells.new usage.new root change.now) }
    ensures refused { (es : List Entry) → IsRooted (C.has cells.old) usage.old root es → (result ≡ Err NotDone.Refused) ↔ IsRefused change.now es }
    ensures stays { IfErr result (StaysAsItWas C.has account_of Lacks cells.old usage.old cells.new usage.new root (key_of change.now) (asked_by change.now)) }
    ensures changes { ChangesFew C.has C.kept C.given cells.old usage.old cells.new usage.new root change.now }
{
    match *change {
        TrieChange::Insert(key, item) => insert(cells, usage, root, key, item),
        TrieChange::Replace(key, item) => replace(cells, usage, root, key, item),
        TrieChange::Delete(key) => delete(cells, usage, root, key),
    }
}

impl WorkingVersion {
    ghost use Rattle.qp_multi.specs.Bounds.{HasRoom};
    ghost use Rattle.chunk_usage.specs.Ledger.{IsLedger};
    ghost use Rattle.qp_multi.specs.Attempts.{CanOperate, Does, FindsNoRoom, IsFullAtLast, IsLeft, IsUndone, IsWorkingOf, TakesFree, TriesAtLast};
    ghost use Rattle.qp_multi.specs.Clearings.{IsSameSet};
    ghost use Rattle.qp_multi.specs.WorkingVersions.{Operates};
    ghost use Rattle.qp_multi.specs.Fulls.{version_at};
    ghost use Rattle.qp_multi.specs.Rooms.{FreesRoom};

    // The operation is done: its trie has this root.
    fn with_done(self, root: Option<Ref>, change: &TrieChange<'_>) -> WorkingVersion
        ensures seat { result.seat ≡ self.seat }
        ensures usage { result.usage ≡ self.usage }
        ensures root { result.root ≡ root }
        ensures log { result.log.operations ≡ self.log.operations ++ operation_of change.now ∷ [] }
    {
        let mut working = self;
        working.root = root;
        working.log = working.log.then(change);
        working
    }

    // Tries an operation on the trie, in cells whose seat is named. What was done so far stays.
    fn try_once<L: Law, B: Lent<Version, Operations>>(
        self,
        shared: &Shared<Version, Operations, Meaning<L>>,
        change: &TrieChange<'_>,
    ) -> (WorkingVersion, Result<Option<Ref>, NotDone>)
        requires can { CanOperate shared.now.table.shared.table_id change.now self }
        requires lent { (self.seat.place.table_id ≡ B.table) × (self.seat.place.me.0 ≡ B.view) }
        ensures left { IsLeft self result.0 }
        ensures tried { Tried change.now self.root self.seat.place.me.0 self.usage result.0.seat.place.me.0 result.0.usage result.1 }
        ensures ledger { IsLedger result.0.usage }
    {
        let WorkingVersion {
            seat,
            mut usage,
            base,
            root,
            log,
        } = self;
        let mut cells = seat.lend::<Meaning<L>, B>(shared);
        let outcome = change_trie(&mut cells, &mut usage, root, change);
        usage.known(); // for the proof
        let working = WorkingVersion {
            seat: cells.into_joined(),
            usage,
            base,
            root,
            log,
        };
        (working, outcome)
    }

    // Tries an operation once. Where it is done, it is logged.
    fn attempt<L: Law>(
        self,
        shared: &Shared<Version, Operations, Meaning<L>>,
        change: &TrieChange<'_>,
    ) -> (WorkingVersion, Result<(), NotDone>)
        requires { CanOperate shared.now.table.shared.table_id change.now self }
        ensures operates { Operates (operation_of change.now) (IsRefused change.now) self result.0 (IsOk result.1) (result.1 ≡ Err NotDone.Refused) }
        ensures takes { TakesFree self result.0 }
        ensures undone { IfErr result.1 (IsUndone change.now self result.0) }
    {
        let (working, outcome) = self.try_once::<L, Brand>(shared, change);
        match outcome {
            Ok(new) => (working.with_done(new, change), Ok(())),
            Err(refusal) => (working, Err(refusal)),
        }
    }

    // Makes a round, and frees what nothing needs.
    fn make_room<L: Law>(self, shared: &Shared<Version, Operations, Meaning<L>>) -> WorkingVersion
        requires { IsWorkingOf shared.now.table.shared.table_id self }
        ensures same { IsSameSet self result }
        ensures frees { FreesRoom self result }
        ensures named { (v : ℕ) → Contains (kept_versions result.usage) v → (v ≡ result.seat.version) ⊎ IsNamed result.seat.place.me.0 v }
        ensures images { All (λ k. IsVersion k.image k.root (version_at result.seat.place.me.0 k.version)) (kept_in result.seat.place.me.0.turn) }
    {
        let WorkingVersion {
            mut seat,
            mut usage,
            base,
            root,
            log,
        } = self;
        make_round(shared, &mut seat, &mut usage);
        let (seat, _) = free_unreached::<L, Brand>(shared, seat, &mut usage);
        WorkingVersion {
            seat,
            usage,
            base,
            root,
            log,
        }
    }

    // Makes room, moves what lies in sparse chunks, for which the reserve is there, and makes room again; then it tries the operation.
    // The first round frees chunks that the evacuation can move into, the second those that it emptied. Readers may leave at any time, so each
    // round asks anew, and what a refusal tells is of the last one.
    fn change_at_last<L: Law>(
        self,
        shared: &Shared<Version, Operations, Meaning<L>>,
        change: &TrieChange<'_>,
    ) -> (WorkingVersion, Result<(), NotDone>)
        requires { CanOperate shared.now.table.shared.table_id change.now self }
        ensures operates { Operates (operation_of change.now) (IsRefused change.now) self result.0 (IsOk result.1) (result.1 ≡ Err NotDone.Refused) }
        ensures tries { TriesAtLast self result.0 }
        ensures full { (f : _) → result.1 ≡ Err (NotDone.Full f) → IsFullAtLast change.now self result.0 f }
    {
        let room = self.make_room(shared);
        let (emptied, _done) = room.evacuate::<L, Brand>(shared);
        let left = emptied.make_room(shared);
        left.attempt(shared, change)
    }

    /// Does an operation on the working set. Where there is no room it makes a round, frees what nothing needs, moves what lies in
    /// sparse chunks, makes a round and frees again, and tries once more. After a refusal the working set is as before.
    pub(crate) fn change<L: Law>(
        self,
        shared: &Shared<Version, Operations, Meaning<L>>,
        change: &TrieChange<'_>,
    ) -> (WorkingVersion, Result<(), NotDone>)
        requires { CanOperate shared.now.table.shared.table_id change.now self }
        ensures table { result.0.seat.place.table_id ≡ self.seat.place.table_id }
        ensures does { Does (operation_of change.now) (IsRefused change.now) self result.0 (IsOk result.1) (result.1 ≡ Err NotDone.Refused) }
        ensures room { HasRoom self → HasRoom result.0 }
        ensures full { (f : _) → result.1 ≡ Err (NotDone.Full f) → FindsNoRoom change.now self result.0 f }
    {
        let (working, outcome) = self.attempt(shared, change);
        match outcome {
            Err(NotDone::Full(_)) => working.change_at_last(shared, change),
            outcome => (working, outcome),
        }
    }
}
