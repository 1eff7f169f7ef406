//! Snapshots: a version that is held for as long as wanted.
ghost use Rattle.std.specs.Prelude.{◌≡◌, List, Some, IsSome, slice_get};
ghost use Rattle.trie_model.specs.Keys.{Entry};
ghost use Rattle.shared_cells.specs.declared.pass.PassSeat.{PassSeat};
ghost use Rattle.shared_cells.specs.declared.view.Progress.TheVariants as progress;
ghost use Rattle.shared_cells.specs.Views.{with_progress, pinned_image};
ghost use Rattle.qp_multi.specs.Passes.{known_at, IsHere, Pinned};
ghost use Rattle.qp_multi.specs.Readings.{Reads};
ghost use Rattle.qp_multi.specs.declared.meaning.Operation.{Operation};

use crate::index::Index;
use crate::meaning::{Law, Meaning, Named, Operations, Version};
use crate::note::Note;
use crate::pass::Pass;
use crate::pinned::fetch_pinned;
use chunk_cells::CellRead;
use packed_node::{Cell, Ref};
use shared_cells::{PinnedCells, PinnedSeat, Shared};
use shift_key::Key;
use std::marker::PhantomData;
use trie_read::Rooted;

/// A published version with the pass that holds it. It doesn't change, and may go to another thread.
///
/// One that is dropped gives up its pass: the version is held no more, and the index has a pass less.
pub struct Snapshot<'i, L: Law, N: Named> {
    pub(crate) seat: PinnedSeat<Version, Operations>,
    pub(crate) place: u32,
    pub(crate) shared: &'i Shared<Version, Operations, Meaning<L>>,
    names: PhantomData<N>,
    ghost here: { seat.place.table_id ≡ shared.now.table.shared.table_id },
    ghost named: { slice_get N.tables place ≡ Some seat.place.table_id },
}

impl<N: Named> Pass<N> {
    /// Holds the version that is current at some moment of the call: no older than what the pass had seen.
    pub fn hold<'i, L: Law>(self, index: &'i Index<L, N>) -> Snapshot<'i, L, N>
        requires { IsHere index.now.place self }
        ensures place { result.place ≡ self.place }
        ensures pinned { Pinned L.lawful (known_at self.seat) result.seat.place.me.0 result.seat.version }
        ensures reads { Reads L.most_operations result.seat.place.me.0 result.seat.root }
    {
        let Pass { place, seat, .. } = self;
        let Some(seat) = seat else {
            // No query and no transaction of this pass has its seat.
            unreachable!()
        };
        let shared = &index.shared;
        let seat = seat.pin(shared);
        Snapshot {
            seat,
            place,
            shared,
            names: PhantomData,
        }
    }
}

impl<L: Law, N: Named> Snapshot<'_, L, N> {
    /// The pass is idle again.
    pub fn release(self) -> Pass<N>
        ensures here { IsSome result.seat }
        ensures place { result.place ≡ self.entry.place }
        ensures left { known_at result.seat ≡ with_progress self.entry.seat.place.me.0 progress.Idle }
    {
        let Self {
            seat,
            place,
            shared,
            names,
        } = self;
        Pass {
            place,
            seat: Some(seat.unpin(shared)),
            names,
        }
    }

    /// A note of what the pass of this snapshot has seen, its version among it.
    pub fn note(&mut self, index: &Index<L, N>) -> Note<N>
        requires { self.old.place ≡ index.now.place }
        ensures place { (self.new.place ≡ self.old.place) × (result.place ≡ self.old.place) }
        ensures same { self.new.seat.place.me.0 ≡ self.old.seat.place.me.0 }
        ensures told { result.told.place.me.0.seen ≡ self.old.seat.place.me.0.seen }
    {
        let told = self.seat.note(&index.shared);
        Note {
            place: self.place,
            told,
            names: PhantomData,
        }
    }
}

impl<L: Law, N: Named> Drop for Snapshot<'_, L, N> {
    // The pass's seat is idle again.
    fn drop(self)
        ensures left { (idle : PassSeat (List Entry) (List Operation)) × (idle.place.table_id ≡ self.entry.seat.place.table_id)
            × (idle.place.me.0 ≡ with_progress self.entry.seat.place.me.0 progress.Idle) }
    {
        let Self {
            seat,
            place: _,
            shared,
            names: _,
        } = self;
        let _idle = seat.unpin(shared);
    }
}

/// A cell is two loads. No cell of the version is written while it is pinned.
impl<L: Law, N: Named> CellRead for Snapshot<'_, L, N> {
    ghost use Rattle.qp_multi.specs.Meanings.{in_image};

    ghost has = { λ s. in_image (pinned_image s.seat.place.me.0.progress) };

    fn cell(&mut self, at: Ref) -> Cell {
        let shared = self.shared;
        PinnedCells::new(shared, &mut self.seat).cell(at)
    }
}

impl<L: Law, N: Named> Rooted for Snapshot<'_, L, N> {
    ghost root = { λ s. s.seat.root };

    ghost number = { λ s. s.seat.version };

    fn root(&mut self) -> Option<Ref> {
        self.seat.root
    }

    fn number(&mut self) -> u64 {
        self.seat.version
    }

    fn fetch_item(&mut self, key: &Key, out: &mut [u8]) -> Option<usize> {
        fetch_pinned(self.shared, &mut self.seat, key, out)
    }
}
