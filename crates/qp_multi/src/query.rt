//! A query: one version, read while others write.
ghost use Rattle.std.specs.Prelude.{◌≡◌, Some, IsSome, slice_get};
ghost use Rattle.shared_cells.specs.declared.view.Progress.TheVariants as progress;
ghost use Rattle.shared_cells.specs.Views.{with_progress, pinned_image};
ghost use Rattle.qp_multi.specs.Passes.{known_at, IsHere, Pinned};
ghost use Rattle.qp_multi.specs.Readings.{Reads};

use crate::index::Index;
use crate::meaning::{Law, Meaning, Named, Operations, Version};
use crate::pass::Pass;
use crate::pinned::fetch_pinned;
use chunk_cells::CellRead;
use packed_node::{Cell, Ref};
use shared_cells::{PinnedCells, PinnedSeat, Shared};
use shift_key::Key;
use std::marker::PhantomData;
use trie_read::Rooted;

/// A published version, to be read by its pass. It doesn't change. Dropping it makes the pass idle.
pub struct Query<'a, L: Law, N: Named> {
    pub(crate) home: &'a mut Pass<N>,
    pub(crate) seat: PinnedSeat<Version, Operations>,
    pub(crate) place: u32,
    pub(crate) shared: &'a Shared<Version, Operations, Meaning<L>>,
    ghost here: { seat.place.table_id ≡ shared.now.table.shared.table_id },
    ghost named: { slice_get N.tables place ≡ Some seat.place.table_id },
}

impl<N: Named> Pass<N> {
    /// Takes the version that is current at some moment of the call: no older than what the pass had seen.
    pub fn query<'a, L: Law>(&'a mut self, index: &'a Index<L, N>) -> Query<'a, L, N>
        requires { IsHere index.now.place self.old }
        ensures same_reference { result.home.ghost_name ≡ self.entry.ghost_name }
        ensures place { result.place ≡ self.old.place }
        ensures pinned { Pinned L.lawful (known_at self.old.seat) result.seat.place.me.0 result.seat.version }
        ensures reads { Reads L.most_operations result.seat.place.me.0 result.seat.root }
    {
        let Some(seat) = self.seat.take() else {
            // No query and no transaction of this pass has its seat.
            unreachable!()
        };
        let shared = &index.shared;
        let place = self.place;
        let seat = seat.pin(shared);
        Query {
            home: self,
            seat,
            place,
            shared,
        }
    }
}

impl<L: Law, N: Named> Drop for Query<'_, L, N> {
    fn drop(self)
        ensures here { IsSome self.exit.0.now.seat }
        ensures place { self.exit.0.now.place ≡ self.entry.place }
        ensures left { known_at self.exit.0.now.seat ≡ with_progress self.entry.seat.place.me.0 progress.Idle }
    {
        let Self {
            home,
            seat,
            place,
            shared,
        } = self;
        *home = Pass {
            place,
            seat: Some(seat.unpin(shared)),
            names: PhantomData,
        };
    }
}

/// A cell is two loads. No cell of the version is written while it is pinned.
impl<L: Law, N: Named> CellRead for Query<'_, L, N> {
    ghost use Rattle.qp_multi.specs.Meanings.{in_image};

    ghost has = { λ q. in_image (pinned_image q.seat.place.me.0.progress) };

    fn cell(&mut self, at: Ref) -> Cell {
        let shared = self.shared;
        PinnedCells::new(shared, &mut self.seat).cell(at)
    }
}

impl<L: Law, N: Named> Rooted for Query<'_, L, N> {
    ghost root = { λ q. q.seat.root };

    ghost number = { λ q. q.seat.version };

    fn root(&mut self) -> Option<Ref> {
        self.seat.root
    }

    fn number(&mut self) -> u64 {
        self.seat.version
    }

    fn fetch_item(&mut self, key: &Key, out: &mut [u8]) -> Option<usize> {
        fetch_pinned(self.shared, &mut self.seat, key, out)
    }
}
