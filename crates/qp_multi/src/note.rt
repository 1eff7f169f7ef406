//! Notes: what one pass has seen is told to another.
ghost use Rattle.std.specs.Prelude.{◌≡◌, Some, slice_get};
ghost use Rattle.qp_multi.specs.Passes.{known_at, IsHere, Learnt};

use crate::index::Index;
use crate::meaning::{Law, Named, Operations, Version};
use crate::pass::Pass;
use shared_cells::SeatNote;
use std::marker::PhantomData;

/// What a pass had seen, for another to learn. It may go to another thread.
#[derive(Drop)]
pub struct Note<N: Named> {
    pub(crate) place: u32,
    pub(crate) told: SeatNote<Version, Operations>,
    pub(crate) names: PhantomData<N>,
    ghost here: { slice_get N.tables place ≡ Some told.place.table_id },
}

impl<N: Named> Note<N> {
    /// The place of its index among those that are named.
    pub fn place(&self) -> u32
        ensures { result ≡ self.now.place }
    {
        self.place
    }
}

impl<N: Named> Pass<N> {
    /// A note of what this pass has seen.
    pub fn note<L: Law>(&mut self, index: &Index<L, N>) -> Note<N>
        requires { IsHere index.now.place self.old }
        ensures back { IsHere self.old.place self.new }
        ensures place { result.place ≡ self.old.place }
        ensures same { known_at self.new.seat ≡ known_at self.old.seat }
        ensures told { result.told.place.me.0.seen ≡ (known_at self.old.seat).seen }
    {
        let Some(mut seat) = self.seat.take() else {
            // No query and no transaction of this pass has its seat.
            unreachable!()
        };
        let told = seat.note(&index.shared);
        self.seat = Some(seat);
        Note {
            place: self.place,
            told,
            names: PhantomData,
        }
    }

    /// Learns what the note tells. From then on the pass sees no less.
    pub fn learn<L: Law>(&mut self, index: &Index<L, N>, note: Note<N>)
        requires pass { IsHere index.now.place self.old }
        requires note { note.place ≡ index.now.place }
        ensures back { IsHere self.old.place self.new }
        ensures learnt { Learnt (known_at self.old.seat) (known_at self.new.seat) note.told.place.me.0.seen }
    {
        let Some(mut seat) = self.seat.take() else {
            // No query and no transaction of this pass has its seat.
            unreachable!()
        };
        let Note { told, .. } = note;
        seat.learn(&index.shared, told);
        self.seat = Some(seat);
    }
}
