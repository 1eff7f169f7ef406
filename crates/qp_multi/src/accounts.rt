//! What is known of a pass, at any moment: the commits that were made so far, of which it has seen the first ones, have its own in
//! the order in which it made them, and no others of it.
ghost use Rattle.std.specs.Prelude.{◌≡◌};
ghost use Rattle.shared_cells.specs.Views.{with_note};
ghost use Rattle.qp_multi.specs.Prelude.{known_at, IsAccounted, IsAccountedBeside, IsHere, StaysPinned};

use crate::index::Index;
use crate::meaning::{Law, Meaning, Named, Operations, Version};
use crate::note::Note;
use crate::pass::Pass;
use crate::snapshot::Snapshot;
use shared_cells::{Counted, PassSeat, PinnedSeat, SeatNote, Shared};
use std::marker::Brand;

// A seat looks, which tells what is known of its pass. The number of the index's passes is named.
fn look<L: Law, M: Counted>(
    shared: &Shared<Version, Operations, Meaning<L>>,
    seat: &mut PassSeat<Version, Operations>,
)
    requires table { seat.old.place.table_id ≡ shared.now.table.shared.table_id }
    requires passes { M.passes ≡ shared.now.table.shared.key.passes }
    ensures table { seat.new.place.table_id ≡ seat.old.place.table_id }
    ensures same { seat.new.place.me.0 ≡ seat.old.place.me.0 }
    ensures accounted { IsAccounted M.passes seat.old.place.me.0 }
{
    seat.look::<Meaning<L>, M>(shared);
}

// The same beside a note.
fn look_beside<L: Law, M: Counted>(
    shared: &Shared<Version, Operations, Meaning<L>>,
    seat: &mut PassSeat<Version, Operations>,
    note: SeatNote<Version, Operations>,
)
    requires table { (seat.old.place.table_id ≡ shared.now.table.shared.table_id) × (note.place.table_id ≡ shared.now.table.shared.table_id) }
    requires passes { M.passes ≡ shared.now.table.shared.key.passes }
    ensures table { seat.new.place.table_id ≡ seat.old.place.table_id }
    ensures told { seat.new.place.me.0 ≡ with_note seat.old.place.me.0 note.place.me.0 }
    ensures accounted { IsAccounted M.passes (with_note seat.old.place.me.0 note.place.me.0) }
{
    seat.look_beside::<Meaning<L>, M>(shared, note);
}

// And by a seat that is pinned.
fn look_pinned<L: Law, M: Counted>(
    shared: &Shared<Version, Operations, Meaning<L>>,
    seat: &mut PinnedSeat<Version, Operations>,
    note: SeatNote<Version, Operations>,
)
    requires table { (seat.old.place.table_id ≡ shared.now.table.shared.table_id) × (note.place.table_id ≡ shared.now.table.shared.table_id) }
    requires passes { M.passes ≡ shared.now.table.shared.key.passes }
    ensures pinned { StaysPinned seat.old seat.new }
    ensures told { seat.new.place.me.0 ≡ with_note seat.old.place.me.0 note.place.me.0 }
    ensures accounted { IsAccounted M.passes (with_note seat.old.place.me.0 note.place.me.0) }
{
    seat.look_beside::<Meaning<L>, M>(shared, note);
}

impl<N: Named> Pass<N> {
    /// Tells what is known of this pass at some moment of the call. It takes no memory and waits for nobody. The pass sees no more by it.
    pub fn account<L: Law>(&mut self, index: &Index<L, N>)
        requires { IsHere index.now.place self.old }
        ensures back { IsHere self.old.place self.new }
        ensures same { known_at self.new.seat ≡ known_at self.old.seat }
        ensures accounted { IsAccounted index.now.shared.table.shared.key.passes (known_at self.old.seat) }
    {
        let Some(mut seat) = self.seat.take() else {
            // No query and no transaction of this pass has its seat.
            unreachable!()
        };
        look::<L, Brand>(&index.shared, &mut seat);
        self.seat = Some(seat);
    }

    /// The same of a moment behind the note's: what is known begins with what that tells. The pass doesn't learn it.
    pub fn account_beside<L: Law>(&mut self, index: &Index<L, N>, note: Note<N>)
        requires pass { IsHere index.now.place self.old }
        requires note { note.place ≡ index.now.place }
        ensures back { IsHere self.old.place self.new }
        ensures same { known_at self.new.seat ≡ with_note (known_at self.old.seat) note.told.place.me.0 }
        ensures accounted { IsAccountedBeside index.now.shared.table.shared.key.passes (known_at self.new.seat) note.told.place.me.0.seen }
    {
        let Some(mut seat) = self.seat.take() else {
            // No query and no transaction of this pass has its seat.
            unreachable!()
        };
        let Note { told, .. } = note;
        look_beside::<L, Brand>(&index.shared, &mut seat, told);
        self.seat = Some(seat);
    }
}

impl<L: Law, N: Named> Snapshot<'_, L, N> {
    /// Tells what is known of the pass of this snapshot, at a moment behind the note's: what is known begins with what that tells. The
    /// version is held on, and the pass sees no more by it.
    pub fn account(&mut self, index: &Index<L, N>, note: Note<N>)
        requires places { (self.old.place ≡ index.now.place) × (note.place ≡ index.now.place) }
        ensures place { self.new.place ≡ self.old.place }
        ensures held { (self.new.seat.version ≡ self.old.seat.version) × (self.new.seat.root ≡ self.old.seat.root) }
        ensures same { self.new.seat.place.me.0 ≡ with_note self.old.seat.place.me.0 note.told.place.me.0 }
        ensures accounted { IsAccountedBeside index.now.shared.table.shared.key.passes self.new.seat.place.me.0 note.told.place.me.0.seen }
    {
        let Note { told, .. } = note;
        look_pinned::<L, Brand>(&index.shared, &mut self.seat, told);
    }
}
