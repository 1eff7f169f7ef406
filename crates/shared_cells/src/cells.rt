//! The cells of the table, as the trie's crates know cells.
ghost use Rattle.std.specs.Prelude.{◌≡◌};

use crate::law::HistoryLaw;
use crate::pinned::PinnedSeat;
use crate::shared::Shared;
use chunk_cells::CellRead;
use packed_node::{Cell, Ref};
use pin_core::Half;
use pin_core::words::place_of_half;

/// The cells of the version that a pass has pinned.
#[derive(Drop)]
pub struct PinnedCells<'a, O, E, L: HistoryLaw<O, E>> {
    shared: &'a Shared<O, E, L>,
    seat: &'a mut PinnedSeat<O, E>,
    ghost here: { seat.now.place.table_id ≡ shared.now.table.shared.table_id },
}

impl<'a, O, E, L: HistoryLaw<O, E>> PinnedCells<'a, O, E, L> {
    pub fn new(
        shared: &'a Shared<O, E, L>,
        seat: &'a mut PinnedSeat<O, E>,
    ) -> PinnedCells<'a, O, E, L>
        requires { seat.old.place.table_id ≡ shared.now.table.shared.table_id }
        ensures same_reference { result.seat.ghost_name ≡ seat.entry.ghost_name }
        ensures seat { result.seat.now ≡ seat.old }
    {
        PinnedCells { shared, seat }
    }
}

/// A cell is two loads. Nobody waits, and nothing is taken twice: no cell of a pinned version is ever written.
impl<O, E, L: HistoryLaw<O, E>> CellRead for PinnedCells<'_, O, E, L> {
    ghost use Rattle.std.specs.Prelude.{Contains};
    ghost use Rattle.shared_cells.specs.Views.{pinned_image};

    ghost has = { λ s r c. Contains (pinned_image s.seat.now.place.me.0.progress) (record { at = r; big = c.big; small = c.small }) };

    fn cell(&mut self, at: Ref) -> Cell {
        let word = place_of_half(at, Half::Big);
        let shared = self.shared;
        Cell {
            big: self.seat.read(shared, word),
            small: self.seat.read(shared, word + 1),
        }
    }
}
