//! Chunks that nothing needs, freed by who has the turn.
ghost use Rattle.std.specs.Prelude.{◌≡◌, ℕ, List, Option};
ghost use Rattle.qp_multi.specs.Prelude.{Entry, StandsFor};
ghost use Rattle.qp_multi.specs.Clearings.{Frees, HasOtherWords, IsSeatOf};

use crate::meaning::{Law, Meaning, Operations, Version};
use chunk_usage::Usage;
use shared_cells::{JoinedSeat, Lent, Shared};

/// Frees each chunk that no kept version has a cell in, and neither the working set nor a bump chunk needs, in cells whose seat is
/// named. Tells how many.
pub(crate) fn free_unreached<L: Law, B: Lent<Version, Operations>>(
    shared: &Shared<Version, Operations, Meaning<L>>,
    seat: JoinedSeat<Version, Operations>,
    usage: &mut Usage,
) -> (JoinedSeat<Version, Operations>, u32)
    requires seat { IsSeatOf shared.now.table.shared.table_id seat usage.old }
    requires lent { (seat.place.table_id ≡ B.table) × (seat.place.me.0 ≡ B.view) }
    ensures seat { HasOtherWords seat result.0 }
    ensures frees { Frees result.0 usage.old usage.new seat.passes result.1 }
    ensures stands { (root : Option ℕ) (es : List Entry) → StandsFor seat.place.me.0 usage.old root es → StandsFor result.0.place.me.0 usage.new root es }
{
    usage.known(); // for the proof
    let mut cells = seat.lend::<Meaning<L>, B>(shared);
    let count = usage.free_unreached(&mut cells);
    (cells.into_joined(), count)
}
