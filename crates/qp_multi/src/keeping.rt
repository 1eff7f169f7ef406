//! Rounds of the turn: which versions are kept, and their rows.
ghost use Rattle.std.specs.Prelude.{◌≡◌, ◌+◌};
ghost use Rattle.qp_multi.specs.Prelude.{kept_versions, AgreesWithin, cells_with};
ghost use Rattle.qp_multi.specs.Clearings.{Keeps, MakesRound, Narrows};

use crate::meaning::{Law, Meaning, Operations, Version};
use chunk_usage::Usage;
use shared_cells::{JoinedSeat, KeptVersions, Shared};

/// Makes a round: kept are then the current version and those that some pass was found reading, and no others.
pub(crate) fn make_round<L: Law>(
    shared: &Shared<Version, Operations, Meaning<L>>,
    seat: &mut JoinedSeat<Version, Operations>,
    usage: &mut Usage,
)
    requires table { seat.old.place.table_id ≡ shared.now.table.shared.table_id }
    requires agrees { AgreesWithin (seat.old.passes + 2) (cells_with usage.old seat.old.place.me.0.turn) usage.old seat.old.passes }
    ensures seat { MakesRound seat.old seat.new }
    ensures narrows { Narrows seat.new usage.old usage.new seat.old.passes }
    ensures keeps { Keeps seat.old seat.new (kept_versions usage.new) }
{
    seat.look(shared);
    let mut list = KeptVersions::new();
    seat.round(shared, &mut list);
    usage.keep_only(list.as_slice());
}
