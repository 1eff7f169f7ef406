//! What lies in sparse chunks, moved by who has the turn.
ghost use Rattle.std.specs.Prelude.{◌≡◌};

use crate::meaning::{Law, Meaning, Operations, Version};
use crate::writer::WorkingVersion;
use evacuate::EvacuationEnd;
use shared_cells::{Lent, Shared};

impl WorkingVersion {
    ghost use Rattle.qp_multi.specs.Attempts.{IsWorkingOf};
    ghost use Rattle.qp_multi.specs.Clearings.{IsSameSet, KnowsSame, MovesSparse};

    /// Moves what the working set has in sparse chunks, in cells whose seat is named. The set is the same.
    pub(crate) fn evacuate<L: Law, B: Lent<Version, Operations>>(
        self,
        shared: &Shared<Version, Operations, Meaning<L>>,
    ) -> (WorkingVersion, EvacuationEnd)
        requires working { IsWorkingOf shared.now.table.shared.table_id self }
        requires lent { (self.seat.place.table_id ≡ B.table) × (self.seat.place.me.0 ≡ B.view) }
        ensures same { IsSameSet self result.0 }
        ensures knows { KnowsSame self.seat.place.me.0 result.0.seat.place.me.0 }
        ensures moves { MovesSparse self result.0 result.1 }
    {
        let WorkingVersion {
            seat,
            mut usage,
            base,
            root,
            log,
        } = self;
        let mut cells = seat.lend::<Meaning<L>, B>(shared);
        let (root, done) = evacuate::evacuate(&mut cells, &mut usage, root);
        usage.known(); // for the proof
        let working = WorkingVersion {
            seat: cells.into_joined(),
            usage,
            base,
            root,
            log,
        };
        (working, done)
    }
}
