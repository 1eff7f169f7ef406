//! Where the records of an answer go.

use dns_name::Name;
use rr_data::SetView;
use std::alloc::{AllocError, Global};

/// Takes the records of an answer as they are found.
pub trait RowSink {
    ghost use Rattle.std.specs.Prelude.{List, OnOk};
    ghost use Rattle.zone_model.specs.Rows.{Row, rows_of};
    ghost use Rattle.zone_answer.specs.Parts.{Adds};

    // These records have come, in this order.
    ghost has: { Self → List Row → Type 0 };

    /// Adds the records of an RRset, with this owner.
    fn push(&mut self, alloc: Global, owner: &Name, set: &SetView<'_>) -> Result<(), AllocError>
        ensures { OnOk result (Adds (has self.old) (has self.new) (rows_of owner.now set.now)) };
}
