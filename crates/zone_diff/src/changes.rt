//! What becomes of a name, and where that goes.

use dns_name::Name;
use std::alloc::AllocError;

/// One operation on a name, whose octets lie where they were found.
#[derive(Clone, Copy)]
pub enum Change<'a> {
    /// A record comes.
    Comes {
        rtype: u16,
        ttl: u32,
        octets: &'a [u8],
    },
    /// The name goes.
    Goes,
    /// The RRset of a type goes.
    SetGoes {
        rtype: u16,
    },
    /// A record goes.
    RecordGoes {
        rtype: u16,
        octets: &'a [u8],
    },
}

/// Takes the operations of a difference as they are found.
pub trait OperationSink {
    ghost use Rattle.std.specs.Prelude.{List, ◌∷◌, [], OnOk};
    ghost use Rattle.zone_model.specs.Versions.{Operation};
    ghost use Rattle.zone_diff.specs.Sinks.{Adds, Aim, IsShort, change_view};

    // It is for this, and these operations have come, in this order.
    ghost has: { Self → Aim → List Operation → Type 0 };

    /// Adds an operation on a name.
    fn push(&mut self, owner: &Name, change: &Change<'_>) -> Result<(), AllocError>
        requires { IsShort change.now }
        ensures { OnOk result (Adds (has self.old) (has self.new) (change_view owner.now change.now ∷ [])) };
}
