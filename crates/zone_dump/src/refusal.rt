//! Why a dump isn't whole.
ghost use Rattle.std.specs.Prelude.{◌≡◌};
ghost use Rattle.zone_dump.specs.declared.refusal.DumpRefusal.TheVariants.{Fault, Memory};

use outer_io::Failed;
use std::alloc::AllocError;
use thiserror::Error;

/// Why only a front of a dump was written.
#[derive(Clone, Copy, Debug, PartialEq, Eq, Error)]
pub enum DumpRefusal {
    /// A call on the sink failed.
    #[error("writing failed")]
    Fault,
    /// No memory was left.
    #[error("out of memory")]
    Memory,
}

impl From<Failed> for DumpRefusal {
    ghost from_gives = { λ _ e. e ≡ Fault };

    fn from(_: Failed) -> Self {
        DumpRefusal::Fault
    }
}

impl From<AllocError> for DumpRefusal {
    ghost from_gives = { λ _ e. e ≡ Memory };

    fn from(_: AllocError) -> Self {
        DumpRefusal::Memory
    }
}
