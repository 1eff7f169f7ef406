//! Why a text is no zone.
ghost use Rattle.std.specs.Prelude.{◌≡◌};
ghost use Rattle.zone_model.specs.declared.ZoneKind.TheVariants.{Memory};

use std::alloc::{AllocError, AllocFailed};
use thiserror::Error;
use zone_model::ZoneKind;

/// Why bytes gave no tokens, no zone or no list of zones: the line of what is refused first from the top, from 1, and why.
/// Want of memory has no line.
#[derive(Clone, Copy, Debug, PartialEq, Eq, Error)]
#[error("line {line}: {kind}")]
pub struct ZoneRefusal {
    pub line: u32,
    pub kind: ZoneKind,
}

impl From<AllocError> for ZoneRefusal {
    ghost from_gives = { λ _ e. e.kind ≡ Memory };

    fn from(_: AllocError) -> Self {
        refuse(0, ZoneKind::Memory)
    }
}

impl<T: Drop> From<AllocFailed<T>> for ZoneRefusal {
    ghost from_gives = { λ _ e. e.kind ≡ Memory };

    fn from(_: AllocFailed<T>) -> Self {
        refuse(0, ZoneKind::Memory)
    }
}

pub fn refuse(line: u32, kind: ZoneKind) -> ZoneRefusal
    ensures line { result.line ≡ line }
    ensures kind { result.kind ≡ kind }
{
    ZoneRefusal { line, kind }
}
