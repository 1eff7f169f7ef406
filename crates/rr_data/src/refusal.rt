//! Why tokens are no data, and octets no item.
ghost use Rattle.std.specs.Prelude.{◌≡◌};
ghost use Rattle.rr_data.specs.declared.refusal.RdataRefusal.TheVariants.{Memory};
ghost use Rattle.rr_data.specs.declared.refusal.DecodeRefusal.TheVariants as decode;

use std::alloc::{AllocError, AllocFailed};
use thiserror::Error;

/// Why tokens gave no data. `at` is the index of the first token that is refused, from 0; the number of tokens where one
/// is missing.
#[derive(Clone, Copy, Debug, Error)]
pub enum RdataRefusal {
    /// The data are not of their type.
    #[error("token {at} is no data of its type")]
    BadRdata { at: usize },
    /// A string has more than 255 octets.
    #[error("token {at} is a string of more than 255 octets")]
    LongString { at: usize },
    /// Want of memory.
    #[error("out of memory")]
    Memory,
}

impl From<AllocError> for RdataRefusal {
    ghost from_gives = { λ _ e. e ≡ Memory };

    fn from(_: AllocError) -> Self {
        RdataRefusal::Memory
    }
}

impl<T: Drop> From<AllocFailed<T>> for RdataRefusal {
    ghost from_gives = { λ _ e. e ≡ Memory };

    fn from(_: AllocFailed<T>) -> Self {
        RdataRefusal::Memory
    }
}

/// Why octets gave no entry.
#[derive(Clone, Copy, Debug, Error)]
pub enum DecodeRefusal {
    /// They are no item.
    #[error("octets that are no item")]
    Malformed,
    /// Want of memory.
    #[error("out of memory")]
    Memory,
}

impl From<AllocError> for DecodeRefusal {
    ghost from_gives = { λ _ e. e ≡ decode.Memory };

    fn from(_: AllocError) -> Self {
        DecodeRefusal::Memory
    }
}
