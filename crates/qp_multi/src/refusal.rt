//! Why a transaction's call changes nothing.

use crate::kept::Versions;
use chunk_usage::Shortage;
use thiserror::Error;

/// There is no room: after a round and a freeing in this call the bump chunk has too few cells left, and no chunk but the reserve
/// is free.
#[derive(Clone, Copy, Debug, Error)]
#[error("{shortage}")]
pub struct OutOfSpace {
    /// The refused request.
    pub shortage: Shortage,
    /// The versions that the round kept.
    pub kept: Versions,
}

/// Why a name isn't put in.
#[derive(Clone, Copy, Debug, Error)]
pub enum InsertRefusal {
    /// The name is there.
    #[error("the name is there")]
    Exists,
    /// There is no room.
    #[error(transparent)]
    Full(OutOfSpace),
}

/// Why a name's item isn't changed.
#[derive(Clone, Copy, Debug, Error)]
pub enum ChangeRefusal {
    /// The name isn't there.
    #[error("the name isn't there")]
    NotFound,
    /// There is no room.
    #[error(transparent)]
    Full(OutOfSpace),
}
