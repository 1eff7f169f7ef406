//! Why changes of a working set aren't made.

use chunk_usage::Shortage;
use thiserror::Error;
use zone_model::Refusal;

/// Why operations change nothing.
#[derive(Clone, Copy, Debug, Error)]
pub enum EditRefusal {
    /// A rule of zones.
    #[error("a rule of zones refuses it: {0:?}")]
    Refused(Refusal),
    /// No room for an operation, by its number from 1: the index refuses a request, while what the transaction's `kept` tells is kept.
    #[error("no room for operation {operation}")]
    Full { operation: u64, shortage: Shortage },
    /// Want of memory for an operation that no rule refuses.
    #[error("out of memory")]
    Memory,
}
