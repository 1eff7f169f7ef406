//! Why a trie isn't changed.
ghost use Rattle.std.specs.Prelude.{◌≡◌};

use chunk_usage::Shortage;
use thiserror::Error;

/// Why a name isn't put in, or its item isn't exchanged, or it isn't taken out.
#[derive(Clone, Copy, PartialEq, Eq, Debug, Error)]
pub enum NotDone {
    /// Where a name is to be put in, it is there already; else it isn't there.
    #[error("a name that is to be put in is there, or one that is to be changed isn't")]
    Refused,
    /// The bump chunk and the free chunks have too few cells.
    #[error(transparent)]
    Full(Shortage),
}

impl From<Shortage> for NotDone {
    ghost use Rattle.trie_write.specs.declared.refusal.NotDone.TheVariants as not_done;

    ghost from_gives = { λ shortage refusal. refusal ≡ not_done.Full shortage };

    fn from(shortage: Shortage) -> NotDone {
        NotDone::Full(shortage)
    }
}
