ghost use Rattle.std.specs.Prelude.{◌≡◌, ◌+◌, ◌≤◌, ◌^◌, ◌<◌, ◌++◌, ℕ, vec_len, IsTrue, OnOk, IfOk, IsErrOf};
ghost use Rattle.outer_io.specs.Prelude.{Consumes, GivesBytes, IsAtEnd, Rose, Memory, Fault};

use crate::schedule::Failed;
use crate::sources::Source;
use std::alloc::{AllocError, Global};
use thiserror::Error;

/// Why not all bytes were read.
#[derive(Clone, Copy, Debug, PartialEq, Eq, Error)]
pub enum ReadRefusal {
    /// A call on the source failed.
    #[error("reading failed")]
    Fault,
    /// More bytes came than the limit says.
    #[error("over {limit} bytes")]
    TooLong { limit: u32 },
    /// No memory was left.
    #[error("out of memory")]
    Memory,
}

impl From<AllocError> for ReadRefusal {
    ghost from_gives = { λ _ e. e ≡ Memory };

    fn from(_: AllocError) -> Self {
        ReadRefusal::Memory
    }
}

impl From<Failed> for ReadRefusal {
    ghost from_gives = { λ _ e. e ≡ Fault };

    fn from(_: Failed) -> Self {
        ReadRefusal::Fault
    }
}

const PIECE: usize = 4096;

/// All bytes to the end of input, where they are at most `limit`. `TooLong` comes after `limit + 1`
/// bytes were taken; what was read is lost with any refusal.
pub fn read_all<S: Source>(
    alloc: Global,
    source: &mut S,
    limit: u32,
) -> Result<Vec<u8>, ReadRefusal>
    ensures ok { IfOk result (λ v. Consumes (S.left source.old) (S.left source.new) v.items) }
    ensures gave { IfOk result (λ v. S.given source.new ≡ S.given source.old ++ v.items) }
    ensures end { OnOk result (IsAtEnd (S.left source.new)) }
    ensures ended { OnOk result (IsTrue (S.ended source.new)) }
    ensures within { IfOk result (λ v. vec_len v ≤ limit) }

    ensures fault { IsErrOf result ReadRefusal.Fault → Rose (S.faults source.old) (S.faults source.new) }
    ensures too_long { IsErrOf result (ReadRefusal.TooLong limit) → GivesBytes S.left S.given source.old source.new (limit + 1) }
    ensures told_limit { (n : ℕ) → IsErrOf result (ReadRefusal.TooLong n) → n ≡ limit }
    ensures quiet { (IsErrOf result ReadRefusal.Fault → ⊥) → S.faults source.new ≡ S.faults source.old }
    ensures later { S.faults source.old ≤ S.faults source.new }
{
    let most = limit as usize + 1;
    let mut bytes = Vec::new(alloc);
    let mut piece = [0u8; PIECE];
    while bytes.len() < most {
        let room = PIECE.min(most - bytes.len());
        let count = source.read(&mut piece[..room])?;
        if count == 0 {
            return Ok(bytes);
        }
        bytes.extend_from_slice(&piece[..count])?;
    }
    Err(ReadRefusal::TooLong { limit })
}
