//! Why a script is not read.
ghost use Rattle.std.specs.Prelude.{◌≡◌};
ghost use Rattle.job_script.specs.Prelude.{Passes};
ghost use Rattle.job_script.specs.declared.refusal.JobRefusal.TheVariants.{Memory, Refused};

use job_model::ScriptKind;
use std::alloc::AllocFailed;
use thiserror::Error;

/// Why a job's script is not read.
#[derive(Clone, Copy, Debug, PartialEq, Eq, Error)]
pub enum JobRefusal {
    /// The first line that is refused, and why.
    #[error("line {line}: {kind}")]
    Refused { line: u32, kind: ScriptKind },
    /// Want of memory.
    #[error("out of memory")]
    Memory,
}

impl<T: Drop> From<AllocFailed<T>> for JobRefusal {
    ghost from_gives = { λ _ e. e ≡ Memory };

    fn from(_: AllocFailed<T>) -> Self {
        JobRefusal::Memory
    }
}

/// The refusal of a line.
pub fn refused(line: u32, kind: ScriptKind) -> JobRefusal
    ensures { result ≡ Refused line kind }
{
    JobRefusal::Refused { line, kind }
}

/// Refuses a line where a test fails.
pub fn demand(passes: bool, line: u32, kind: ScriptKind) -> Result<(), JobRefusal>
    ensures { Passes result passes line kind }
{
    if passes {
        Ok(())
    } else {
        Err(refused(line, kind))
    }
}

/// The refusal of a line that is one worker, command or operation too many.
pub fn too_many(line: u32, limit: u32) -> JobRefusal
    ensures { result ≡ Refused line (ScriptKind.TooMany limit) }
{
    refused(line, ScriptKind::TooMany { limit })
}
