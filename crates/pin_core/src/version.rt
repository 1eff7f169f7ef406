//! Version numbers.
ghost use Rattle.std.specs.Prelude.{◌≡◌, ◌+◌, ◌<◌, ◌≤◌, MatchResult};

use thiserror::Error;

/// The greatest version.
pub const LAST_VERSION: u64 = 0xff_ffff_ffff;

/// There is no version after this one, which is the greatest.
#[derive(Clone, Copy, Debug, PartialEq, Error)]
#[error("there is no version after {version}")]
pub struct Spent {
    pub version: u64,
}

/// The version after this one.
pub fn next_version(version: u64) -> Result<u64, Spent>
    requires { version ≤ LAST_VERSION }
    ensures { MatchResult result
        (λ next. (version < LAST_VERSION) × (next ≡ version + 1))
        (λ spent. (version ≡ LAST_VERSION) × (spent.version ≡ version)) }
{
    if version == LAST_VERSION {
        return Err(Spent { version });
    }
    Ok(version + 1)
}
