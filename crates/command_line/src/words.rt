//! The words of the command line.
ghost use Rattle.std.specs.Prelude.{◌≡◌, ℕ, List, map, Option, IfOk, IsOk, IsSome};
ghost use Rattle.command_line.specs.Prelude.{option_map, string_bytes, invocation_view, invocation_of, plain_of};

use crate::asked::plain_of;
use crate::invocation::Invocation;
use crate::parsed::parsed_of;
use std::alloc::{AllocError, Global};

/// What the words say, the first of which is the program's name; None where they are refused. Plain words are read as they
/// stand, which takes no memory, and all others by clap.
pub fn invocation_of(alloc: Global, words: &[String]) -> Result<Option<Invocation>, AllocError>
    ensures says { IfOk result (λ i. option_map invocation_view i ≡ invocation_of (map string_bytes words.now)) }
    ensures plain { IsSome (plain_of (map string_bytes words.now)) → IsOk result }
{
    match plain_of(words) {
        Some(invocation) => Ok(Some(invocation)),
        None => parsed_of(alloc, words),
    }
}
