//! What a space of chunks guesses of what was written where: on which paths of a trie, and how long ago.
//!
//! Guesses save work and nothing else. Nothing is proved of them but that asking for one is safe and ends, and no answer rests on one.
#![tactic(auto)]

mod ages;
mod hints;
mod listed;
mod lists;
mod path;
mod rows;
mod spans;

pub use ages::Ages;
pub use hints::Hints;
pub use listed::Listed;
pub use path::{PATH_STEPS, Path};
pub use spans::{Gap, Span};
