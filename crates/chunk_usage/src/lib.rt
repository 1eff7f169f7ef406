//! Which cells of the chunks are in use, and which may be handed out next.
//!
//! Cells are handed out of one bump chunk, from its front on, and are never taken back one by one. Of each chunk it is counted
//! how many of its cells the trie reaches; a chunk is given back as a whole. After `Usage::new` nothing allocates.
//!
//! Bump chunk, bump counter and fender are BIND's words (lib/dns/qp_p.h): the chunk that cells come from, how many of its cells
//! are handed out, and both as they were at the last freeze. A chunk set for each kept version is our own: BIND counts references.
//!
//! A freeze, going back to it, and freeing cost what was changed since the freeze, and passes over chunk sets, which have a word
//! for each 64 chunks: nothing goes through the chunks one by one.
#![tactic(auto)]

mod bump;
pub mod capacity;
mod counts;
mod kept_version;
pub mod space;
mod usage;

pub use bump::Bump;
pub use chunk_hints::{Gap, Listed, PATH_STEPS, Path, Span};
pub use kept_version::KeptVersion;
pub use space::{Grant, Shortage, Space};
pub use usage::Usage;
