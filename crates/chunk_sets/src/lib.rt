//! Sets of chunks of a table.
#![tactic(auto)]

mod chunk_set;

pub use chunk_set::ChunkSet;
