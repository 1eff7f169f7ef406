//! How many nodes and cells the trie of some items has, counted while the items come one after another. No trie is made.
#![tactic(auto)]

mod offsets;
mod size;

pub use size::TrieSize;
