//! Changing a trie, over any cells and any space that hands them out.
#![tactic(auto)]

mod add_leaf;
mod alloc;
mod branch_points;
mod bulk;
mod change;
mod deletion;
mod descend;
mod has_key;
mod insertion;
pub mod item;
mod laying;
mod mutable;
mod nearest;
mod node_top;
mod paths;
mod refusal;
mod remove_leaf;
mod replacement;
mod row;
mod size;

pub use bulk::build;
pub use deletion::delete;
pub use insertion::insert;
pub use item::{Item, ItemRefusal};
pub use refusal::NotDone;
pub use replacement::replace;
pub use size::{cells, cells_beyond};
