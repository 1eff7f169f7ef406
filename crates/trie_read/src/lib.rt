//! Reading a trie, over any cells.
//!
//! A root is the reference of the top node, or `None` for the empty trie. Each function is for a root that stands for some
//! entries in the cells, each of whose items tells its key, and answers as the list of those entries does. Nothing
//! allocates.
#![tactic(auto)]

mod above;
mod ancestors;
mod found;
mod iter;
mod labels;
mod leaf;
mod look_up;
mod path;
mod reading;
mod size;
mod steps;
mod top;

pub use ancestors::{Ancestor, Ancestors};
pub use found::{Chain, Found, Kind, find};
pub use iter::{Iter, Met};
pub use labels::labels_to;
pub use leaf::{difference_at, key_at, name_at};
pub use look_up::{get, get_counted};
pub use reading::{CellReading, Reading, Rooted};
pub use size::{count, nodes};
pub use steps::Steps;
pub use top::Root;
