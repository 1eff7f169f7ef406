//! What a transaction's prerequisites and operations make of a zone that is its working set.
#![tactic(auto)]

mod applying;
mod buffers;
mod prerequisites;
mod reading;
mod refusal;

pub use applying::execute;
pub use buffers::ItemBuffers;
pub use refusal::EditRefusal;
