//! What a transaction wants of the entries of names, what an operation of it is, and what that makes of the entry of its owner.
#![tactic(auto)]

mod counting;
mod entries;
mod operations;
mod prerequisites;
mod refusals;

pub use entries::changed;
pub use operations::{NewRecord, Operation};
pub use prerequisites::Prerequisite;
pub use refusals::refusal;
