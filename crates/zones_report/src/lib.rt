//! The report of commands over several zones: what became of each, and what is printed of that.
#![tactic(auto)]

mod outcomes;
mod report;

pub use outcomes::{Answer, CommandEnd, CommandEnds, ZonesFinished, any_refused};
pub use report::print_zones;
