//! Runs workers on several zones that they share and on the table of these, and tells what became of each command.
#![tactic(auto)]

mod changing;
mod closing;
mod ending;
mod getting;
mod job;
mod opening;
mod transactions;
mod worker;

pub use job::run_zones;
pub use opening::{ZonesRan, run_zone_items};
