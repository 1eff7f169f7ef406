//! Runs a job's workers on an index that they share, and tells what became of each command.
#![tactic(auto)]

mod holding;
mod job;
mod passes;
mod sitting;
mod worker;
mod zone;

pub use job::{Finished, run_job};
pub use passes::{Passes, second_pass};
pub use sitting::{measure_last, open_for_one, run_next, seat_worker, table_for_one, tell_all};
pub use worker::run_command;
pub use zone::{Ran, run_zone, table_for};
