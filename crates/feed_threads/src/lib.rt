//! Runs one list of commands by workers that share an index and take the commands as they come free, and tells what became of each.
#![tactic(auto)]

mod feeding;
mod ordering;
mod zone;

pub use feeding::FedFinished;
pub use zone::{FedRan, run_list, table_for_list};
