//! The program: reads a job (a zone and its workers' script), runs it, and prints the report; or hands one list of commands
//! out to workers; or reads a zone and says how large its index is, or writes it as a master file; or makes a job, runs it, and sums
//! it up; or reads a job and says how many chunks it needs; or runs a job over several zones; or
//! reads two zones and writes what makes of the first the second.
#![tactic(auto)]

mod differing;
mod dumping;
mod feeding;
mod input;
mod items;
mod living;
mod needs;
mod program;
mod reading;
mod refusal_lines;
mod refusing;
mod run_report;
mod several;
mod size_lines;
mod sizing;
mod status;
mod writing;

pub use items::zone_items;
pub use job_commands::Gate;
pub use job_make::{Load, make_text};
pub use program::run;
pub use reading::{job_in, list_in, zone_in};
pub use status::Status;
