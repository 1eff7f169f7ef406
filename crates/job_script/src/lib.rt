//! The script of a job: where it begins in an input, the commands that its lines say, and what they need.
#![tactic(auto)]

mod changes;
mod commands;
mod inside;
mod laws;
mod needs;
mod outside;
mod parts;
mod phrases;
mod questions;
mod refusal;
mod script;
mod words;

pub use commands::{Block, COMMAND_LIMIT, Command, Job, WORKER_LIMIT, Waits, Worker};
pub use laws::jobs_are_spelled;
pub use needs::{Needs, needs_of};
pub use parts::{Parts, split};
pub use refusal::{JobRefusal, demand, refused, too_many};
pub use script::{Script, Unfinished, first_script, read_job, read_line, read_list, script_line};
pub use words::says;
