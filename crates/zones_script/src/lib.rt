//! Scripts over several zones: the commands that their lines say. A block's lines are read as those of a script of its zone alone.
#![tactic(auto)]

mod commands;
mod inside;
pub mod laws;
mod outside;
mod phrases;
mod script;

pub use commands::{Command, Worker, ZonesScript};
pub use script::read_script;
