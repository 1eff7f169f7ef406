//! What the words of the command line ask for.
#![tactic(auto)]

mod asked;
mod given;
mod invocation;
mod numbers;
mod options;
mod parsed;
mod program;
mod words;

pub use invocation::{Asked, Comparison, Crew, Invocation, Verb};
pub use words::invocation_of;
