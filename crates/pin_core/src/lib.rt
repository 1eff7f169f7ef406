//! The pin core: how passes pin the versions that they read, and how the writer knows which chunks are free again.
//!
//! A pure machine over events, with no threads. What holds between any two events is stated on plain lists of words,
//! so that a table that threads share keeps it too.
#![tactic(auto)]

mod event;
mod image;
mod kept;
mod run;
mod state;
mod version;
pub mod words;

pub use event::{Event, Half, References, Step};
pub use kept::{CellAt, Image, Kept, Mark, Stage};
pub use run::drive;
pub use state::State;
pub use version::{LAST_VERSION, Spent, next_version};
