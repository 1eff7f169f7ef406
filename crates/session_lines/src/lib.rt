//! The lines of a live session: how they are taken, what each of them says, and what is printed for it.
#![tactic(auto)]

mod intake;
mod kinds;
mod replies;
mod session;
mod words;

pub use intake::{Intake, LONGEST, NoMore};
pub use kinds::script_kind_name;
pub use replies::Replies;
pub use session::{Said, Session};
