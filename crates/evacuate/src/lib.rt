//! What lies in chunks of which few cells count is moved to fresh ones, so that the old chunks can be given back.
#![tactic(auto)]

mod descent;
mod evacuation;
mod finding;
mod moves;
mod path_list;
mod path_walk;
mod spans;
mod sparse;
mod stack;
mod surveys;

pub use evacuation::{EvacuationEnd, evacuate};
pub use spans::find_spans;
