//! The text of a made load: a zone of numbered names, and a script in which each worker asks for and changes names of its
//! own. What is done is drawn from a seed, so the same numbers make the same text.
#![tactic(auto)]

mod draws;
mod laws;
mod load;
mod part;
mod text;
mod turns;

pub use laws::loads_have_one_summary;
pub use load::Load;
pub use text::make_text;
