//! Inputs of several zones: parts, each of which begins with a line that names its zone's origin.
#![tactic(auto)]

mod heads;
pub mod laws;
mod lists;
mod parts;

pub use lists::read_zones;
