//! The items that version 0 of a zone's index is opened with, made of the zone that was read; and how large its trie is.
#![tactic(auto)]

mod items;
mod sizing;

pub use items::zone_items;
pub use sizing::{MANY_NAMES, zone_size};
