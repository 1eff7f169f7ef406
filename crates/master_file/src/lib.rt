//! Reading of master files (RFC 1035, section 5): the zone that a file says.
#![tactic(auto)]

mod classes;
mod entries;
mod front;
mod items;
pub mod laws;
mod owned;
mod owners;
mod records;
mod zones;

pub use front::{name_word, time_word, type_word};
pub use items::{IntoItems, LentItems};
pub use zones::{Zone, read_zone, read_zone_at};
