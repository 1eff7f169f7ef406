//! Several zones that are served at once, each an index of its own, and the table of their origins, which is an index too. Names are located by the
//! table; a change of the table alone puts a zone in or takes it out, beside readers.
//!
//! A caller asks and changes a zone through its index, which `Zones::zone` gives, and the pass of it that `ZonesPass::zone` lends.
#![tactic(auto)]

mod buckets;
mod building;
mod change;
mod close;
mod deepest;
mod handing;
mod law;
mod locating;
mod note;
mod opening;
mod pass;
mod remembered;
mod table;
mod zones;

pub use change::TableRefusal;
pub use law::TableLaw;
pub use locating::{Attached, Located};
pub use note::ZonesNote;
pub use opening::{ZoneItems, ZonesRefusal};
pub use pass::ZonesPass;
pub use zones::Zones;
