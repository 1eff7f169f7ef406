//! A version of a zone as a master file (RFC 1035, section 5), written while others go on.
//!
//! Two styles say the same zone: one in which each line says all of a record, and one that is shorter. Lines go through one
//! buffer, so what is written takes no memory that grows with the zone.
#![tactic(auto)]

mod dumping;
mod lines;
mod refusal;
mod text_sink;
mod writing;
mod zones;

pub use dumping::{dump_text, dump_to, next_item};
pub use lines::Lines;
pub use refusal::DumpRefusal;
pub use zone_model::Style;
pub use zones::dump_zone;
