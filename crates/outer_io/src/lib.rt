//! Bytes that come from outside and go outside, read and written through objects that count their
//! faults. A caller learns that a call failed, and that the object's count of faults rose with it.
#![tactic(auto)]

mod bounded;
mod feed;
mod noting;
mod reading;
mod schedule;
mod sinks;
mod sources;
mod standard;
mod talk;
mod writing;

pub use noting::Notes;
pub use reading::{ReadRefusal, read_all};
pub use schedule::Failed;
pub use sinks::{MemSink, QuietSink, Sink};
pub use sources::{MemSource, QuietSource, Source};
pub use standard::{StdSink, StdSource};
pub use talk::Talk;
pub use writing::write_all;
