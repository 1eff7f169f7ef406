//! A live session over any worker, talk and sink: each line is answered before more is asked for.
#![tactic(auto)]

mod answering;
mod reads;
mod serving;
mod whole;
mod worker;

pub use serving::Stop;
pub use whole::serve;
pub use worker::{LastVersion, Worker};
