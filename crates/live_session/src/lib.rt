//! A live session: a zone up to a line `%%`, and then lines that are answered one by one, each before more is asked for.
#![tactic(auto)]

mod chunks;
mod early;
mod seat;
mod serving;
mod taking;
mod zone;

pub use early::EarlyEnd;
pub use serving::live;
