//! Numbers that are handed out to several seats, each number once, over a queue that threads share.
//!
//! A feed has the numbers from 1 to its count. Each seat takes the next one, from any thread, until no number is left.
//! When the feed is closed, with all its seats, each number below its answer was taken by just one of them.
#![tactic(auto)]

mod feed;
mod knowledge;
mod seat;

pub use feed::Feed;
pub use seat::FeedSeat;
