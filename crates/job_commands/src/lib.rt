//! Runs one command of a job on the index that its workers share, and says what it came to: a question to the current version, a
//! transaction or a compaction. When all workers are done it closes the index. What workers come to by such commands is in its laws.
#![tactic(auto)]

mod alone;
mod asking;
mod closing;
mod compactions;
mod entered;
mod gate;
mod law;
mod measuring;
mod replying;
mod scratch;
mod transactions;

pub use alone::run_alone;
pub use asking::run_question;
pub use closing::{Last, close_index};
pub use compactions::run_compaction;
pub use entered::Entered;
pub use gate::{Gate, counted};
pub use law::ZoneLaw;
pub use measuring::measure;
pub use replying::reply_text;
pub use scratch::WorkerScratch;
pub use transactions::run_block;
