//! How commands ended, and what is printed of it: replies, the line of each outcome, reports and summaries. In a report each outcome goes
//! once it is printed, and its reply isn't copied where it is long.
#![tactic(auto)]

mod lines;
mod marks;
mod outcomes;
mod pieces;
mod printed;
mod replies;
mod reply_text;
mod report;
mod responses;
mod summary;

pub use lines::{push_end, push_head, push_pair, push_told};
pub use outcomes::{
    Cause, FedOutcome, Outcome, Outcomes, Told, any_fed_refused, any_refused, is_refused,
};
pub use pieces::Pieces;
pub use printed::{PrintedRows, push_answer, push_rows};
pub use replies::{push_found, push_list, push_size};
pub use reply_text::ReplyText;
pub use report::{append_told, print_fed, print_outcomes, print_report};
pub use responses::push_response;
pub use summary::print_summary;
