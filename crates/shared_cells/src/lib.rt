//! The words that all threads of an index share, as a table whose rule says what each seat knows.
//!
//! Each pass has a seat, and one seat has the turn: it alone makes versions. A pass that wants to publish is joined to
//! the turn for its transaction, so each entry of the history is its author's own step. What a pass has seen goes to
//! another in a note. The rule holds between any two steps of any threads.
#![tactic(auto)]

mod cells;
mod copying;
mod law;
mod lent;
mod pass;
mod pinned;
mod plays;
mod round;
mod shared;
mod turn;
mod view;

pub use cells::PinnedCells;
pub use law::{Counted, HistoryLaw, Opening, Payload};
pub use lent::{Lent, TurnCells};
pub use pass::{NewPassSeat, PassSeat, SeatNote};
pub use pinned::PinnedSeat;
pub use round::KeptVersions;
pub use shared::Shared;
pub use turn::{JoinedSeat, NewTurnSeat, TurnSeat};
pub use view::{
    Entry, IndexRule, IndexTable, Naming, PassView, Place, Progress, Seen, TableSize, TurnView,
    View,
};
