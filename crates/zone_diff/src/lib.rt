//! The difference of two versions of a zone, as the operations of a transaction that makes of the one before the one after.
#![tactic(auto)]

mod changes;
mod cursor;
mod entries;
mod laws;
mod names;
mod sets;
mod soa;
mod text;

pub use changes::{Change, OperationSink};
pub use laws::{
    differences_are_few, differences_in_transactions, differences_make_the_other,
    differences_may_be_cut, differences_read_back,
};
pub use names::{Ahead, NameCursor, Names, owner_of, push_between, push_difference};
pub use sets::{push_additions, push_deletions};
pub use text::difference_text;

/// Whether SOA records that differ in their serial alone differ.
#[derive(Clone, Copy, PartialEq, Eq, Debug)]
pub enum Serial {
    /// They do.
    Keep,
    /// They count as the same.
    Ignore,
}

/// How a difference is written.
#[derive(Clone, Copy, PartialEq, Eq, Debug)]
pub enum DiffStyle {
    /// As the transactions of a script.
    Script,
    /// As the lines that nsupdate reads.
    Nsupdate,
}
