//! An index of names with many versions, which threads share: any number of passes read published versions, without a lock
//! and without memory, while one transaction at a time writes.
//!
//! A version is a list of entries in the order of their keys. What is published is one history: each commit is the pass that
//! made it and the operations that it did, and version n is version 0 with the first n commits' operations applied
//! (`specs/Operations.antt`). What a pass has seen is a beginning of that history, which grows and never changes
//! (`specs/Passes.antt`).
//!
//! A pass reads in a `Query`, which it has for as long as it is borrowed, or in a `Snapshot`, which takes the pass with it and
//! may go to another thread. Both pin their version by three steps on the shared table (docs/PINS.md), and show the
//! version that the pass has then seen last. A `Note` tells one pass what another has seen.
//!
//! The turn is behind a lock: a seat at the table, the usage of its chunks, and what both know of each other
//! (`specs/Turns.antt`). A transaction waits for it, and the pass joins it, so that a commit is the pass's own step. Lock and
//! working set lie in a `WriteGuard`, a local of the caller: a struct that has both a lock's guard and the `&mut` of a pass
//! could not tell, when it is dropped, that the pass is back. The operations of a transaction are a `Log`, which exists in
//! proofs alone; the working set is what they make of the base (`specs/WorkingVersions.antt`).
//!
//! What is behind a lock is known by its type alone. So the types of an index have a parameter that names tables, each by its
//! place, and an index, a pass, a note and the turn have the place of their table.
#![tactic(auto)]

mod accounts;
mod change;
mod close;
mod commit;
mod evacuating;
mod fetch;
mod freeing;
mod index;
mod keeping;
mod kept;
mod kind;
mod lock;
mod log;
mod meaning;
mod note;
mod opening;
mod pass;
mod pinned;
mod query;
mod refusal;
mod seeing;
mod snapshot;
mod transaction;
mod writer;

pub use commit::Receipt;
pub use index::Index;
pub use kept::Versions;
pub use kind::{Heavy, Kind, Light};
pub use meaning::{KeyItem, Law, Meaning, Named, Operation, Operations, Version};
pub use note::Note;
pub use opening::{Blank, OpenRefusal, room_in};
pub use pass::Pass;
pub use pin_core::Spent;
pub use query::Query;
pub use refusal::{ChangeRefusal, InsertRefusal, OutOfSpace};
pub use snapshot::Snapshot;
pub use transaction::{Transaction, Update, Write, WriteGuard};
