//! What each seat knows, and the rule of the table.
//!
//! No value of a view is made: views stand in contracts and proofs alone.
use crate::law::HistoryLaw;
use atomic_table::{Seat, Table, TableRule};
use pin_core::{Kept, Mark};
use std::alloc::Global;
use std::collections::LinkedList;
use std::marker::PhantomData;

/// How many passes and chunks an index has.
#[derive(Clone, Copy)]
pub struct TableSize {
    pub passes: u32,
    pub chunks: u32,
}

/// One entry of the history: which pass published it, and what it does.
pub struct Entry<E> {
    pub author: u32,
    pub change: E,
}

/// A round of the turn found that this pass was pinned at this version.
pub struct Naming {
    pub pass: u32,
    pub version: u64,
}

/// What was seen of an index: version 0, once it is open, and beginnings of the history and of the list of namings.
pub struct Seen<O, E> {
    pub opening: Option<O>,
    pub history: LinkedList<Entry<E>>,
    pub namings: LinkedList<Naming>,
}

/// How far a pass has come.
pub enum Progress {
    Idle,
    Entered,
    Looked(u64),
    Pinned(Kept),
}

/// What a pass knows of itself.
pub struct PassView<E> {
    pub number: u32,
    /// How many chunks the index has.
    pub chunks: u32,
    /// What it has published.
    pub entries: LinkedList<Entry<E>>,
    /// The versions that it has pinned.
    pub pinned: LinkedList<u64>,
}

/// What the turn knows beside the history.
pub struct TurnView {
    pub kept: LinkedList<Kept>,
    pub marks: LinkedList<Mark>,
    /// How many passes were made.
    pub made: u32,
    /// How many chunks the index has.
    pub chunks: u32,
    /// The words as the turn knows them. Of the current version's word and of the pins it knows nothing by this.
    pub words: LinkedList<u64>,
}

/// What a seat knows.
pub struct View<O, E> {
    pub seen: Seen<O, E>,
    /// What the seat had seen that was joined to this one last.
    pub told: Seen<O, E>,
    pub pass: Option<PassView<E>>,
    pub progress: Progress,
    pub turn: Option<TurnView>,
}

/// What holds between any two steps, for indexes of this law.
pub struct IndexRule<L> {
    law: PhantomData<L>,
}

impl<O, E, L: HistoryLaw<O, E>> TableRule<(), View<O, E>, TableSize> for IndexRule<L> {
    ghost use Rattle.shared_cells.specs.Rule.{IsSoundTable};
    ghost use Rattle.shared_cells.specs.Views.{first_view};

    ghost holds = { λ size. IsSoundTable L.applied L.lawful L.permitted L.stands size };

    ghost first = { first_view };
}

/// A table of this rule, without slots.
pub type IndexTable<O, E, L> = Table<(), View<O, E>, TableSize, IndexRule<L>, Global>;

/// A place at the table, with what it knows.
pub type Place<O, E> = Seat<(), View<O, E>>;
