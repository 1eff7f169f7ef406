//! The events of the machine, and what a step answers.
use std::marker::Model;

/// One of the two words of a cell.
#[derive(Clone, Copy)]
pub enum Half {
    Big,
    Small,
}

/// The references of some cells. Contracts see them as a list.
#[derive(Drop)]
pub struct References {
    pub items: Vec<u32>,
}

impl Model for References {
    ghost use Rattle.std.specs.Prelude.{List, ℕ};

    ghost Value = { List ℕ };

    ghost view = { λ r. r.items.items };
}

/// One atomic step of a pass or of the writer: a load, a store or a compare-exchange of one word.
///
/// Passes and chunks count from 0, and `at` is a cell's reference, `chunk * 1024 + cell`.
#[derive(Drop)]
pub enum Event {
    /// An idle pass stores that it is about to look.
    Enter(u32),
    /// A pass that has entered loads the current version.
    Look(u32),
    /// A pass that has looked pins that version, or the one that the writer has assigned to it.
    Settle(u32),
    /// A pinned pass loads a word of its version's image.
    Read {
        pass: u32,
        at: u32,
        half: Half,
    },
    /// A pinned pass stores that it is idle.
    Leave(u32),
    /// An idle pass is told by another of a version that is there.
    Learn {
        pass: u32,
        version: u64,
    },
    /// The writer loads the pin of a pass, and marks the pass by it.
    Scan(u32),
    /// The writer pins the current version for a pass that it found about to look.
    Assign(u32),
    /// The writer takes a free chunk.
    Give(u32),
    /// The writer frees a chunk that no kept image meets.
    Free(u32),
    /// The writer stores a word of a given chunk that is in no kept image.
    Write {
        at: u32,
        half: Half,
        value: u64,
    },
    /// The writer stores the next version's root, and keeps the image of these cells.
    Publish {
        root: Option<u32>,
        cells: References,
    },
}

/// What a step answers.
#[derive(Clone, Copy, Debug, PartialEq)]
pub enum Step {
    /// The event took place.
    Done,
    /// The event isn't allowed, and changed nothing.
    Refused,
    /// Of a settle: the pass is pinned at this version.
    Pinned { version: u64 },
    /// Of a read: the word.
    Word { value: u64 },
}
