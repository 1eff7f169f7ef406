//! What passes and the writer know: kept versions with their images, stages and marks.
use std::marker::Model;

/// A cell of an image: its reference (`chunk * 1024 + cell`) and its two words.
#[derive(Clone, Copy)]
pub struct CellAt {
    pub at: u32,
    pub big: u64,
    pub small: u64,
}

/// The cells that a version's root reaches, with their words as they were when the version was published.
///
/// Contracts see the list of its cells.
#[derive(Drop)]
pub struct Image {
    pub cells: Vec<CellAt>,
}

impl Model for Image {
    ghost use Rattle.std.specs.Prelude.{List};
    ghost use Rattle.pin_core.specs.declared.kept.CellAt.{CellAt};

    ghost Value = { List CellAt };

    ghost view = { λ i. i.cells.items };
}

/// A version that the writer keeps: its number, its root (none: it has no names) and its image.
#[derive(Drop)]
pub struct Kept {
    pub version: u64,
    pub root: Option<u32>,
    pub image: Image,
}

/// How far a pass has come.
#[derive(Clone, Copy)]
pub enum Stage {
    /// It reads nothing.
    Idle,
    /// Its pin says that it is about to look.
    Entered,
    /// It has read this word of the current version.
    Looked(u64),
    /// It reads this version.
    Pinned(u64),
}

/// What the writer has noted of a pass in this round.
#[derive(Clone, Copy)]
pub enum Mark {
    /// Nothing yet.
    Blank,
    /// Its pin was idle.
    Idle,
    /// Its pin said that it was about to look.
    Entering,
    /// Its pin named this version.
    Pinned(u64),
}
