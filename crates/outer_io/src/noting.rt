//! The bytes that went through an object, for proofs alone: notes take no memory, and their calls do nothing.
ghost use Rattle.std.specs.Prelude.{◌≡◌, List, [], Bool, false, ℕ};
ghost use Rattle.std.specs.Borrow.{ftrue};

use std::marker::Model;

/// What went through an object since it was made. Contracts read it.
#[derive(Drop)]
pub struct Notes {
    pub ghost bytes: { List ℕ },
    pub ghost ended: { Bool },
}

impl Model for Notes {
    ghost also_owns = { λ _. ftrue };
}

/// What a call did.
#[derive(Clone, Copy, Drop)]
pub enum Event<'a> {
    /// These bytes went through.
    Moved(&'a [u8]),
    /// The end of input was told.
    Ended,
}

impl Notes {
    ghost use Rattle.outer_io.specs.Noted.{bytes_with, ended_with};

    /// Nothing has gone through yet.
    pub fn new() -> Notes
        ensures { (result.bytes ≡ []) × (result.ended ≡ false) }
    {
        Notes {}
    }

    /// The notes with one event more.
    pub fn then(&self, _event: &Event<'_>) -> Notes
        ensures { (result.bytes ≡ bytes_with self.now.bytes _event.now) × (result.ended ≡ ended_with self.now.ended _event.now) }
    {
        Notes {}
    }
}
