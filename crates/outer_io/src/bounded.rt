ghost use Rattle.std.specs.Prelude.{◌≡◌, ◌++◌, [], None, Some, IfOk, MatchOption};
ghost use Rattle.outer_io.specs.Memory.{told};

use crate::noting::{Event, Notes};
use std::alloc::{AllocError, Global};
use std::marker::Model;

/// Room in memory for so many bytes. Once more came than fit, they are only taken.
#[derive(Drop)]
pub struct BoundedBuffer {
    bytes: Vec<u8>,
    room: usize,
    over: bool,
    notes: Notes,
}

impl Model for BoundedBuffer {
    ghost use Rattle.std.specs.Prelude.{◌≤◌, Some, None, vec_len, if◌then◌else◌};
    ghost use Rattle.std.specs.Vec.{vec_capacity};
    ghost use Rattle.outer_io.specs.Memory.{Tray};

    ghost Value = { Tray };

    ghost view = { λ r. record { taken = r.notes.bytes; held = if r.over then None else Some r.bytes.items; room = r.room } };

    ghost invariant = { λ r. (r.room ≤ vec_capacity r.bytes) × (vec_len r.bytes ≤ r.room) };
}

impl BoundedBuffer {
    /// All memory is taken here.
    pub fn new(alloc: Global, room: usize) -> Result<Self, AllocError>
        ensures taken { IfOk result (λ r. r.taken ≡ []) }
        ensures held { IfOk result (λ r. r.held ≡ Some []) }
        ensures room { IfOk result (λ r. r.room ≡ room) }
    {
        Ok(BoundedBuffer {
            bytes: Vec::with_capacity(alloc, room)?,
            room,
            over: false,
            notes: Notes::new(),
        })
    }

    /// All bytes taken, while they fit.
    pub fn held(&self) -> Option<&[u8]>
        ensures { MatchOption result (self.now.held ≡ None) (λ bytes. self.now.held ≡ Some bytes.now) }
    {
        if self.over {
            return None;
        }
        Some(self.bytes.as_slice())
    }

    /// Takes the whole piece.
    pub fn take(&mut self, piece: &[u8])
        ensures taken { self.new.taken ≡ self.old.taken ++ piece.now }
        ensures held { self.new.held ≡ told self.old.room self.old.held piece.now }
        ensures room { self.new.room ≡ self.old.room }
    {
        self.notes = self.notes.then(&Event::Moved(piece));
        if self.over {
            return;
        }
        if piece.len() > self.room - self.bytes.len() {
            self.over = true;
            return;
        }
        // There is room, so this doesn't fail.
        let _ = self.bytes.extend_from_slice(piece);
    }
}
