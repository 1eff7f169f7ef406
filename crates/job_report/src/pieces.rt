//! A text in pieces.
ghost use Rattle.std.specs.Prelude.{◌≡◌, ◌++◌, OnOk};
ghost use Rattle.job_report.specs.Pieces.{pieces_text};

use std::alloc::{AllocError, Global};
use std::mem;

// A text of so many octets is a piece of its own. Shorter ones are copied one behind the other, so that they are written together.
const LONG: usize = 1024;

/// A text in pieces, of which each but the last is whole. What is long isn't copied, and stays where it was made.
#[derive(Drop)]
pub struct Pieces {
    pub whole: Vec<Vec<u8>>,
    pub last: Vec<u8>,
}

impl Pieces {
    /// A text in one piece.
    pub fn of(alloc: Global, text: Vec<u8>) -> Pieces
        ensures { pieces_text result ≡ text.items }
    {
        Pieces {
            whole: Vec::new(alloc),
            last: text,
        }
    }

    /// Puts a text at the end.
    pub fn append(&mut self, text: Vec<u8>) -> Result<(), AllocError>
        ensures { OnOk result (pieces_text self.new ≡ pieces_text self.old ++ text.items) }
    {
        if text.len() < LONG {
            return self.last.extend_from_slice(&text);
        }
        let before = mem::try_take(&mut self.last)?;
        self.whole.push(before)?;
        self.whole.push(text)?;
        Ok(())
    }
}
