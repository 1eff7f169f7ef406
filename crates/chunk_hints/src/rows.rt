//! In which chunks the twigs near the root were written last.

ghost use Rattle.std.specs.Prelude.{◌≡◌};
ghost use Rattle.chunk_hints.specs.Rooms.{row_room};

use crate::path::Path;
use std::alloc::{AllocError, Global};

// So many rows of twigs lie behind one step at most, and so many behind two.
const BEHIND_ONE: usize = 64;

const BEHIND_TWO: usize = 4096;

// No chunk has this number.
const NO_CHUNK: u16 = u16::MAX;

/// By the first step of a path, or the first two, in which chunk the twigs behind them were written last. It is a guess like the others.
#[derive(Drop)]
pub struct Rows {
    behind_one: Vec<u16>,
    behind_two: Vec<u16>,
}

impl Rows {
    /// Nothing was written.
    pub fn new(alloc: Global) -> Result<Rows, AllocError> {
        Ok(Rows {
            behind_one: vec![in alloc; NO_CHUNK; BEHIND_ONE]?,
            behind_two: vec![in alloc; NO_CHUNK; BEHIND_TWO]?,
        })
    }

    /// All twigs on a path were written, in this chunk.
    pub fn put_all(&mut self, path: Path, chunk: u32)
        ensures room { row_room self.new ≡ row_room self.old }
    {
        put(&mut self.behind_one, path.first_step(), chunk);
        put(&mut self.behind_two, path.first_two(), chunk);
    }

    /// The twigs behind one step of a path, or two, were written in a chunk. Of others nothing is known.
    pub fn put(&mut self, path: Path, steps: u32, chunk: u32)
        ensures room { row_room self.new ≡ row_room self.old }
    {
        match steps {
            1 => put(&mut self.behind_one, path.first_step(), chunk),
            2 => put(&mut self.behind_two, path.first_two(), chunk),
            _ => (),
        }
    }

    /// The chunk in which the twigs behind so many steps of a path were written last, if that is known.
    pub fn chunk(&self, path: Path, steps: u32) -> Option<u32> {
        let chunk = match steps {
            1 => self.behind_one.get(path.first_step())?,
            2 => self.behind_two.get(path.first_two())?,
            _ => return None,
        };
        Some(u32::from(*chunk))
    }
}

/// Writes a row's chunk.
fn put(chunks: &mut [u16], row: usize, chunk: u32) {
    if let Some(position) = chunks.get_mut(row) {
        *position = u16::try_from(chunk).unwrap_or(NO_CHUNK);
    }
}
