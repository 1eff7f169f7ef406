//! A path as a chunk lists it.

use crate::path::Path;

// The two bits above the steps of a path.
const ROW_SHIFT: u32 = 30;

const STEPS: u32 = (1 << ROW_SHIFT) - 1;

/// A path that a chunk lists, in a word, and what the chunk has of it, as far as is known: the twigs behind its first step or its first two
/// and nothing else, or perhaps anything.
#[derive(Clone, Copy, PartialEq, Eq, Debug)]
pub struct Listed {
    word: u32,
}

impl Listed {
    /// The chunk may have anything of the path.
    #[inline]
    pub fn any(path: Path) -> Listed {
        Listed { word: path.word() }
    }

    /// The chunk has no twigs of the path but those behind so many steps. Of more steps than two it isn't noted.
    #[inline]
    pub fn row(path: Path, steps: u32) -> Listed {
        match steps {
            1 => Listed {
                word: path.word() | (1 << ROW_SHIFT),
            },
            2 => Listed {
                word: path.word() | (2 << ROW_SHIFT),
            },
            _ => Listed::any(path),
        }
    }

    /// The path.
    #[inline]
    pub fn path(self) -> Path {
        Path::of_word(self.word & STEPS)
    }

    /// Behind how many steps the chunk's twigs lie, where it has nothing else; 0 where it may have anything.
    #[inline]
    pub fn steps(self) -> u32 {
        self.word >> ROW_SHIFT
    }

    /// Whether the path says nothing.
    #[inline]
    pub fn is_none(self) -> bool {
        self.word == 0
    }
}
