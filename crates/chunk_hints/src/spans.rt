//! Between which paths each chunk was written, where its list can't say it.

ghost use Rattle.std.specs.Prelude.{◌≡◌};
ghost use Rattle.chunk_hints.specs.Rooms.{span_room};

use crate::path::Path;
use std::alloc::{AllocError, Global};

/// The part of a trie between two paths: both, what lies behind them, and all between. An end that says nothing is no bound.
#[derive(Clone, Copy, PartialEq, Eq, Debug)]
pub struct Span {
    pub first: Path,
    pub last: Path,
}

impl Span {
    /// The whole trie.
    pub fn all() -> Span {
        Span {
            first: Path::none(),
            last: Path::none(),
        }
    }

    /// The part of it behind a position, seen from there. There is none where the position comes before the first path, or after the last.
    pub fn behind(self, position: u8) -> Option<Span> {
        if self.first.first().is_some_and(|first| position < first) {
            return None;
        }
        if self.last.first().is_some_and(|last| position > last) {
            return None;
        }
        Some(Span {
            first: self.first.behind(position),
            last: self.last.behind(position),
        })
    }
}

/// A chunk whose list lacks something, and where its cells lie.
#[derive(Clone, Copy, PartialEq, Eq, Debug)]
pub struct Gap {
    pub chunk: u32,
    pub span: Span,
}

/// Of each chunk that was filled while a trie was made from nothing, where in it the chunk's cells lie. It is a guess like the others.
#[derive(Drop)]
pub struct Spans {
    spans: Vec<Option<Span>>,
    // The chunk that was reached last.
    reached: Option<u32>,
}

impl Spans {
    /// None is known.
    pub fn new(alloc: Global, chunks: u32) -> Result<Spans, AllocError> {
        Ok(Spans {
            spans: vec![in alloc; None; chunks as usize]?,
            reached: None,
        })
    }

    /// Cells of a chunk lie on this path, behind all on which cells of it were before.
    pub fn reach(&mut self, chunk: u32, path: Path)
        ensures room { span_room self.new ≡ span_room self.old }
    {
        self.reached = Some(chunk);
        if let Some(span) = self.spans.get_mut(chunk as usize) {
            let first = match *span {
                None => path,
                Some(before) => before.first,
            };
            *span = Some(Span { first, last: path });
        }
    }

    /// The chunk that was reached last.
    pub fn reached(&self) -> Option<u32> {
        self.reached
    }

    /// A chunk's span, if it is known.
    pub fn of(&self, chunk: u32) -> Option<Span> {
        *self.spans.get(chunk as usize)?
    }

    /// A chunk is written from its beginning on.
    pub fn forget(&mut self, chunk: u32)
        ensures room { span_room self.new ≡ span_room self.old }
    {
        if let Some(span) = self.spans.get_mut(chunk as usize) {
            *span = None;
        }
    }
}
