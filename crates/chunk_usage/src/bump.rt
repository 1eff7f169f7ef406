//! The bump chunk, which cells are handed out from.

/// A chunk, from whose front on cells are handed out, and its bump counter.
#[derive(Clone, Copy, PartialEq, Eq, Debug)]
pub struct Bump {
    pub chunk: u32,
    /// How many of its cells are handed out, at most 1,024.
    pub filled: u32,
}

/// The number of a bump chunk.
pub(crate) fn chunk_of(open: Option<Bump>) -> Option<u32> {
    open.map(|open| open.chunk)
}
