//! On which paths chunks were written: guesses that save work, of which nothing is promised.

ghost use Rattle.std.specs.Prelude.{◌≡◌, ◌≤◌};

use super::Usage;
use crate::bump::chunk_of;
use chunk_hints::{Gap, Listed, Path};

impl Usage {
    /// A key was put in or taken out, whose path this is.
    pub(crate) fn note_change(&mut self, path: Path)
        ensures { self.new ≡ self.old }
    {
        let state = &mut *self.state;
        state.hints.note_change(chunk_of(state.bump), path);
    }

    /// What is written now lies on a path.
    pub fn note(&mut self, path: Path)
        ensures { self.new ≡ self.old }
    {
        let state = &mut *self.state;
        state.hints.note(chunk_of(state.bump), path);
    }

    /// Twigs on a path were copied, the last of them those behind so many steps.
    pub fn note_row(&mut self, path: Path, steps: u32)
        ensures { self.new ≡ self.old }
    {
        let state = &mut *self.state;
        state.hints.note_row(chunk_of(state.bump), path, steps);
    }

    /// Whether a chunk seems to have nothing any more of a path that it lists.
    pub fn is_gone(&self, chunk: u32, listed: Listed) -> bool {
        self.state.hints.is_gone(chunk, listed)
    }

    /// How many paths a chunk lists.
    pub fn listed(&self, chunk: u32) -> usize
        ensures { result ≤ 512 }
    {
        self.state.hints.count(chunk)
    }

    /// A path that a chunk lists, by its place in the list.
    pub fn path(&self, chunk: u32, place: usize) -> Listed {
        self.state.hints.path(chunk, place)
    }

    /// While a trie is gone through that was made from nothing, in the order of its making: cells of a chunk lie on this path.
    pub fn reach(&mut self, chunk: u32, path: Path)
        ensures { self.new ≡ self.old }
    {
        self.state.hints.reach(chunk, path);
    }

    /// Whether a chunk was reached last.
    pub fn is_reached(&self, chunk: u32) -> bool {
        self.state.hints.reached() == Some(chunk)
    }

    /// What the list lacks of the chunk that was reached last.
    pub fn last_gap(&self) -> Option<Gap> {
        self.state.hints.gap(self.state.hints.reached()?)
    }

    /// What the list of some sparse chunk lacks that a walk over a span may find.
    pub fn gap(&self) -> Option<Gap> {
        let mut from = 0;
        while let Some(chunk) = self.sparse_from(from) {
            let gap = self.state.hints.gap(chunk);
            if gap.is_some() {
                return gap;
            }
            from = chunk + 1;
        }
        None
    }

    /// A walk over the span of a chunk begins, for its list alone.
    pub fn begin_walk_of(&mut self, chunk: u32)
        ensures { self.new ≡ self.old }
    {
        self.state.hints.begin_walk_of(chunk);
    }

    /// A walk over all begins that is to list what the lists lack, and those of all sparse chunks.
    pub fn begin_walk(&mut self)
        ensures { self.new ≡ self.old }
    {
        let mut from = 0;
        while let Some(chunk) = self.sparse_from(from) {
            self.state.hints.mark_lacking(chunk);
            from = chunk + 1;
        }
        let chunks = self.chunks();
        self.state.hints.begin_walk(chunks);
    }

    /// A walk came to cells of a chunk, on a path.
    pub fn pass(&mut self, chunk: u32, path: Path)
        ensures { self.new ≡ self.old }
    {
        let needed = self.is_sparse(chunk);
        self.state.hints.pass(chunk, path, needed);
    }

    /// A walk came to its end.
    pub fn end_walk(&mut self)
        ensures { self.new ≡ self.old }
    {
        self.state.hints.end_walk();
    }

    /// Whether some sparse chunk has cells on paths that its list may lack.
    pub fn is_any_lacking(&self) -> bool {
        let mut from = 0;
        while let Some(chunk) = self.sparse_from(from) {
            if self.state.hints.is_lacking(chunk) {
                return true;
            }
            from = chunk + 1;
        }
        false
    }

    /// How many walks over all there were.
    pub fn walks(&self) -> u64 {
        self.state.hints.walks()
    }
}
