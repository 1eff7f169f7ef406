//! On which paths each chunk was written.
//!
//! Whoever changes a trie tells the path of the key, and each chunk that cells are handed out of meanwhile lists it. So what the trie has
//! in a chunk is mostly found along the paths of its list. This is used to save work and nothing else: nothing is proved of the lists, and
//! no answer rests on them. No call takes memory but `new`.

ghost use Rattle.std.specs.Prelude.{◌≡◌, ◌≤◌};
ghost use Rattle.chunk_hints.specs.Rooms.{hint_room};

use crate::listed::Listed;
use crate::lists::PathLists;
use crate::path::Path;
use crate::rows::Rows;
use crate::spans::{Gap, Spans};
use std::alloc::{AllocError, Global};

/// Of each chunk the paths that it was written on, as far as is known.
#[derive(Drop)]
pub struct Hints {
    lists: PathLists,
    // Where the twigs near the root were written last.
    rows: Rows,
    // Whether a chunk has cells on paths that its list may lack.
    lacking: Vec<bool>,
    // Where the chunks of the trie's opening were written.
    spans: Spans,
    // The path that is written now, and the chunk that was left behind since it was told.
    current: Listed,
    left: Option<u32>,
    // The chunk that a walk is for, where it isn't for all.
    only: Option<u32>,
    // How often the lists weren't enough.
    walks: u64,
}

impl Hints {
    /// Empty lists, in which nothing is lacking.
    pub fn new(alloc: Global, chunks: u32) -> Result<Hints, AllocError>
        requires { chunks ≤ 4096 }
    {
        Ok(Hints {
            lists: PathLists::new(alloc, chunks)?,
            rows: Rows::new(alloc)?,
            lacking: vec![in alloc; false; chunks as usize]?,
            spans: Spans::new(alloc, chunks)?,
            current: Listed::any(Path::none()),
            left: None,
            only: None,
            walks: 0,
        })
    }

    /// Cells are handed out of a chunk that was free, and no more of the one before. They lie on the path that is written now.
    pub fn begin(&mut self, chunk: u32, before: Option<u32>)
        ensures room { hint_room self.new ≡ hint_room self.old }
    {
        self.left = before;
        self.spans.forget(chunk);
        self.lists.clear(chunk);
        set(&mut self.lacking, chunk, false);
        self.list(chunk, self.current);
    }

    /// A key was put in or taken out, on whose path all twigs were written since the last path was told.
    pub fn note_change(&mut self, bump: Option<u32>, path: Path)
        ensures room { hint_room self.new ≡ hint_room self.old }
    {
        if let Some(chunk) = bump {
            self.rows.put_all(path, chunk);
        }
        self.note(bump, path);
    }

    /// What is written now lies on a path, and what was written since the last one was told.
    pub fn note(&mut self, bump: Option<u32>, path: Path)
        ensures room { hint_room self.new ≡ hint_room self.old }
    {
        self.write_on(bump, Listed::any(path));
    }

    /// Twigs on a path were copied since the last one was told, the last of them those behind so many steps. Where they may lie in two chunks,
    /// both list the path.
    pub fn note_row(&mut self, bump: Option<u32>, path: Path, steps: u32)
        ensures room { hint_room self.new ≡ hint_room self.old }
    {
        if let Some(chunk) = bump {
            self.rows.put(path, steps, chunk);
        }
        if self.left.is_some() {
            return self.note(bump, path);
        }
        self.write_on(bump, Listed::row(path, steps));
    }

    /// Whether a chunk seems to have nothing any more of a path that it lists.
    pub fn is_gone(&self, chunk: u32, listed: Listed) -> bool {
        match self.rows.chunk(listed.path(), listed.steps()) {
            Some(last) => last != chunk,
            None => false,
        }
    }

    /// How many paths a chunk lists.
    pub fn count(&self, chunk: u32) -> usize
        ensures { result ≤ 512 }
    {
        self.lists.count(chunk)
    }

    /// A path that a chunk lists, by its place in the list.
    pub fn path(&self, chunk: u32, position: usize) -> Listed {
        self.lists.path(chunk, position)
    }

    /// While a trie is gone through that was made from nothing, in the order of its making: cells of a chunk lie on this path.
    pub fn reach(&mut self, chunk: u32, path: Path)
        ensures room { hint_room self.new ≡ hint_room self.old }
    {
        self.spans.reach(chunk, path);
    }

    /// The chunk that was reached last.
    pub fn reached(&self) -> Option<u32> {
        self.spans.reached()
    }

    /// What a chunk's list lacks, where its span is known.
    pub fn gap(&self, chunk: u32) -> Option<Gap> {
        if !self.is_lacking(chunk) {
            return None;
        }
        let span = self.spans.of(chunk)?;
        Some(Gap { chunk, span })
    }

    /// The list of a chunk lacks something.
    pub fn mark_lacking(&mut self, chunk: u32)
        ensures room { hint_room self.new ≡ hint_room self.old }
    {
        set(&mut self.lacking, chunk, true);
    }

    /// A walk over all begins, for the lists that lack something.
    pub fn begin_walk(&mut self, chunks: u32)
        ensures room { hint_room self.new ≡ hint_room self.old }
    {
        self.walks = self.walks.saturating_add(1);
        for chunk in 0..chunks {
            if self.is_lacking(chunk) {
                self.lists.clear(chunk);
            }
        }
    }

    /// A walk over the span of a chunk begins, for its list alone. Nothing is lacking in that from then on, unless there is no room.
    pub fn begin_walk_of(&mut self, chunk: u32)
        ensures room { hint_room self.new ≡ hint_room self.old }
    {
        self.only = Some(chunk);
        self.spans.forget(chunk);
        self.lists.clear(chunk);
        set(&mut self.lacking, chunk, false);
    }

    /// A walk came to cells of a chunk, on a path. Where that isn't needed now, some room is left for others.
    pub fn pass(&mut self, chunk: u32, path: Path, needed: bool)
        ensures room { hint_room self.new ≡ hint_room self.old }
    {
        if self.only.is_some() {
            if self.only == Some(chunk) {
                self.list(chunk, Listed::any(path));
            }
        } else if self.is_lacking(chunk) && (needed || self.lists.has_much_room()) {
            self.lists.push(chunk, Listed::any(path));
        }
    }

    /// A walk came to its end. After one over all nothing is lacking, if there was room.
    pub fn end_walk(&mut self)
        ensures room { hint_room self.new ≡ hint_room self.old }
    {
        if self.only.take().is_none() && self.lists.has_much_room() {
            self.lacking.fill(false);
        }
    }

    /// Whether a chunk has cells on paths that its list may lack.
    pub fn is_lacking(&self, chunk: u32) -> bool {
        matches!(self.lacking.get(chunk as usize), Some(true))
    }

    /// How many walks over all there were.
    pub fn walks(&self) -> u64 {
        self.walks
    }

    // What is written now is listed so, and what was written since the last path was told.
    fn write_on(&mut self, bump: Option<u32>, path: Listed)
        ensures room { hint_room self.new ≡ hint_room self.old }
    {
        self.current = path;
        if let Some(left) = self.left {
            self.list(left, path);
            self.left = None;
        }
        if let Some(chunk) = bump {
            self.list(chunk, path);
        }
    }

    // Lists a path for a chunk. One that says nothing is of no use.
    fn list(&mut self, chunk: u32, path: Listed)
        ensures room { hint_room self.new ≡ hint_room self.old }
    {
        if !self.is_lacking(chunk) && (path.is_none() || !self.lists.push(chunk, path)) {
            self.mark_lacking(chunk);
            self.lists.clear(chunk);
        }
    }
}

/// Says of a chunk whether it is so, where there is such a chunk.
fn set(flags: &mut [bool], chunk: u32, value: bool) {
    if let Some(flag) = flags.get_mut(chunk as usize) {
        *flag = value;
    }
}
