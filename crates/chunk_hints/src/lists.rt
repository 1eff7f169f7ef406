//! A list of paths for each chunk. The lists share their room.

ghost use Rattle.std.specs.Prelude.{◌≡◌, ◌+◌, ◌≤◌, length, min, slice_index, vec_len};
ghost use Rattle.chunk_hints.specs.Blocks.{blocks_in};

use crate::listed::Listed;
use crate::path::Path;
use std::alloc::{AllocError, Global};

// A block has room for so many paths. There are three blocks for each chunk: 768 octets for its 16 KiB.
const BLOCK: usize = 64;

const BLOCKS: usize = 3;

// A list has no more than so many blocks, and so many paths.
const MOST_BLOCKS: usize = 8;

const MOST: usize = 512;

// No block.
const NONE: u32 = u32::MAX;

/// What is put in may be gone: nothing is proved of the paths. Of the blocks it is that each is of a list or spare, so none is lost or given
/// back twice, and no list takes memory of its own.
#[derive(Drop)]
pub struct PathLists {
    // `BLOCK` places for each block.
    paths: Vec<Listed>,
    // Of each chunk the blocks of its list, `MOST_BLOCKS` places for each, and how many paths the list has.
    blocks: Vec<u32>,
    counts: Vec<u16>,
    // The blocks of no list: the first `spare` of these.
    free: Vec<u32>,
    spare: usize,
    ghost each_once: { spare + blocks_in counts.items ≡ vec_len free },
}

impl PathLists {
    ghost use Rattle.chunk_hints.specs.Rooms.{list_room};

    /// Empty lists.
    pub fn new(alloc: Global, chunks: u32) -> Result<PathLists, AllocError>
        requires { chunks ≤ 4096 }
    {
        let blocks = chunks as usize * BLOCKS;
        let mut free = Vec::with_capacity(alloc, blocks)?;
        for block in 0..chunks * BLOCKS as u32 {
            free.push(block)?;
        }
        let spare = free.len();
        Ok(PathLists {
            paths: vec![in alloc; Listed::any(Path::none()); blocks * BLOCK]?,
            blocks: vec![in alloc; NONE; chunks as usize * MOST_BLOCKS]?,
            counts: vec![in alloc; 0; chunks as usize]?,
            free,
            spare,
        })
    }

    /// Whether more than a quarter of all blocks is free.
    pub fn has_much_room(&self) -> bool {
        self.spare > self.paths.len() / BLOCK / 4
    }

    /// How many paths a chunk's list has.
    #[inline]
    pub fn count(&self, chunk: u32) -> usize
        ensures { result ≡ min 512 (slice_index self.now.counts.items chunk) }
    {
        match self.counts.get(chunk as usize) {
            Some(count) => MOST.min(*count as usize),
            None => 0,
        }
    }

    /// A path of it, by its place.
    #[inline]
    pub fn path(&self, chunk: u32, position: usize) -> Listed {
        match self.paths.get(self.position_of(chunk, position)) {
            Some(path) => *path,
            None => Listed::any(Path::none()),
        }
    }

    /// Takes all paths out of a chunk's list, whose blocks are spare from then on.
    pub fn clear(&mut self, chunk: u32)
        ensures room { list_room self.new ≡ list_room self.old }
    {
        if chunk as usize >= self.counts.len() {
            return;
        }
        let many = self.count(chunk).div_ceil(BLOCK);
        self.spare = give_back(&mut self.free, self.spare, &self.blocks, chunk, many);
        self.counts[chunk as usize] = 0;
    }

    /// Puts a path into a chunk's list, where it isn't the last one already. Tells whether there was room.
    pub fn push(&mut self, chunk: u32, path: Listed) -> bool
        ensures room { list_room self.new ≡ list_room self.old }
    {
        let count = self.count(chunk);
        if count > 0 && self.path(chunk, count - 1) == path {
            return true;
        }
        if chunk as usize >= self.counts.len() || count == MOST {
            return false;
        }
        if count % BLOCK == 0 {
            if self.spare == 0 {
                return false;
            }
            self.spare -= 1;
            self.counts[chunk as usize] = count as u16 + 1;
            put_block(
                &mut self.blocks,
                chunk,
                count / BLOCK,
                self.free[self.spare],
            );
        } else {
            self.counts[chunk as usize] = count as u16 + 1;
        }
        let position = self.position_of(chunk, count);
        if let Some(slot) = self.paths.get_mut(position) {
            *slot = path;
        }
        true
    }

    // Where a list's place lies among all paths.
    #[inline]
    fn position_of(&self, chunk: u32, position: usize) -> usize {
        block(&self.blocks, chunk, position / BLOCK) as usize * BLOCK + position % BLOCK
    }
}

/// A block of a chunk's list.
#[inline]
fn block(blocks: &[u32], chunk: u32, which: usize) -> u32 {
    let position = chunk as usize * MOST_BLOCKS + which % MOST_BLOCKS;
    blocks.get(position).copied().unwrap_or(NONE)
}

/// A block becomes one of a chunk's list.
fn put_block(blocks: &mut [u32], chunk: u32, which: usize, block: u32) {
    let position = chunk as usize * MOST_BLOCKS + which % MOST_BLOCKS;
    if let Some(slot) = blocks.get_mut(position) {
        *slot = block;
    }
}

/// The first blocks of a chunk's list come behind the spare ones. Tells how many are spare then.
fn give_back(free: &mut [u32], spare: usize, blocks: &[u32], chunk: u32, many: usize) -> usize
    requires room { spare + many ≤ length free.old }
    ensures { result ≡ spare + many }
{
    for which in 0..many {
        free[spare + which] = block(blocks, chunk, which);
    }
    spare + many
}
