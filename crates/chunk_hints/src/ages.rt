//! How old chunks are, and so which others their cells may lead to.
//!
//! A cell leads to cells that were there before it, or that the same transaction hands out. So where a chunk was filled, and a version
//! frozen, before another chunk was given, no cell of the first leads to the second. This is used to save work and nothing else:
//! nothing is proved of these numbers, and no answer rests on them. No call takes memory but `new`.

ghost use Rattle.std.specs.Prelude.{◌≡◌, ◌≤◌, false, length};
ghost use Rattle.chunk_hints.specs.Rooms.{age_room};

use chunk_sets::ChunkSet;
use std::alloc::{AllocError, Global};

/// When each chunk was given, and filled.
#[derive(Drop)]
pub struct Ages {
    // At which number each chunk was given last: the first at 1.
    given: Vec<u64>,
    // How many had been given at the first freeze behind a chunk's last cell. Until then it is a number that none reaches.
    settled: Vec<u64>,
    // How many were given, and how many had been at the last freeze.
    count: u64,
    frozen: u64,
}

impl Ages {
    /// No chunk was given.
    pub fn new(alloc: Global, chunks: u32) -> Result<Ages, AllocError> {
        Ok(Ages {
            given: vec![in alloc; 0; chunks as usize]?,
            settled: vec![in alloc; u64::MAX; chunks as usize]?,
            count: 0,
            frozen: 0,
        })
    }

    /// The number at which a chunk was given last.
    pub fn of(&self, chunk: u32) -> u64 {
        match self.given.get(chunk as usize) {
            Some(number) => *number,
            None => 0,
        }
    }

    /// Whether the cells of a chunk lead to none that was given at this number, or later. None does so for 0.
    #[inline]
    pub fn leads_before(&self, chunk: u32, number: u64) -> bool
        ensures { number ≡ 0 → result ≡ false }
    {
        match self.settled.get(chunk as usize) {
            Some(settled) => *settled < number,
            None => false,
        }
    }

    /// A chunk is given.
    pub fn give(&mut self, chunk: u32)
        ensures room { age_room self.new ≡ age_room self.old }
    {
        self.count = self.count.saturating_add(1);
        put(&mut self.given, chunk, self.count);
        put(&mut self.settled, chunk, u64::MAX);
    }

    /// The cells of a bump chunk, and of the chunks that were given since the last freeze, are frozen.
    pub fn settle(&mut self, recent: &ChunkSet, bump: Option<u32>)
        requires { length recent.now ≤ 4096 }
        ensures room { age_room self.new ≡ age_room self.old }
    {
        if let Some(bump) = bump {
            put(&mut self.settled, bump, self.count);
        }
        // Mostly none was given, and no set is gone through.
        if self.frozen != self.count {
            self.frozen = self.count;
            self.settle_all(recent);
        }
    }

    // The cells of these chunks are frozen.
    fn settle_all(&mut self, chunks: &ChunkSet)
        requires { length chunks.now ≤ 4096 }
        ensures room { age_room self.new ≡ age_room self.old }
    {
        let mut from = 0;
        while let Some(chunk) = chunks.first_from(from) {
            put(&mut self.settled, chunk, self.count);
            from = chunk + 1;
        }
    }
}

/// Writes a chunk's number.
fn put(numbers: &mut [u64], chunk: u32, number: u64) {
    if let Some(position) = numbers.get_mut(chunk as usize) {
        *position = number;
    }
}
