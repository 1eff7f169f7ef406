//! Of each chunk, how many of its cells count: now, and at the last freeze.

ghost use Rattle.std.specs.Prelude.{◌≡◌, ◌≤◌, ◌<◌, ◌+◌, IfOk, false, true, count_by, if◌then◌else◌, length, nat_lt, replicate, slice_index, slice_set};
ghost use Rattle.chunk_usage.specs.Prelude.{IsMarked, row_of, has, is_low, is_thin, thin_row};

use chunk_sets::ChunkSet;
use std::alloc::{AllocError, Global};
use std::marker::Model;

/// A given chunk that isn't open is sparse where so many of its cells count, or fewer.
pub const SPARSE_CELLS: u32 = 256;

/// The counts of 1 to 4,096 chunks. What they were at the last freeze is noted of those alone that were set since, so a freeze,
/// and going back to it, cost what was changed.
#[derive(Drop)]
pub struct Counts {
    // Of each chunk, how many of its cells count.
    live: Vec<u32>,
    // The journal: of each chunk in `changed`, what its count was at the last freeze. The other counts are as they were.
    noted: Vec<u32>,
    changed: ChunkSet,
    // The chunks with a cell that counts, and how many they are.
    counted: ChunkSet,
    used: u32,
    // The chunks of which some cells count, but at most `SPARSE_CELLS`.
    thin: ChunkSet,
    // How many chunks have at most `SPARSE_CELLS` that count.
    low: u32,
}

impl Model for Counts {
    ghost use Rattle.chunk_usage.specs.Counting.{Counted};

    ghost Value = { Counted };

    ghost use Rattle.chunk_usage.specs.Counts.{counted_of, IsCounted};

    ghost view = { counted_of };

    ghost invariant = { IsCounted };
}

impl Counts {
    /// No cell counts, and none did.
    pub fn new(alloc: Global, chunks: u32) -> Result<Counts, AllocError>
        requires { chunks ≤ 4096 }
        ensures { IfOk result (λ c. c ≡ record { live = replicate chunks 0; last = replicate chunks 0 }) }
    {
        Ok(Counts {
            live: vec![in alloc; 0; chunks as usize]?,
            noted: vec![in alloc; 0; chunks as usize]?,
            changed: ChunkSet::new(alloc, chunks)?,
            counted: ChunkSet::new(alloc, chunks)?,
            used: 0,
            thin: ChunkSet::new(alloc, chunks)?,
            low: chunks,
        })
    }

    /// How many cells of a chunk count: 0 where there is no such chunk.
    #[inline]
    pub fn of(&self, chunk: u32) -> u32
        ensures { result ≡ slice_index self.now.live chunk }
    {
        let chunk = chunk as usize;
        if chunk < self.live.len() {
            self.live[chunk]
        } else {
            0
        }
    }

    /// Sets how many cells of a chunk count.
    #[inline]
    pub fn set(&mut self, chunk: u32, count: u32)
        requires { chunk < length self.old.live }
        ensures { self.new ≡ record self.old { live = slice_set self.old.live chunk count } }
    {
        let before = self.live[chunk as usize];
        note(&mut self.noted, &mut self.changed, chunk, before);
        self.live[chunk as usize] = count;
        mark(&mut self.counted, &mut self.used, chunk, before, count);
        put_if(&mut self.thin, chunk, is_thin(before), is_thin(count));
        self.low = self.low + one_if_low(count) - one_if_low(before);
    }

    /// No cell counts any more.
    pub fn clear(&mut self)
        ensures { self.new ≡ record self.old { live = replicate (length self.old.live) 0 } }
    {
        let mut from = 0;
        while let Some(chunk) = self.counted.first_from(from) {
            self.set(chunk, 0);
            from = chunk + 1;
        }
    }

    /// The counts as they are become those of the last freeze.
    pub fn keep(&mut self)
        ensures { self.new ≡ record self.old { last = self.old.live } }
    {
        self.changed.clear();
    }

    /// The counts become what they were at the last freeze.
    pub fn restore(&mut self)
        ensures { self.new ≡ record self.old { live = self.old.last } }
    {
        let mut from = 0;
        while let Some(chunk) = self.changed.first_from(from) {
            let count = self.noted[chunk as usize];
            self.set(chunk, count);
            from = chunk + 1;
        }
        self.changed.clear();
    }

    /// The chunks with a cell that counts.
    #[inline]
    pub fn counted(&self) -> &ChunkSet
        ensures { result.now ≡ row_of self.now.live }
    {
        &self.counted
    }

    /// The chunks of which some cells count, but few.
    #[inline]
    pub fn thin(&self) -> &ChunkSet
        ensures { result.now ≡ thin_row self.now.live }
    {
        &self.thin
    }

    /// How many chunks have a cell that counts.
    #[inline]
    pub fn used(&self) -> u32
        ensures { result ≡ count_by (nat_lt 0) self.now.live }
    {
        self.used
    }

    /// How many chunks have few enough cells that count to be sparse.
    #[inline]
    pub fn low(&self) -> u32
        ensures { result ≡ count_by is_low self.now.live }
    {
        self.low
    }
}

/// Notes what a chunk's count was, unless it is noted already.
#[inline]
fn note(noted: &mut [u32], changed: &mut ChunkSet, chunk: u32, count: u32)
    requires inside { chunk < length changed.old }
    requires same { length noted.old ≡ length changed.old }
    ensures changed { changed.new ≡ slice_set changed.old chunk true }
    ensures noted { noted.new ≡ (if has changed.old chunk then noted.old else slice_set noted.old chunk count) }
{
    if !changed.contains(chunk) {
        noted[chunk as usize] = count;
        changed.insert(chunk);
    }
}

/// Where a chunk's count leaves 0, or comes to it, the chunk is put in the set of those with a cell that counts, or taken out.
#[inline]
fn mark(counted: &mut ChunkSet, used: &mut u32, chunk: u32, before: u32, count: u32)
    requires { IsMarked counted.old used.old chunk before }
    ensures counted { counted.new ≡ slice_set counted.old chunk (nat_lt 0 count) }
    ensures used { used.new + (if nat_lt 0 before then 1 else 0) ≡ used.old + (if nat_lt 0 count then 1 else 0) }
{
    if before == 0 {
        if count != 0 {
            counted.insert(chunk);
            *used += 1;
        }
    } else if count == 0 {
        counted.remove(chunk);
        *used -= 1;
    }
}

/// Whether some cells count, but few.
#[inline]
fn is_thin(count: u32) -> bool
    ensures { result ≡ is_thin count }
{
    0 < count && count <= SPARSE_CELLS
}

/// Puts a chunk in a set, or takes it out, where it wasn't so before.
#[inline]
fn put_if(set: &mut ChunkSet, chunk: u32, was: bool, member: bool)
    requires inside { chunk < length set.old }
    requires was { has set.old chunk ≡ was }
    ensures { set.new ≡ slice_set set.old chunk member }
{
    if was {
        if !member {
            set.remove(chunk);
        }
    } else if member {
        set.insert(chunk);
    }
}

/// 1 where so few cells count that the chunk may be sparse, else 0.
#[inline]
pub fn one_if_low(count: u32) -> u32
    ensures { result ≡ (if is_low count then 1 else 0) }
{
    (count <= SPARSE_CELLS) as u32
}
