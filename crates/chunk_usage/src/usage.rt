//! What is known of the chunks.

ghost use Rattle.std.specs.Prelude.{◌≡◌, ◌≤◌, ◌<◌, ◌↔◌, ◌/◌, false, IfOk, IsTrue, All, length, replicate, slice_index};
ghost use Rattle.chunk_usage.specs.Prelude.{IsFree, IsLedger, Row, unused, free_count, reserve_of};

mod as_space;
mod cells;
mod hinting;
mod recycling;
mod sparse;
mod versions;

use crate::bump::Bump;
use crate::counts::Counts;
use crate::kept_version::KeptVersion;
use chunk_hints::{Ages, Hints};
use chunk_sets::ChunkSet;
use std::alloc::{AllocError, Global};
use std::marker::Model;

/// Which of 1 to 4,096 chunks are given, how many of their cells count, and which kept versions have cells in them. It is one piece of
/// memory, so a usage goes from owner to owner as an address.
#[derive(Drop)]
pub struct Usage {
    state: Box<State>,
}

#[derive(Drop)]
struct State {
    // How many cells of each chunk count, now and at the last freeze.
    counts: Counts,
    // The chunks that are given, and those of them that were given since the last freeze.
    given: ChunkSet,
    since: ChunkSet,
    // How many chunks are free.
    free: u32,
    // The bump chunk with its counter, and the fender: the same at the last freeze.
    bump: Option<Bump>,
    fender: Option<Bump>,
    // The first `kept` of these are the kept versions, the oldest first.
    slots: Vec<KeptVersion>,
    kept: usize,
    passes: u32,
    // Room for the chunks that `free_unreached` finds.
    unreached: ChunkSet,
    // Which chunks their cells may lead to.
    ages: Ages,
    // On which paths they were written.
    hints: Hints,
}

impl Model for Usage {
    ghost use Rattle.chunk_usage.specs.Ledger.{Ledger};

    ghost Value = { Ledger };

    ghost use Rattle.chunk_usage.specs.Inside.{ledger_of, IsWhole};

    ghost view = { λ u. ledger_of u.state.value };

    ghost invariant = { λ u. IsWhole u.state.value };
}

impl Usage {
    /// All chunks are free. `AllocError` is want of memory: all that is ever needed is taken here.
    pub fn new(alloc: Global, chunks: u32, passes: u32) -> Result<Usage, AllocError>
        requires some_chunks { 1 ≤ chunks }
        requires few_chunks { chunks ≤ 4096 }
        requires some_passes { 1 ≤ passes }
        requires few_passes { passes ≤ 64 }
        ensures { IfOk result (λ u. u ≡ unused chunks passes) }
    {
        let counts = Counts::new(alloc, chunks)?;
        let (given, since, unreached) = empty_sets(alloc, chunks)?;
        let slots = slots_for(alloc, passes + 2, chunks)?;
        let (ages, hints) = guesses(alloc, chunks)?;
        let state = State {
            counts,
            given,
            since,
            free: chunks,
            bump: None,
            fender: None,
            slots,
            kept: 0,
            passes,
            unreached,
            ages,
            hints,
        };
        Ok(Usage {
            state: Box::new(alloc, state)?,
        })
    }

    /// Tells a proof what holds of each usage. Nothing is done.
    pub fn known(&self)
        ensures { IsLedger self.now }
    {
        let _ = &self.state; // for the proof
    }

    /// How many chunks there are.
    #[inline]
    pub fn chunks(&self) -> u32
        ensures { result ≡ length self.now.given }
    {
        self.state.given.chunks()
    }

    /// How many chunks are free.
    #[inline]
    pub fn free(&self) -> u32
        ensures { result ≡ free_count self.now }
    {
        self.state.free
    }

    /// How many chunks are kept free by `alloc`.
    #[inline]
    pub fn reserve(&self) -> u32
        ensures { result ≡ reserve_of self.now }
    {
        self.state.given.chunks() / 4
    }

    /// Whether there is such a chunk, and it is free.
    #[inline]
    pub fn is_free(&self, chunk: u32) -> bool
        ensures { IsTrue result ↔ IsFree self.now.given chunk }
    {
        chunk < self.state.given.chunks() && !self.state.given.contains(chunk)
    }

    /// How many cells of a chunk count: 0 where there is no such chunk.
    #[inline]
    pub fn live(&self, chunk: u32) -> u32
        ensures { result ≡ slice_index self.now.live chunk }
    {
        self.state.counts.of(chunk)
    }
}

/// Room for so many kept versions.
fn slots_for(alloc: Global, count: u32, chunks: u32) -> Result<Vec<KeptVersion>, AllocError>
    requires { chunks ≤ 4096 }
    ensures count { IfOk result (λ slots. length slots.items ≡ count) }
    ensures wide { IfOk result (λ slots. All (λ (r : Row). length r.chunks ≡ chunks) slots.items) }
{
    let mut slots = Vec::new(alloc);
    for made in 0..count {
        slots.push(KeptVersion::new(alloc, chunks)?)?;
    }
    Ok(slots)
}

/// Three empty sets.
fn empty_sets(alloc: Global, chunks: u32) -> Result<(ChunkSet, ChunkSet, ChunkSet), AllocError>
    requires { chunks ≤ 4096 }
    ensures { IfOk result (λ sets. (sets.0 ≡ replicate chunks false) × (sets.1 ≡ replicate chunks false) × (sets.2 ≡ replicate chunks false)) }
{
    let first = ChunkSet::new(alloc, chunks)?;
    let second = ChunkSet::new(alloc, chunks)?;
    let third = ChunkSet::new(alloc, chunks)?;
    Ok((first, second, third))
}

/// Nothing is guessed yet.
fn guesses(alloc: Global, chunks: u32) -> Result<(Ages, Hints), AllocError>
    requires { chunks ≤ 4096 }
{
    let ages = Ages::new(alloc, chunks)?;
    let hints = Hints::new(alloc, chunks)?;
    Ok((ages, hints))
}
