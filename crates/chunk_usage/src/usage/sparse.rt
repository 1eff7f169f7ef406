//! Chunks of which few cells count.

ghost use Rattle.std.specs.Prelude.{◌≡◌, ◌<◌, ◌≤◌, ℕ, true, false, IfSome, None, length, slice_index};
ghost use Rattle.chunk_usage.specs.Prelude.{is_bump, is_sparse, bump_low, sparse_count};

use super::Usage;
use crate::bump::Bump;
use crate::counts::{SPARSE_CELLS, one_if_low};

impl Usage {
    /// Whether a chunk is given and isn't the bump chunk, and at most 256 of its cells count.
    pub fn is_sparse(&self, chunk: u32) -> bool
        ensures { result ≡ is_sparse self.now chunk }
    {
        self.state.given.contains(chunk)
            && self.state.counts.of(chunk) <= SPARSE_CELLS
            && !is_chunk_of(self.state.bump, chunk)
    }

    /// How many chunks are sparse.
    pub fn sparse(&self) -> u32
        ensures { result ≡ sparse_count self.now }
    {
        // Of a free chunk no cell counts.
        let state = &*self.state;
        state.counts.low() - state.free - self.low_bump()
    }

    /// The number at which the first of the sparse chunks with a cell that counts was given: what `leads_before` is asked. By a guess
    /// of how old chunks are, on which no proof rests.
    pub fn first_sparse(&self) -> u64 {
        let mut first = u64::MAX;
        let mut from = 0;
        while let Some(chunk) = self.sparse_from(from) {
            first = first.min(self.state.ages.of(chunk));
            from = chunk + 1;
        }
        first
    }

    /// The first sparse chunk with a cell that counts that isn't before a place.
    pub fn sparse_from(&self, from: u32) -> Option<u32>
        ensures at_or_after { IfSome result (λ chunk. from ≤ chunk) }
        ensures within { IfSome result (λ chunk. chunk < length self.now.given) }
        ensures sparse { IfSome result (λ chunk. is_sparse self.now chunk ≡ true) }
        ensures some { IfSome result (λ chunk. 0 < slice_index self.now.live chunk) }
        ensures none { result ≡ None → (k : ℕ) → from ≤ k → is_sparse self.now k ≡ true → slice_index self.now.live k ≡ 0 }
    {
        let thin = self.state.counts.thin();
        let first = thin.first_from(from)?;
        if !is_chunk_of(self.state.bump, first) {
            return Some(first);
        }
        thin.first_from(first + 1)
    }

    /// Whether the cells of a chunk lead to no chunk that was given at this number, or later; for 0 never. By the same guess.
    #[inline]
    pub fn leads_before(&self, chunk: u32, number: u64) -> bool
        ensures { number ≡ 0 → result ≡ false }
    {
        self.state.ages.leads_before(chunk, number)
    }

    // 1 where few cells of the bump chunk count, else 0.
    fn low_bump(&self) -> u32
        ensures { result ≡ bump_low self.now.live self.now.bump }
    {
        match self.state.bump {
            Some(bump) => one_if_low(self.state.counts.of(bump.chunk)),
            None => 0,
        }
    }
}

/// Whether it is the bump chunk.
fn is_chunk_of(bump: Option<Bump>, chunk: u32) -> bool
    ensures { result ≡ is_bump bump chunk }
{
    bump.is_some_and(|bump| bump.chunk == chunk)
}
