//! Cells that are handed out, and released.

ghost use Rattle.std.specs.Prelude.{◌≡◌, ◌<◌, ◌≤◌, ◌-◌, ◌+◌, ◌*◌, ◌/◌, ◌%◌, ◌↔◌, ◌&&◌, ℕ, false, true, nat_le, IfSome, None, Some, IsErr, slice_index, slice_index_or};
ghost use Rattle.chunk_usage.specs.Prelude.{free_count, reserve_of, filled, is_bump, is_used, is_mutable, is_unmixed, IsShort, all_released};
ghost use Rattle.chunk_usage.specs.Prelude.{allocated, grant_of, lowest_free, next_cell, released, roomy, shortage, taken, with_bump};
ghost use Rattle.chunk_usage.specs.Prelude.{new_grant, newly_taken, closed, Grows};

use super::Usage;
use crate::bump::{Bump, chunk_of};
use crate::space::{Grant, Shortage};
use packed_node::{CHUNK_CELLS, Ref};

impl Usage {
    /// Hands out n cells: of the bump chunk where it has n left, else of the lowest free chunk, which becomes the bump chunk. The
    /// reserve is kept free.
    pub fn alloc(&mut self, n: u32) -> Result<Grant, Shortage>
        requires some { 0 < n }
        requires few { n ≤ 256 }
        ensures grant { result ≡ grant_of (reserve_of self.old) self.old n }
        ensures after { self.new ≡ allocated (reserve_of self.old) self.old n }
        ensures short { IsErr result ↔ IsShort (reserve_of self.old) self.old n }
    {
        self.alloc_beside(self.reserve(), n)
    }

    /// The same where the reserve is handed out too.
    pub fn alloc_reserve(&mut self, n: u32) -> Result<Grant, Shortage>
        requires some { 0 < n }
        requires few { n ≤ 256 }
        ensures grant { result ≡ grant_of 0 self.old n }
        ensures after { self.new ≡ allocated 0 self.old n }
        ensures short { IsErr result ↔ IsShort 0 self.old n }
    {
        self.alloc_beside(0, n)
    }

    // Hands out n cells, and keeps so many chunks free.
    #[inline(always)]
    fn alloc_beside(&mut self, kept_free: u32, n: u32) -> Result<Grant, Shortage>
        requires some { 0 < n }
        requires few { n ≤ 256 }
        ensures grant { result ≡ grant_of kept_free self.old n }
        ensures after { self.new ≡ allocated kept_free self.old n }
        ensures short { IsErr result ↔ IsShort kept_free self.old n }
    {
        if let Some(bump) = self.roomy_bump(n) {
            let at = self.take(bump, n);
            return Ok(Grant { at, given: None });
        }
        if self.free() <= kept_free {
            return Err(self.shortage(n));
        }
        Ok(self.take_new(n))
    }

    /// Whether a cell wasn't handed out at the last freeze.
    pub fn is_mutable(&self, at: Ref) -> bool
        ensures { result ≡ is_mutable self.now at }
    {
        self.state.since.contains(at / CHUNK_CELLS) || was_left(self.state.fender, at)
    }

    /// These cells, of one chunk, don't count any more.
    pub fn release(&mut self, at: Ref, n: u32)
        requires counted { n ≤ slice_index self.old.live (at / 1024) }
        requires together { at % 1024 + n ≤ 1024 }
        ensures { self.new ≡ released self.old at n }
    {
        let chunk = at / CHUNK_CELLS;
        if chunk < self.state.given.chunks() {
            let live = self.state.counts.of(chunk);
            self.state.counts.set(chunk, live - n);
        }
    }

    /// No cell counts any more.
    pub fn release_all(&mut self)
        ensures { self.new ≡ all_released self.old }
    {
        self.state.counts.clear();
    }

    /// The bump chunk counts as filled, so that the next cells come from another one.
    pub fn fresh(&mut self)
        ensures after { self.new ≡ closed self.old }
        ensures grows { Grows (is_used self.old) (is_used self.new) (is_mutable self.old) (is_mutable self.new) }
    {
        if let Some(bump) = &mut self.state.bump {
            bump.filled = CHUNK_CELLS;
        }
    }

    /// The bump chunk, where it was given since the last freeze and all cells that were handed out of it count.
    pub fn unmixed_bump(&self) -> Option<u32>
        ensures some { IfSome result (λ chunk. is_unmixed self.now chunk ≡ true) }
        ensures none { result ≡ None → (k : ℕ) → is_unmixed self.now k ≡ false }
    {
        match self.state.bump {
            Some(bump) if self.is_unmixed(bump) => Some(bump.chunk),
            _ => None,
        }
    }

    // Whether a bump chunk was given since the last freeze, and all cells that were handed out of it count.
    fn is_unmixed(&self, bump: Bump) -> bool
        ensures { result ≡ (slice_index_or self.now.since bump.chunk false && nat_le bump.filled (slice_index self.now.live bump.chunk)) }
    {
        self.state.since.contains(bump.chunk) && bump.filled <= self.state.counts.of(bump.chunk)
    }

    // The bump chunk, where it has n cells left.
    fn roomy_bump(&self, n: u32) -> Option<Bump>
        ensures { result ≡ roomy self.now.bump n }
    {
        match self.state.bump {
            Some(bump) if n <= CHUNK_CELLS - bump.filled => Some(bump),
            _ => None,
        }
    }

    // Makes the lowest free chunk the bump chunk.
    fn bump_lowest(&mut self) -> Bump
        requires { 0 < free_count self.old }
        ensures chunk { result.chunk ≡ lowest_free self.old }
        ensures filled { result.filled ≡ 0 }
        ensures after { self.new ≡ with_bump self.old (lowest_free self.old) }
    {
        let state = &mut *self.state;
        let chunk = state.given.first_absent();
        state.given.insert(chunk);
        state.since.insert(chunk);
        state.ages.give(chunk);
        state.hints.begin(chunk, chunk_of(state.bump));
        state.free -= 1;
        let bump = Bump { chunk, filled: 0 };
        state.bump = Some(bump);
        bump
    }

    // Hands out n cells of the lowest free chunk, which becomes the bump chunk.
    fn take_new(&mut self, n: u32) -> Grant
        requires free { 0 < free_count self.old }
        requires few { n ≤ 256 }
        ensures grant { result ≡ new_grant self.old }
        ensures after { self.new ≡ newly_taken self.old n }
    {
        let bump = self.bump_lowest();
        let at = self.take(bump, n);
        Grant {
            at,
            given: Some(bump.chunk),
        }
    }

    // Hands out n cells of the bump chunk, and gives the first.
    fn take(&mut self, from: Bump, n: u32) -> Ref
        requires opened { self.old.bump ≡ Some from }
        requires room { n ≤ 1024 - from.filled }
        ensures at { result ≡ next_cell from }
        ensures after { self.new ≡ taken self.old from n }
    {
        let live = self.state.counts.of(from.chunk);
        self.state.counts.set(from.chunk, live + n);
        self.state.bump = Some(Bump {
            chunk: from.chunk,
            filled: from.filled + n,
        });
        from.chunk * CHUNK_CELLS + from.filled
    }

    // Why n cells can't be handed out.
    fn shortage(&self, n: u32) -> Shortage
        ensures { result ≡ shortage self.now n }
    {
        let left = match self.state.bump {
            Some(bump) => CHUNK_CELLS - bump.filled,
            None => 0,
        };
        Shortage {
            needed: n,
            left,
            free: self.free(),
            reserve: self.reserve(),
        }
    }
}

/// Whether a cell is one of those that the bump chunk had left at the fender.
fn was_left(from: Option<Bump>, at: Ref) -> bool
    ensures { result ≡ (is_bump from (at / 1024) && nat_le (filled from) (at % 1024)) }
{
    from.is_some_and(|open| open.chunk == at / CHUNK_CELLS && open.filled <= at % CHUNK_CELLS)
}
