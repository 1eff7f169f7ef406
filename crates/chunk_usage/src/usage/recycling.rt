//! Chunks that nothing reaches, given back.

ghost use Rattle.std.specs.Prelude.{◌≡◌, ◌+◌, ◌/◌, ◌<◌, ℕ, true, false, not, count_by, length, All, Contains, IfSome};
ghost use Rattle.chunk_usage.specs.Prelude.{Without, has, Row, is_bump, is_in_rows, is_unreached, CanFree, FreesChunks, FreesUnreached};

use super::Usage;
use crate::bump::Bump;
use crate::kept_version::KeptVersion;
use chunk_cells::CellWrite;
use chunk_sets::ChunkSet;

impl Usage {
    /// Gives back each given chunk that isn't the bump chunk and wasn't it at the last freeze, has no live cell and is in no kept
    /// version's chunk set. Tells how many.
    ///
    /// Each reason is of another moment: counts are of the working set, chunk sets of versions that are read, the bump chunk of what is handed
    /// out next, and the bump chunk of the last freeze of where a rollback goes on.
    pub fn free_unreached<C: CellWrite>(&mut self, cells: &mut C) -> u32
        requires same { C.given cells.old ≡ self.old.given }
        requires in_rows { (q : ℕ) → Contains (C.kept cells.old) q → is_in_rows self.old.rows (q / 1024) ≡ true }
        ensures usage { FreesUnreached self.old self.new result }
        ensures cells { FreesChunks C.has C.kept C.given (is_unreached self.old) cells.old cells.new self.new.given }
    {
        // Mostly so, and no set is gone through.
        if self.all_used() {
            return 0;
        }
        let state = &mut *self.state;
        let found = &mut state.unreached;
        found.set_difference(&state.given, state.counts.counted());
        leave_out_kept(found, &state.slots[..state.kept]);
        leave_out(found, state.bump);
        leave_out(found, state.fender);
        let count = free_all(&state.unreached, &mut state.given, cells);
        state.free += count;
        count
    }

    // Whether each given chunk has a cell that counts, by how many there are. Then nothing is unreached.
    fn all_used(&self) -> bool
        ensures { result ≡ true → (k : ℕ) → is_unreached self.now k ≡ false }
    {
        let state = &*self.state;
        state.counts.used() + state.free == state.given.chunks()
    }
}

/// Takes out the chunks of kept versions.
fn leave_out_kept(found: &mut ChunkSet, kept: &[KeptVersion])
    requires { All (λ (r : Row). length r.chunks ≡ length found.old) kept.now }
    ensures { Without found.old found.new (is_in_rows kept.now) }
{
    for version in kept.iter() {
        found.subtract(version.chunks());
    }
}

/// Takes out a bump chunk, where there is one.
fn leave_out(found: &mut ChunkSet, bump: Option<Bump>)
    requires { IfSome bump (λ o. o.chunk < length found.old) }
    ensures { Without found.old found.new (is_bump bump) }
{
    if let Some(bump) = bump {
        found.remove(bump.chunk);
    }
}

/// Frees each chunk of a set. Tells how many.
fn free_all<C: CellWrite>(chunks: &ChunkSet, given: &mut ChunkSet, cells: &mut C) -> u32
    requires { CanFree C.kept C.given chunks.now given.old cells.old }
    ensures left { Without given.old given.new (has chunks.now) }
    ensures count { count_by not given.new ≡ count_by not given.old + result }
    ensures cells { FreesChunks C.has C.kept C.given (has chunks.now) cells.old cells.new given.new }
{
    let mut count = 0;
    let mut from = 0;
    while let Some(chunk) = chunks.first_from(from) {
        given.remove(chunk);
        cells.free(chunk);
        count += 1;
        from = chunk + 1;
    }
    count
}
