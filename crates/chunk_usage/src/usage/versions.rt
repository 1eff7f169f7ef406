//! Kept versions.

ghost use Rattle.std.specs.Prelude.{◌≡◌, ◌≢◌, ◌<◌, ◌≤◌, ◌+◌, ◌-◌, ℕ, true, false, length, IfSome, take};
ghost use Rattle.chunk_usage.specs.Prelude.{All, position_or_len, Row, Rising, is_used, is_mutable, newest, AreOlder, CanForget, dropped};
ghost use Rattle.chunk_usage.specs.Prelude.{frozen, is_among, is_kept, is_row_of, narrowed, restored, rows_of, without_row};

use super::Usage;
use crate::bump::chunk_of;
use crate::kept_version::KeptVersion;

impl Usage {
    /// The kept versions, the oldest first.
    pub fn kept(&self) -> &[KeptVersion]
        ensures { result.now ≡ self.now.rows }
    {
        let state = &*self.state;
        &state.slots[..state.kept]
    }

    /// Keeps the chunks with live cells for a version. What is in use now is not written until the version is dropped.
    pub fn freeze(&mut self, version: u64)
        requires room { length self.old.rows < self.old.passes + 2 }
        requires newer { AreOlder self.old.rows version }
        ensures after { self.new ≡ frozen self.old version }
        ensures settled { (q : ℕ) → is_used self.new q ≡ true → is_mutable self.new q ≡ false }
    {
        let state = &mut *self.state;
        let slot = &mut state.slots[state.kept];
        slot.set(version, state.counts.counted());
        state.kept += 1;
        state.ages.settle(&state.since, chunk_of(state.fender));
        state.since.clear();
        state.counts.keep();
        state.fender = state.bump;
    }

    /// Goes back to the live cells and the bump chunk of the last freeze. Chunks that were given since stay given.
    pub fn restore(&mut self)
        ensures after { self.new ≡ restored self.old }
        ensures used { (q : ℕ) → is_used self.old q ≡ true → is_mutable self.old q ≡ false → is_used self.new q ≡ true }
    {
        let state = &mut *self.state;
        state.counts.restore();
        state.bump = state.fender;
    }

    /// Keeps a version no more.
    pub fn drop_version(&mut self, version: u64)
        requires kept { is_kept self.old.rows version ≡ true }
        requires old { IfSome (newest self.old.rows) (λ r. r.version ≢ version) }
        ensures { self.new ≡ dropped self.old version }
    {
        let state = &mut *self.state;
        forget(&mut state.slots, state.kept, version);
        state.kept -= 1;
    }

    /// Keeps no versions but these. The newest is one of them.
    pub fn keep_only(&mut self, versions: &[u64])
        requires { IfSome (newest self.old.rows) (λ r. is_among versions.now r.version ≡ true) }
        ensures { self.new ≡ narrowed self.old versions.now }
    {
        let state = &mut *self.state;
        state.kept = gather(&mut state.slots, state.kept, versions);
    }
}

/// Moves those of the first slots that have one of these versions to the front, in their order. Tells how many they are.
fn gather(slots: &mut [KeptVersion], rows: usize, versions: &[u64]) -> usize
    requires { rows ≤ length slots.old }
    ensures length { length slots.new ≡ length slots.old }
    ensures within { result ≤ rows }
    ensures rows { take result slots.new ≡ rows_of versions.now (take rows slots.old) }
    ensures wide { (n : ℕ) → All (λ (r : Row). length r.chunks ≡ n) slots.old → All (λ (r : Row). length r.chunks ≡ n) slots.new }
{
    let mut kept = 0;
    for place in 0..rows {
        if slots[place].is_among(versions) {
            slots.swap(kept, place);
            kept += 1;
        }
    }
    kept
}

/// Takes a version from those in the first slots. Its slot is then the last of theirs.
fn forget(slots: &mut [KeptVersion], rows: usize, version: u64)
    requires { CanForget slots.old rows version }
    ensures length { length slots.new ≡ length slots.old }
    ensures rows { take (rows - 1) slots.new ≡ without_row version (take rows slots.old) }
    ensures wide { (n : ℕ) → All (λ (r : Row). length r.chunks ≡ n) slots.old → All (λ (r : Row). length r.chunks ≡ n) slots.new }
{
    put_last(&mut slots[..rows], version);
}

/// Moves a version behind all others.
fn put_last(rows: &mut [KeptVersion], version: u64)
    requires kept { is_kept rows.old version ≡ true }
    requires rising { Rising rows.old }
    ensures length { length rows.new ≡ length rows.old }
    ensures others { take (length rows.old - 1) rows.new ≡ without_row version rows.old }
    ensures wide { (n : ℕ) → All (λ (r : Row). length r.chunks ≡ n) rows.old → All (λ (r : Row). length r.chunks ≡ n) rows.new }
{
    let place = place_of(rows, version);
    rows[place..].rotate_left(1);
}

/// The place of a version.
fn place_of(rows: &[KeptVersion], version: u64) -> usize
    requires { is_kept rows.now version ≡ true }
    ensures within { result < length rows.now }
    ensures first { result ≡ position_or_len (is_row_of version) rows.now }
{
    for (place, row) in rows.iter().enumerate() {
        if row.is_of(version) {
            return place;
        }
    }
    rows.len()
}
