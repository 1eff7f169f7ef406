//! Cells by their references, in chunks of 1,024: what the trie is read from and written to.
//!
//! The trie's crates know cells by the two traits alone, so one thread's vector and words that other threads read meanwhile
//! serve them alike (docs/CELLS.md).
#![tactic(auto)]

ghost use Rattle.std.specs.Prelude.{◌≡◌, ◌≢◌, ◌+◌, ◌/◌, ◌^◌, ◌<◌, ◌≤◌, ℕ};

pub mod extents;
mod front;
pub mod plain;
mod reading;
mod writing;

pub use extents::{Extents, cells_for};
pub use front::begins_with;
use packed_node::{Cell, Ref};
pub use plain::PlainCells;
pub use reading::{read_front, read_item};
pub use writing::write_item;

/// Cells that can be read: a memory, which has some cell at some of the references.
pub trait CellRead {
    ghost use Rattle.std.specs.Prelude.{ℕ};
    ghost use Rattle.packed_node.specs.declared.Cell.{Cell};

    // The memory has this cell at this reference.
    ghost has: { Self → ℕ → Cell → Type 0 };

    /// The cell at a reference where there is one. Reading changes nothing.
    fn cell(&mut self, at: Ref) -> Cell
        requires there { (c : _) × has self.old at c }
        ensures same { self.new ≡ self.old }
        ensures value { (c : _) → has self.old at c → result ≡ c };
}

/// Cells that can be written, chunk by chunk. A chunk is free or given; only cells of a given chunk are written, and none
/// that belongs to a kept version of the trie.
pub trait CellWrite: CellRead {
    ghost use Rattle.std.specs.Prelude.{◌≡◌, ◌≢◌, ◌+◌, ◌/◌, ◌^◌, ◌<◌, ◌≤◌, ℕ, List, Bool, true, false, slice_set, Contains};
    ghost use Rattle.packed_node.specs.declared.Cell.{Cell};
    ghost use Rattle.chunk_cells.specs.Chunks.{IsGiven, IsFree};

    // Of each chunk, whether it is given.
    ghost given: { Self → List Bool };

    // The references that kept versions of the trie reach.
    ghost kept: { Self → List ℕ };

    /// Writes one cell.
    fn put(&mut self, at: Ref, cell: Cell)
        requires given { IsGiven (given self.old) (at / 1024) }
        requires unkept { ¬ Contains (kept self.old) at }
        ensures written { Self.has self.new at cell }
        ensures others { (q : ℕ) (c : Cell) → q ≢ at → Self.has self.old q c → Self.has self.new q c }
        ensures given { given self.new ≡ given self.old }
        ensures kept { kept self.new ≡ kept self.old };

    /// Copies n cells side by side to others.
    fn copy_row(&mut self, from: Ref, to: Ref, n: u32)
        requires inside { from + n ≤ 2 ^ 22 }
        requires within { to + n ≤ 2 ^ 22 }
        requires there { (i : ℕ) → i < n → (c : Cell) × Self.has self.old (from + i) c }
        requires apart { (i j : ℕ) → i < n → j < n → from + i ≢ to + j }
        requires given { (i : ℕ) → i < n → IsGiven (given self.old) ((to + i) / 1024) }
        requires unkept { (i : ℕ) → i < n → ¬ Contains (kept self.old) (to + i) }
        ensures copied { (i : ℕ) (c : Cell) → i < n → Self.has self.old (from + i) c → Self.has self.new (to + i) c }
        ensures others { (q : ℕ) (c : Cell) → ((i : ℕ) → i < n → q ≢ to + i) → Self.has self.old q c → Self.has self.new q c }
        ensures given { given self.new ≡ given self.old }
        ensures kept { kept self.new ≡ kept self.old };

    /// Makes a free chunk a given one.
    fn give(&mut self, chunk: u32)
        requires { IsFree (given self.old) chunk }
        ensures cells { (q : ℕ) (c : Cell) → Self.has self.old q c → Self.has self.new q c }
        ensures given { given self.new ≡ slice_set (given self.old) chunk true }
        ensures kept { kept self.new ≡ kept self.old };

    /// Makes a given chunk a free one, where no kept version reaches into it.
    fn free(&mut self, chunk: u32)
        requires given { IsGiven (given self.old) chunk }
        requires unkept { (q : ℕ) → Contains (kept self.old) q → q / 1024 ≢ chunk }
        ensures others { (q : ℕ) (c : Cell) → q / 1024 ≢ chunk → Self.has self.old q c → Self.has self.new q c }
        ensures given { given self.new ≡ slice_set (given self.old) chunk false }
        ensures kept { kept self.new ≡ kept self.old };
}
