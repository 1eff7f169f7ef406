//! Cells of one thread, in a vector.

ghost use Rattle.std.specs.Prelude.{◌≡◌, ◌≢◌, ◌+◌, ◌<◌, ◌≤◌, ◌*◌, ℕ, List, [], false, Some, IfOk, length, replicate, slice_get};
ghost use Rattle.chunk_cells.specs.Prelude.{Cell, CanCopyAmong};

use super::{CellRead, CellWrite};
use packed_node::{CHUNK_CELLS, Cell, Ref};
use std::alloc::{AllocError, Global};

/// The cells of some chunks, 1 to 4,096, all of which are free at first. No version is kept.
#[derive(Drop)]
pub struct PlainCells {
    cells: Vec<Cell>,
    given: Vec<bool>,
    ghost whole: { length cells.items ≡ 1024 * length given.items },
    ghost few: { length given.items ≤ 4096 },
}

impl PlainCells {
    /// All chunks are free. `AllocError` is want of memory: a chunk takes 16 KiB.
    pub fn new(alloc: Global, chunks: u32) -> Result<PlainCells, AllocError>
        requires some { 1 ≤ chunks }
        requires few { chunks ≤ 4096 }
        ensures free { IfOk result (λ p. ⟦<PlainCells as CellWrite>⟧.given p ≡ replicate chunks false) }
        ensures unkept { IfOk result (λ p. ⟦<PlainCells as CellWrite>⟧.kept p ≡ []) }
    {
        let cells = vec![in alloc; Cell { big: 0, small: 0 }; (chunks * CHUNK_CELLS) as usize]?;
        let given = vec![in alloc; false; chunks as usize]?;
        Ok(PlainCells { cells, given })
    }
}

impl CellRead for PlainCells {
    ghost has = { λ s r c. slice_get s.cells.items r ≡ Some c };

    #[inline]
    fn cell(&mut self, at: Ref) -> Cell {
        self.cells[at as usize]
    }
}

/// Cells that are only read can be lent to several readers.
impl CellRead for &PlainCells {
    ghost has = { λ s r c. slice_get s.now.cells.items r ≡ Some c };

    #[inline]
    fn cell(&mut self, at: Ref) -> Cell {
        self.cells[at as usize]
    }
}

impl CellWrite for PlainCells {
    ghost given = { λ s. s.given.items };

    ghost kept = { λ s. [] };

    fn put(&mut self, at: Ref, cell: Cell) {
        self.cells[at as usize] = cell;
    }

    fn copy_row(&mut self, from: Ref, to: Ref, n: u32) {
        copy_among(&mut self.cells, from, to, n);
    }

    fn give(&mut self, chunk: u32) {
        self.given[chunk as usize] = true;
    }

    fn free(&mut self, chunk: u32) {
        self.given[chunk as usize] = false;
    }
}

/// Copies n of some cells to others.
fn copy_among(cells: &mut [Cell], from: Ref, to: Ref, n: u32)
    requires { CanCopyAmong (length cells.old) from to n }
    ensures copied { (i : ℕ) (c : Cell) → i < n → slice_get cells.old (from + i) ≡ Some c → slice_get cells.new (to + i) ≡ Some c }
    ensures others { (q : ℕ) (c : Cell) → ((i : ℕ) → i < n → q ≢ to + i) → slice_get cells.old q ≡ Some c → slice_get cells.new q ≡ Some c }
    ensures length { length cells.new ≡ length cells.old }
{
    for k in 0..n {
        cells[(to + k) as usize] = cells[(from + k) as usize];
    }
}
