//! Questions about images: which cells they have, and which chunks they meet.
ghost use Rattle.std.specs.Prelude.{◌≡◌, ◌==◌, ◌&&◌, map};
ghost use Rattle.pin_core.specs.Prelude.{list_any, has_cell, meets, is_kept_cell, is_kept_chunk, is_in_version, is_distinct, is_rooted};

use crate::kept::{CellAt, Kept};
use crate::words::CHUNK_CELLS;

fn has_cell_at(cells: &[CellAt], at: u32) -> bool
    ensures { result ≡ has_cell cells.now at }
{
    cells.iter().any(|cell| cell.at == at)
}

fn meets_chunk(cells: &[CellAt], chunk: u32) -> bool
    ensures { result ≡ meets cells.now chunk }
{
    cells.iter().any(|cell| cell.at / CHUNK_CELLS == chunk)
}

/// Whether some kept image has this cell.
pub fn is_in_kept_image(kept: &[Kept], at: u32) -> bool
    ensures { result ≡ is_kept_cell kept.now at }
{
    kept.iter().any(|k| has_cell_at(&k.image.cells, at))
}

/// Whether some kept image has a cell in this chunk.
pub fn meets_kept_image(kept: &[Kept], chunk: u32) -> bool
    ensures { result ≡ is_kept_chunk kept.now chunk }
{
    kept.iter().any(|k| meets_chunk(&k.image.cells, chunk))
}

/// Whether this version is kept and its image has this cell.
pub fn is_in_image_of(kept: &[Kept], version: u64, at: u32) -> bool
    ensures { result ≡ is_in_version kept.now version at }
{
    kept.iter().any(|k| k.version == version && has_cell_at(&k.image.cells, at))
}

fn has_reference(cells: &[u32], at: u32) -> bool
    ensures { result ≡ list_any (λ r. r == at) cells.now }
{
    cells.iter().any(|cell| *cell == at)
}

/// Whether no reference stands twice.
pub fn has_no_duplicate(cells: &[u32]) -> bool
    ensures { result ≡ is_distinct cells.now }
{
    for (i, cell) in cells.iter().enumerate() {
        if has_reference(&cells[i + 1..], *cell) {
            return false;
        }
    }
    true
}

/// Whether the root is among the cells, or there is neither.
pub fn has_its_root(root: Option<u32>, cells: &[u32]) -> bool
    ensures { result ≡ is_rooted root cells.now }
{
    match root {
        None => cells.is_empty(),
        Some(root) => has_reference(cells, root),
    }
}
