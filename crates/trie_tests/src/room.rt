//! Cells and a space in which nothing is.

ghost use Rattle.std.specs.Prelude.{◌≡◌, ◌≤◌, [], None, IfOk};
ghost use Rattle.trie_tests.specs.Tries.{IsTrie};

use chunk_cells::{CellRead, CellWrite, PlainCells};
use chunk_usage::{Space, Usage};
use std::alloc::{AllocError, Global};

/// So many chunks, none of which is given, for two passes.
pub(crate) fn unused_room(alloc: Global, chunks: u32) -> Result<(PlainCells, Usage), AllocError>
    requires some_chunks { 1 ≤ chunks }
    requires few_chunks { chunks ≤ 4096 }
    ensures rows { IfOk result (λ r. r.1.rows ≡ []) }
    ensures passes { IfOk result (λ r. r.1.passes ≡ 2) }
    ensures trie { IfOk result (λ r. IsTrie ⟦<PlainCells as CellRead>⟧.has ⟦<PlainCells as CellWrite>⟧.kept ⟦<PlainCells as CellWrite>⟧.given ⟦<Usage as Space>⟧.account
        r.0 r.1 None) }
{
    let memory = PlainCells::new(alloc, chunks)?;
    let usage = Usage::new(alloc, chunks, 2)?;
    Ok((memory, usage))
}
