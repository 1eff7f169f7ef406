//! Whether something lies in sparse chunks.

ghost use Rattle.std.specs.Prelude.{◌≡◌, ◌≤◌, ℕ, List, true, false, None, IfSome};
ghost use Rattle.evacuate.specs.Prelude.{HasItem, is_sparse, IsBehind, HasSparse, IsCleared, TellsSparse};

use chunk_cells::CellRead;
use chunk_cells::extents::{LAST_OCTETS, LINKED_OCTETS, next_extent};
use chunk_usage::Usage;
use packed_node::{Ref, chunk_of};

/// Where an extent begins, and how many octets its item has from there on.
#[derive(Clone, Copy)]
pub struct Behind {
    pub at: Ref,
    pub len: u16,
}

/// The extent behind the one that begins here, where its item has so many octets from there on.
#[inline]
pub fn extent_behind<C: CellRead>(cells: &mut C, at: Ref, len: u16) -> Option<Behind>
    requires there { (item : List ℕ) × HasItem (C.has cells.old) at len item }
    ensures same { cells.new ≡ cells.old }
    ensures behind { IfSome result (λ next. IsBehind C.has at len cells.old cells.new next.at next.len) }
    ensures last { result ≡ None → len ≤ 4096 }
{
    if len as usize <= LAST_OCTETS {
        return None;
    }
    let next = next_extent(cells, at);
    Some(Behind {
        at: next,
        len: len - LINKED_OCTETS as u16,
    })
}

/// Whether cells of some sparse chunk count.
pub fn is_any_sparse(usage: &Usage) -> bool
    ensures some { result ≡ true → HasSparse usage.now }
    ensures none { result ≡ false → IsCleared usage.now }
{
    usage.sparse_from(0).is_some()
}

/// A chunk is sparse where so many of its cells count, or fewer.
const SPARSE_CELLS: u32 = 256;

/// Whether a chunk is sparse. Of most more cells count, which is looked at first.
#[inline]
pub fn is_chunk_sparse(usage: &Usage, chunk: u32) -> bool
    ensures { result ≡ is_sparse usage.now chunk }
{
    if usage.live(chunk) > SPARSE_CELLS {
        return false;
    }
    usage.is_sparse(chunk)
}

/// Whether some extent of an item lies in a sparse chunk. It begins here, and has so many octets.
pub fn is_item_sparse<C: CellRead>(cells: &mut C, usage: &Usage, at: Ref, len: u16) -> bool
    requires there { (item : List ℕ) × HasItem (C.has cells.old) at len item }
    ensures same { cells.new ≡ cells.old }
    ensures tells { TellsSparse (C.has cells.old) usage.now at len result }
{
    if is_chunk_sparse(usage, chunk_of(at)) {
        return true;
    }
    match extent_behind(cells, at, len) {
        None => false,
        Some(next) => is_item_sparse(cells, usage, next.at, next.len),
    }
}
