//! A change at a place of the trie: the way there is made mutable, and one cell is put.

ghost use Rattle.std.specs.Prelude.{◌≡◌, ◌+◌, ◌%◌, ◌≤◌, ℕ, List, IfOk, IfErr, length};
ghost use Rattle.trie_write.specs.Prelude.{AreExtents, Entry, in_chunk, Tree, leaf, extents_in, IsTop, Ready, Fork, GivenBack, IsPut, MayAskToPut};
ghost use Rattle.trie_write.specs.Prelude.{PutAsked, PutAsks, PutsChange, item_span, span, taken, Releases};

use super::laying::release_item;
use super::mutable::make_mutable;
use super::node_top::top_of;
use chunk_cells::extents::extents_of;
use chunk_cells::{CellRead, CellWrite, Extents};
use chunk_usage::{Path, Shortage, Space};
use packed_node::{Cell, Ref};
use shift_key::Key;

/// Cells side by side.
#[derive(Clone, Copy)]
pub struct Span {
    pub at: Ref,
    pub n: u32,
}

/// No cells.
pub const NO_CELLS: Span = Span { at: 0, n: 0 };

/// No item: it has no octets, and so no cells.
pub const NO_ITEM: Extents = Extents {
    len: 0,
    at: [0; 17],
};

/// What is put at a place, in which cells, and in place of which.
#[derive(Clone, Copy)]
pub struct CellChange {
    /// What the place's cell says then.
    pub cell: Cell,
    /// The cells that were taken for it, and written.
    pub new_twigs: Span,
    pub new_item: Extents,
    /// The cells that count no more once it is there.
    pub old_twigs: Span,
    pub old_item: Extents,
}

/// These cells don't count any more.
pub fn let_go<U: Space>(usage: &mut U, twigs: Span, item: &Extents)
    requires counted { (k : ℕ) → span twigs (in_chunk k) + item_span item.now (in_chunk k) ≤ (U.account usage.old).live k }
    requires twigs { twigs.at % 1024 + twigs.n ≤ 1024 }
    requires item { AreExtents item.now.len (extents_in item.now) }
    ensures { Releases U.account U.lacks (λ w. span twigs w + item_span item.now w) usage.old usage.new }
{
    usage.release(twigs.at, twigs.n);
    release_item(usage, item);
}

/// The root of the trie with the change at the first node along the key whose offset isn't before the place. Where there is no room
/// to make the way there mutable, the cells that were taken count no more. The path is noted, by which it may be found again.
pub fn put_change<C: CellWrite, U: Space>(
    cells: &mut C,
    usage: &mut U,
    root: Ref,
    key: &Key,
    place: u16,
    change: CellChange,
    path: Path,
) -> Result<Ref, Shortage>
    requires asks { PutAsked C.has U.account cells.old usage.old place key.now root change }
    requires ready { Ready C.kept C.given U.account cells.old usage.old }
    ensures put { IfOk result (λ new. (way : List Fork) (end u : Tree) → PutAsks C.has U.account cells.old usage.old place key.now root change way end u
        → IsPut C.has U.account cells.new usage.new place key.now way end u new) }
    ensures given_back { IfErr result (λ f. GivenBack C.has U.account U.lacks cells.old usage.old cells.new usage.new (taken change)
        (MayAskToPut C.has U.account cells.old usage.old place key.now root change) f) }
    ensures changes { PutsChange C.has C.kept C.given U.account cells.old usage.old cells.new usage.new place key.now root change }
{
    match make_mutable(cells, usage, root, key, place) {
        Err(full) => {
            let_go(usage, change.new_twigs, &change.new_item);
            Err(full)
        }
        Ok(slot) => {
            cells.put(slot.at, change.cell);
            let_go(usage, change.old_twigs, &change.old_item);
            usage.note(path);
            Ok(slot.root)
        }
    }
}

/// Where the item of the leaf lies that a cell says.
pub fn item_below<C: CellRead>(cells: &mut C, node: Cell) -> Extents
    requires { (e : Entry) × (x : _) × IsTop (C.has cells.old) 0 node (leaf e x) }
    ensures same { cells.new ≡ cells.old }
    ensures len { (e : Entry) (x : _) → IsTop (C.has cells.old) 0 node (leaf e x) → result.len ≡ length e.item }
    ensures there { (e : Entry) (x : _) → IsTop (C.has cells.old) 0 node (leaf e x) → extents_in result ≡ x }
{
    match top_of(node) {
        Err(leaf) => extents_of(cells, leaf),
        Ok(_) => NO_ITEM,
    }
}
