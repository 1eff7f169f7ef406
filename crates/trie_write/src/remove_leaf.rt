//! A branch without one of its leaves.

ghost use Rattle.std.specs.Prelude.{◌≡◌, ◌+◌, ◌-◌, ◌≤◌, IfOk, IfErr, count_ones};
ghost use Rattle.trie_write.specs.Prelude.{CanTakeLeaf, TakesLeaf, IsNoItem, LacksRoom, OnlyAdds};

use super::alloc::copy_apart;
use super::change::{CellChange, NO_CELLS, NO_ITEM, Span, item_below};
use super::descend::Descent;
use chunk_cells::{CellWrite, Extents};
use chunk_usage::{Shortage, Space};
use packed_node::{Branch, Cell, Node, bitmap};
use shift_key::Key;

/// The change to what is left of a branch, in these cells.
fn leaf_gone(cell: Cell, new_twigs: Span, old_twigs: Span, old_item: Extents) -> CellChange
    ensures cell { result.cell ≡ cell }
    ensures new_twigs { result.new_twigs ≡ new_twigs }
    ensures new_item { IsNoItem result.new_item }
    ensures old_twigs { result.old_twigs ≡ old_twigs }
    ensures old_item { result.old_item ≡ old_item }
{
    CellChange {
        cell,
        new_twigs,
        new_item: NO_ITEM,
        old_twigs,
        old_item,
    }
}

/// What makes of a branch the same without the key's leaf: the others side by side in other cells, or of two twigs the other one.
pub fn without_leaf<C: CellWrite, U: Space>(
    cells: &mut C,
    usage: &mut U,
    key: &Key,
    descent: Descent,
) -> Result<CellChange, Shortage>
    requires { CanTakeLeaf C.has C.kept C.given U.account cells.old usage.old key.now descent }
    ensures takes { IfOk result (λ change. TakesLeaf C.has U.account cells.old usage.old cells.new usage.new key.now descent change) }
    ensures consumes { (U.account usage.new).consumed + 1 ≤ (U.account usage.old).consumed + count_ones descent.branch.bitmap }
    ensures lacks { IfErr result (λ f. LacksRoom C.has U.account U.lacks cells.old usage.old cells.new usage.new
        (λ n. n ≡ count_ones descent.branch.bitmap - 1) f) }
    ensures adds { OnlyAdds C.has C.kept C.given U.account cells.old usage.old cells.new usage.new }
{
    let old_twigs = Span {
        at: descent.branch.twigs,
        n: descent.branch.twig_count(),
    };
    let old_item = item_below(cells, descent.next);
    if old_twigs.n == 2 {
        let other = cells.cell(descent.branch.twigs + (1 - descent.index));
        return Ok(leaf_gone(other, NO_CELLS, old_twigs, old_item));
    }
    let to = copy_apart(cells, usage, old_twigs, descent.index, 1, 0)?;
    let n = old_twigs.n - 1;
    let fewer = Branch {
        offset: descent.branch.offset,
        bitmap: bitmap::without(descent.branch.bitmap, key.at(descent.branch.offset)),
        twigs: to,
    };
    let cell = Node::Branch(fewer).pack();
    Ok(leaf_gone(cell, Span { at: to, n }, old_twigs, old_item))
}
