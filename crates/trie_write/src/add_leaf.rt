//! A leaf more, at a node where its key first differs from those below.

ghost use Rattle.std.specs.Prelude.{◌≡◌, ◌+◌, ◌<◌, ◌≤◌, ℕ, List, IfOk, IfErr, count_ones};
ghost use Rattle.trie_write.specs.Prelude.{IsBranch, Tree, AddsLeaf, CanAddLeaf, CanJoin, CanPair, IsLeafAdded, JoinAsks, LeafAsks, MayAskForLeaf};
ghost use Rattle.trie_write.specs.Prelude.{PairAsks, WithAsks, twigs_on_path, LacksRoom, TakesCells};

use super::alloc::{copy_apart, room_for};
use super::change::{CellChange, NO_CELLS, NO_ITEM, Span};
use super::node_top::branch_at;
use chunk_cells::{CellWrite, Extents};
use chunk_usage::{Shortage, Space};
use packed_node::{Branch, Cell, Node, bitmap};
use shift_key::{Difference, Key};

/// The place of one of two twigs.
fn place_of_two(position: u8, other: u8) -> u32
    ensures before { position < other → result ≡ 0 }
    ensures behind { other ≤ position → result ≡ 1 }
    ensures two { result < 2 }
{
    if position < other {
        return 0;
    }
    1
}

/// The change to a branch, whose twigs and leaf are new.
fn leaf_added(branch: Branch, twigs: u32, item: &Extents, old_twigs: Span) -> CellChange
    requires { IsBranch branch }
    ensures { IsLeafAdded branch twigs item.now old_twigs result }
{
    CellChange {
        cell: Node::Branch(branch).pack(),
        new_twigs: Span {
            at: branch.twigs,
            n: twigs,
        },
        new_item: *item,
        old_twigs,
        old_item: NO_ITEM,
    }
}

/// What makes of a node a branch of two, the node itself and the leaf.
fn pair_with<C: CellWrite, U: Space>(
    cells: &mut C,
    usage: &mut U,
    key: &Key,
    first: Difference,
    node: Cell,
    item: &Extents,
) -> Result<CellChange, Shortage>
    requires { CanPair C.has C.kept C.given U.account cells.old usage.old key.now first node item.now }
    ensures added { IfOk result (λ change. AddsLeaf C.has U.account usage.old cells.new usage.new key.now first item.now
        (PairAsks C.has U.account cells.old usage.old key.now first node item.now) change) }
    ensures lacks { IfErr result (λ f. LacksRoom C.has U.account U.lacks cells.old usage.old cells.new usage.new (λ n. n ≡ 2) f) }
    ensures takes { TakesCells C.has C.kept C.given U.account cells.old usage.old cells.new usage.new 2 }
{
    let position = key.at(first.place);
    let to = room_for(cells, usage, 2)?;
    let index = place_of_two(position, first.position);
    cells.put(to + index, Node::Leaf(item.leaf()).pack());
    cells.put(to + (1 - index), node);
    let two = Branch {
        offset: first.place,
        bitmap: bitmap::pair(position, first.position),
        twigs: to,
    };
    Ok(leaf_added(two, 2, item, NO_CELLS))
}

/// What makes of a branch, whose offset is the place, the same with the leaf among its twigs, which are copied.
fn join_twigs<C: CellWrite, U: Space>(
    cells: &mut C,
    usage: &mut U,
    key: &Key,
    first: Difference,
    branch: Branch,
    item: &Extents,
) -> Result<CellChange, Shortage>
    requires { CanJoin C.has C.kept C.given U.account cells.old usage.old key.now first branch item.now }
    ensures added { IfOk result (λ change. AddsLeaf C.has U.account usage.old cells.new usage.new key.now first item.now
        (JoinAsks C.has U.account cells.old usage.old key.now first branch item.now) change) }
    ensures lacks { IfErr result (λ f. LacksRoom C.has U.account U.lacks cells.old usage.old cells.new usage.new (λ n. n ≡ count_ones branch.bitmap + 1) f) }
    ensures takes { TakesCells C.has C.kept C.given U.account cells.old usage.old cells.new usage.new (count_ones branch.bitmap + 1) }
{
    let position = key.at(first.place);
    let old_twigs = Span {
        at: branch.twigs,
        n: branch.twig_count(),
    };
    let index = branch.twig_index(position);
    let to = copy_apart(cells, usage, old_twigs, index, 0, 1)?;
    cells.put(to + index, Node::Leaf(item.leaf()).pack());
    let more = Branch {
        offset: first.place,
        bitmap: bitmap::with(branch.bitmap, position),
        twigs: to,
    };
    Ok(leaf_added(more, old_twigs.n + 1, item, old_twigs))
}

/// What makes of a node the same with the leaf: among the twigs of its branch, which are copied, or beside it in a branch of two.
pub fn with_leaf<C: CellWrite, U: Space>(
    cells: &mut C,
    usage: &mut U,
    key: &Key,
    first: Difference,
    node: Cell,
    item: &Extents,
) -> Result<CellChange, Shortage>
    requires { CanAddLeaf C.has C.kept C.given U.account cells.old usage.old key.now first node item.now }
    ensures added { IfOk result (λ change. AddsLeaf C.has U.account usage.old cells.new usage.new key.now first item.now
        (LeafAsks C.has U.account cells.old usage.old key.now first node item.now) change) }
    ensures consumes { (octets : List ℕ) (end : Tree) → WithAsks C.has U.account cells.old usage.old key.now octets first node item.now end
        → (U.account usage.new).consumed ≤ (U.account usage.old).consumed + (2 + twigs_on_path key.now end) }
    ensures lacks { IfErr result (λ f. LacksRoom C.has U.account U.lacks cells.old usage.old cells.new usage.new
        (MayAskForLeaf C.has U.account cells.old usage.old key.now first node item.now) f) }
    ensures takes { TakesCells C.has C.kept C.given U.account cells.old usage.old cells.new usage.new 47 }
{
    match branch_at(node, first.place) {
        None => pair_with(cells, usage, key, first, node, item),
        Some(branch) => join_twigs(cells, usage, key, first, branch, item),
    }
}
