//! One step of the way down along a key.

ghost use Rattle.std.specs.Prelude.{◌≡◌, ◌<◌, ℕ, List, [], IfSome, None};
ghost use Rattle.trie_write.specs.Prelude.{top_cell, Tree, IsTop, Fork, plug, IsWay, HasWay, IsDescent, IsLastDescent};

use super::node_top::{branch_above, key_twig};
use super::paths::Trace;
use chunk_cells::CellRead;
use packed_node::{Branch, Cell};
use shift_key::Key;

/// A branch on the way, and the twig that the way takes there.
#[derive(Clone, Copy)]
pub struct Descent {
    pub branch: Branch,
    /// The twig's place among those of the branch.
    pub index: u32,
    /// The node at the twig.
    pub next: Cell,
}

/// The branch at a node, where its offset comes before the place; none where the way ends.
pub fn next_descent<C: CellRead>(
    cells: &mut C,
    key: &Key,
    place: u16,
    node: Cell,
) -> Option<Descent>
    requires way { (low : ℕ) × HasWay (C.has cells.old) place low key.now node }
    ensures same { cells.new ≡ cells.old }
    ensures on { IfSome result (λ descent. (low : ℕ) (way : List Fork) (end : Tree)
        → IsTop (C.has cells.old) low node (plug way end) → IsWay place key.now way end
        → IsDescent place descent way end) }
    ensures none { result ≡ None → (low : ℕ) (way : List Fork) (end : Tree)
        → IsTop (C.has cells.old) low node (plug way end) → IsWay place key.now way end → way ≡ [] }
{
    let branch = branch_above(node, place)?;
    let index = key_twig(branch, key);
    Some(Descent {
        branch,
        index,
        next: cells.cell(branch.twigs + index),
    })
}

/// The last branch on the way to the key's leaf; none where the node is that leaf. Offsets are at least `low`. The trace goes on with the
/// way.
pub fn last_descent<C: CellRead>(
    cells: &mut C,
    key: &Key,
    low: u16,
    node: Cell,
    trace: &mut Trace,
) -> Option<Descent>
    requires way { HasWay (C.has cells.old) u16.MAX low key.now node }
    ensures same { cells.new ≡ cells.old }
    ensures last { IfSome result (λ descent. (way : List Fork) (end : Tree) → IsTop (C.has cells.old) low node (plug way end) → IsWay u16.MAX key.now way end
        → IsLastDescent descent way end) }
    ensures none { result ≡ None → (way : List Fork) (end : Tree)
        → IsTop (C.has cells.old) low node (plug way end) → IsWay u16.MAX key.now way end → way ≡ [] }
{
    let descent = next_descent(cells, key, u16::MAX, node)?;
    trace.descent(key.at(descent.branch.offset));
    match last_descent(cells, key, descent.branch.offset + 1, descent.next, trace) {
        None => Some(descent),
        Some(further) => Some(further),
    }
}

/// The node at the end of the way. Offsets are at least `low`. The trace goes on with the way.
pub fn end_node<C: CellRead>(
    cells: &mut C,
    key: &Key,
    place: u16,
    low: u16,
    node: Cell,
    trace: &mut Trace,
) -> Cell
    requires way { HasWay (C.has cells.old) place low key.now node }
    ensures same { cells.new ≡ cells.old }
    ensures end { (way : List Fork) (end : Tree) → IsTop (C.has cells.old) low node (plug way end) → IsWay place key.now way end → result ≡ top_cell end }
{
    match next_descent(cells, key, place, node) {
        None => node,
        Some(descent) => {
            trace.descent(key.at(descent.branch.offset));
            let beyond = descent.branch.offset + 1;
            end_node(cells, key, place, beyond, descent.next, trace)
        }
    }
}
