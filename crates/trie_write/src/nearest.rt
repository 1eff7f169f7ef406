//! Where a key first differs from those that are there.

ghost use Rattle.std.specs.Prelude.{◌≡◌, ◌%◌, ◌^◌, ◌<◌, ℕ, List, count_ones};
ghost use Rattle.trie_write.specs.Prelude.{bit_at, Leads, at, IsKey, Tree, entries_of, IsTop, EachTells, Closest, Differs};

use super::node_top::top_of;
use chunk_cells::CellRead;
use packed_node::{Branch, Cell, Leaf};
use shift_key::{Difference, Key};
use trie_read::difference_at;

/// Where the key first differs from the nearest one below a node; `None` where the key is there.
pub fn compare<C: CellRead>(cells: &mut C, node: Cell, key: &Key) -> Option<Difference>
    requires stands { (t : Tree) × IsTop (C.has cells.old) 0 node t × EachTells Leads (entries_of t) }
    requires key { IsKey key.now }
    ensures same { cells.new ≡ cells.old }
    ensures value { (t : Tree) → IsTop (C.has cells.old) 0 node t → EachTells Leads (entries_of t) → Differs key.now (entries_of t) result }
{
    let leaf = nearest(cells, node, 0, key);
    difference_at(cells, leaf, key)
}

/// The leaf below a node whose key has the longest beginning in common with the key. Offsets are at least `low`.
fn nearest<C: CellRead>(cells: &mut C, node: Cell, low: u16, key: &Key) -> Leaf
    requires stands { (t : Tree) × IsTop (C.has cells.old) low node t }
    requires key { IsKey key.now }
    ensures same { cells.new ≡ cells.old }
    ensures value { (t : Tree) → IsTop (C.has cells.old) low node t → Closest (C.has cells.old) key.now (entries_of t) result }
{
    match top_of(node) {
        Err(leaf) => leaf,
        Ok(branch) => {
            let next = cells.cell(branch.twigs + way(branch, key));
            nearest(cells, next, branch.offset + 1, key)
        }
    }
}

/// The index of the key's twig, or of the first where it has none.
///
/// Any twig would do where the key has none: all keys below a branch agree before its offset, so the key parts from each at the same position.
fn way(branch: Branch, key: &Key) -> u32
    requires { IsKey key.now }
    ensures present { bit_at branch.bitmap (at key.now branch.offset) ≡ 1 → result ≡ count_ones (branch.bitmap % 2 ^ at key.now branch.offset) }
    ensures absent { (bit_at branch.bitmap (at key.now branch.offset) ≡ 1 → ⊥) → result ≡ 0 }
{
    let position = key.at(branch.offset);
    if branch.has_twig(position) {
        branch.twig_index(position)
    } else {
        0
    }
}
