//! Where in a trie the cells of each chunk lie, once the trie was made from nothing.
//!
//! It was made in the order of its keys, each row of twigs behind all below it, and chunk was filled after chunk. So each chunk has a part of it
//! between two paths, and below a branch whose row lies in the chunk that was reached last there is none but that.

ghost use Rattle.std.specs.Prelude.{◌≡◌, ◌≤◌, ℕ, List};
ghost use Rattle.evacuate.specs.Prelude.{account_of, Entry, HasItem, HasTrie, Tree, IsStood, IsTop};

use super::finding::{last_position, position_from};
use super::sparse::extent_behind;
use super::surveys::survey_gap;
use chunk_cells::CellRead;
use chunk_usage::{Path, Usage};
use packed_node::{Cell, Node, Ref, chunk_of};
use trie_read::Root;

/// Notes a path for the chunks of an item's extents. The item begins here, and has so many octets.
fn reach_item<C: CellRead>(cells: &mut C, usage: &mut Usage, at: Ref, len: u16, path: Path)
    requires there { (item : List ℕ) × HasItem (C.has cells.old) at len item }
    ensures cells { cells.new ≡ cells.old }
    ensures usage { usage.new ≡ usage.old }
{
    usage.reach(chunk_of(at), path);
    if let Some(next) = extent_behind(cells, at, len) {
        reach_item(cells, usage, next.at, next.len, path);
    }
}

/// Notes the paths below a node, which lies on a path that began with so many steps: for an item that without its last step, as a branch may
/// come between later. Offsets are at least `low`.
fn reach_below<C: CellRead>(
    cells: &mut C,
    usage: &mut Usage,
    node: Cell,
    low: u16,
    path: Path,
    steps: u32,
)
    requires top { (t : Tree) × IsTop (C.has cells.old) low node t }
    requires low { low ≤ 504 }
    ensures cells { cells.new ≡ cells.old }
    ensures usage { usage.new ≡ usage.old }
{
    match Node::of(node) {
        Node::Leaf(leaf) => reach_item(cells, usage, leaf.at, leaf.len, path.shorter()),
        Node::Branch(branch) => {
            let chunk = chunk_of(branch.twigs);
            if usage.is_reached(chunk) {
                return usage.reach(chunk, path.then(steps, last_position(branch)));
            }
            let mut position = position_from(branch, 0);
            for i in 0..branch.twig_count() {
                let twig = cells.cell(branch.twigs + i);
                let on = path.then(steps, position);
                let low = branch.offset + 1;
                reach_below(cells, usage, twig, low, on, steps.saturating_add(1));
                position = position_from(branch, position.saturating_add(1));
            }
            usage.reach(chunk, path.then(steps, last_position(branch)));
        }
    }
}

/// Notes in which part of a trie that was made from nothing each chunk has its cells. So their lists are made when they are needed, by a walk
/// over that part alone, and that of the last chunk, which is filled on, is made now.
pub fn find_spans<C: CellRead>(cells: &mut C, usage: &mut Usage, root: Root)
    requires stands { (version : List Entry) × HasTrie C.has account_of cells.old usage.old root version }
    ensures cells { cells.new ≡ cells.old }
    ensures usage { usage.new ≡ usage.old }
{
    if let Some(at) = root {
        find_below(cells, usage, at);
    }
}

/// The same of the trie that stands at a cell.
fn find_below<C: CellRead>(cells: &mut C, usage: &mut Usage, root: Ref)
    requires stood { IsStood C.has cells.old usage.old root }
    ensures cells { cells.new ≡ cells.old }
    ensures usage { usage.new ≡ usage.old }
{
    let top = cells.cell(root);
    reach_below(cells, usage, top, 0, Path::none(), 0);
    if let Some(gap) = usage.last_gap() {
        survey_gap(cells, usage, root, gap);
        usage.note(gap.span.first);
    }
}
