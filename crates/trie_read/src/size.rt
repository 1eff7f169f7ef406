//! How many names and nodes a trie has.

ghost use Rattle.std.specs.Prelude.{◌≡◌, ◌≤◌, ◌^◌, ℕ, List, length};
ghost use Rattle.trie_read.specs.Prelude.{Entry, Tree, entries_of, Stands, nodes_of_keys, keys_of, nodes_of, IsTop};

use super::top::Root;
use chunk_cells::CellRead;
use packed_node::{Cell, Node};

/// How many names there are.
pub fn count<C: CellRead>(cells: &mut C, root: Root) -> u64
    requires { (version : List Entry) × Stands (C.has cells.old) root version }
    ensures same { cells.new ≡ cells.old }
    ensures value { (version : List Entry) → Stands (C.has cells.old) root version → result ≡ length version }
{
    size_at(cells, root).names
}

/// How many nodes there are: leaves and branches.
pub fn nodes<C: CellRead>(cells: &mut C, root: Root) -> u64
    requires { (version : List Entry) × Stands (C.has cells.old) root version }
    ensures same { cells.new ≡ cells.old }
    ensures value { (version : List Entry) → Stands (C.has cells.old) root version → result ≡ nodes_of_keys (keys_of version) }
{
    size_at(cells, root).nodes
}

#[derive(Clone, Copy)]
struct Size {
    names: u64,
    nodes: u64,
}

fn size_at<C: CellRead>(cells: &mut C, root: Root) -> Size
    requires { (version : List Entry) × Stands (C.has cells.old) root version }
    ensures same { cells.new ≡ cells.old }
    ensures names { (version : List Entry) → Stands (C.has cells.old) root version → result.names ≡ length version }
    ensures nodes { (version : List Entry) → Stands (C.has cells.old) root version → result.nodes ≡ nodes_of_keys (keys_of version) }
{
    match root {
        None => Size { names: 0, nodes: 0 },
        Some(at) => {
            let node = cells.cell(at);
            size_below(cells, node, 0)
        }
    }
}

/// The size of what is below a node, whose offset is at least `low`, and the node itself.
fn size_below<C: CellRead>(cells: &mut C, node: Cell, low: u16) -> Size
    requires { (t : Tree) × IsTop (C.has cells.old) low node t × (nodes_of t ≤ 2 ^ 22) }
    ensures same { cells.new ≡ cells.old }
    ensures names { (t : Tree) → IsTop (C.has cells.old) low node t → result.names ≡ length (entries_of t) }
    ensures nodes { (t : Tree) → IsTop (C.has cells.old) low node t → result.nodes ≡ nodes_of t }
{
    let mut whole = Size { names: 0, nodes: 1 };
    match Node::of(node) {
        Node::Leaf(_) => whole.names = 1,
        Node::Branch(branch) => {
            for i in 0..branch.twig_count() {
                let twig = cells.cell(branch.twigs + i);
                let part = size_below(cells, twig, branch.offset + 1);
                whole.names += part.names;
                whole.nodes += part.nodes;
            }
        }
    }
    whole
}
