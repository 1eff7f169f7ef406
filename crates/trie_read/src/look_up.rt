//! The leaf of a key, and how many cells are read for it.

ghost use Rattle.std.specs.Prelude.{◌≡◌, ◌+◌, ◌<◌, ◌≤◌, ℕ, List, Some, length, IsTrue, ◌↔◌};
ghost use Rattle.trie_read.specs.Prelude.{Cell, Leads, Entry, Stands, EachTells, IsBlank, Whichever, Gives, IsLeafOf, LeadsKey};

use super::leaf::is_of;
use super::steps::Steps;
use super::top::Root;
use chunk_cells::CellRead;
use chunk_cells::extents::content_cells_for;
use packed_node::{Cell, Leaf, Node, Ref};
use shift_key::Key;
use std::marker::Brand;
use std::sync::ledger::{Blank, Ledger};

/// Where the item of the key lies; `None` where the key is not there.
pub fn get<C: CellRead>(cells: &mut C, root: Root, key: &Key) -> Option<Leaf>
    requires { (version : List Entry) × Stands (C.has cells.old) root version × EachTells Leads version }
    ensures same { cells.new ≡ cells.old }
    ensures value { Whichever (C.has cells.old) root (λ version. Gives (C.has cells.old) key.now version result) }
{
    get_from::<C, Brand>(cells, root, key, Blank::new(1))
}

/// The same; nobody asks for what was counted.
fn get_from<C: CellRead, L: Ledger>(
    cells: &mut C,
    root: Root,
    key: &Key,
    blank: Blank,
) -> Option<Leaf>
    requires stands { (version : List Entry) × Stands (C.has cells.old) root version × EachTells Leads version }
    requires blank { IsBlank L.name L.parts blank.name blank.parts }
    ensures same { cells.new ≡ cells.old }
    ensures value { Whichever (C.has cells.old) root (λ version. Gives (C.has cells.old) key.now version result) }
{
    let mut steps = Steps::<L>::new(blank);
    get_counted(cells, root, key, &mut steps)
}

/// Where the item of the key lies, as `get` tells it. Each cell that is read is a step.
pub fn get_counted<C: CellRead, L: Ledger>(
    cells: &mut C,
    root: Root,
    key: &Key,
    steps: &mut Steps<L>,
) -> Option<Leaf>
    requires { (version : List Entry) × Stands (C.has cells.old) root version × EachTells Leads version }
    ensures same { cells.new ≡ cells.old }
    ensures value { Whichever (C.has cells.old) root (λ version. Gives (C.has cells.old) key.now version result) }
    ensures counted { (at : ℕ) → root ≡ Some at → steps.old < steps.new }
    ensures few { steps.new ≤ steps.old + (length key.now + 18) }
{
    match root {
        None => None,
        Some(at) => match leaf_for(cells, at, key, steps) {
            None => None,
            Some(leaf) => {
                if is_of_key(cells, leaf, key, steps) {
                    Some(leaf)
                } else {
                    None
                }
            }
        },
    }
}

/// A cell. Reading it is a step.
fn read<C: CellRead, L: Ledger>(cells: &mut C, at: Ref, steps: &mut Steps<L>) -> Cell
    requires there { (c : Cell) × C.has cells.old at c }
    ensures same { cells.new ≡ cells.old }
    ensures value { (c : Cell) → C.has cells.old at c → result ≡ c }
    ensures counted { steps.new ≡ steps.old + 1 }
{
    steps.take(1);
    cells.cell(at)
}

/// The leaf that the key's positions lead to, which may be that of another key.
fn leaf_for<C: CellRead, L: Ledger>(
    cells: &mut C,
    root: Ref,
    key: &Key,
    steps: &mut Steps<L>,
) -> Option<Leaf>
    requires { (version : List Entry) × Stands (C.has cells.old) (Some root) version }
    ensures same { cells.new ≡ cells.old }
    ensures leaf { (version : List Entry) → Stands (C.has cells.old) (Some root) version → LeadsKey (C.has cells.old) key.now version result }
    ensures counted { steps.old < steps.new }
    ensures few { steps.new ≤ steps.old + (length key.now + 2) }
{
    let len = key.len();
    let mut node = Node::of(read(cells, root, steps));
    loop {
        match node {
            Node::Leaf(leaf) => return Some(leaf),
            Node::Branch(branch) => {
                if branch.offset > len {
                    return None;
                }
                let index = branch.twig_at(key.position(branch.offset))?;
                node = Node::of(read(cells, branch.twigs + index, steps));
            }
        }
    }
}

/// Whether the item of a leaf is that of the key. As many cells are counted as the key's name takes.
fn is_of_key<C: CellRead, L: Ledger>(
    cells: &mut C,
    leaf: Leaf,
    key: &Key,
    steps: &mut Steps<L>,
) -> bool
    requires { (e : Entry) × IsLeafOf (C.has cells.old) e leaf × Leads e.key e.item }
    ensures same { cells.new ≡ cells.old }
    ensures value { (e : Entry) → IsLeafOf (C.has cells.old) e leaf → Leads e.key e.item → IsTrue result ↔ (e.key ≡ key.now) }
    ensures counted { steps.old ≤ steps.new }
    ensures few { steps.new ≤ steps.old + 16 }
{
    let octets = key.wire();
    steps.take(content_cells_for(octets.len() as u16) as u64);
    is_of(cells, leaf, key)
}
