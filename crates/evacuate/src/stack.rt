//! Walks through a trie to what lies in sparse chunks.

ghost use Rattle.std.specs.Prelude.{◌≡◌, ◌≢◌, ◌<◌, ◌≤◌, ℕ, List, true, false, count_ones, slice_index};
ghost use Rattle.evacuate.specs.Prelude.{HasItem, Tree, IsTop, TellsSparse, Found, FoundBelow, NoneBelow, StackKept};

use super::finding::position_from;
use super::path_walk::{NO_OFFSET, descent_on};
use super::sparse::{is_chunk_sparse, is_item_sparse};
use chunk_cells::CellRead;
use chunk_usage::{Path, Usage};
use packed_node::{Branch, Cell, Leaf, Node, chunk_of};

/// The way to a node. Offsets rise along it, so each has a place of its own.
#[derive(Clone, Copy)]
pub struct Stack {
    /// Which twig it takes of the branch at an offset.
    pub indices: [u8; 504],
    /// It takes twigs of branches before this offset: that of the node that it leads to, or 504 where that is a leaf.
    pub end: u16,
}

impl Stack {
    /// The way to the root itself.
    pub fn new() -> Stack {
        Stack {
            indices: [0; 504],
            end: 0,
        }
    }

    /// The first twig of a branch that a walk goes to: where it goes on along the stack that of the stack.
    fn first_twig(&self, branch: Branch, resumed: bool) -> u32
        requires { branch.offset ≤ 503 }
        ensures { resumed ≡ false → result ≡ 0 }
    {
        if resumed && branch.offset < self.end {
            self.index_at(branch.offset)
        } else {
            0
        }
    }

    /// Which twig it takes of the branch at an offset.
    pub fn index_at(&self, offset: u16) -> u32
        requires { offset ≤ 503 }
        ensures { result ≡ slice_index self.now.indices offset }
    {
        self.indices[offset as usize] as u32
    }

    /// Takes a twig of the branch at an offset.
    pub fn take(&mut self, offset: u16, index: u32)
        requires early { offset ≤ 503 }
        requires few { index < 256 }
        ensures taken { slice_index self.new.indices offset ≡ index }
        ensures others { (i : ℕ) → i ≢ offset → slice_index self.new.indices i ≡ slice_index self.old.indices i }
    {
        self.indices[offset as usize] = index as u8;
    }
}

/// Goes down from a node, whose offset is at least `low`, to the first whose twigs, or some extent of whose item, lie in a sparse chunk;
/// the stack then leads there. A walk that goes on leaves out what lies before the stack. Where `before` isn't 0, it also leaves out what is below twigs
/// that seem to lead to no chunk that was given at that number, or later.
pub fn next_sparse<C: CellRead>(
    cells: &mut C,
    usage: &Usage,
    stack: &mut Stack,
    node: Cell,
    low: u16,
    resumed: bool,
    before: u64,
) -> bool
    requires top { (t : Tree) × IsTop (C.has cells.old) low node t }
    requires low { low ≤ 504 }
    ensures kept { StackKept cells.old cells.new low stack.old stack.new }
    ensures found { result ≡ true → FoundBelow (C.has cells.old) usage.now low node stack.new }
    ensures none { result ≡ false → resumed ≡ false → before ≡ 0 → NoneBelow (C.has cells.old) usage.now low node }
{
    match Node::of(node) {
        Node::Leaf(leaf) => ends_at_leaf(cells, usage, stack, leaf),
        Node::Branch(branch) => {
            let chunk = chunk_of(branch.twigs);
            if usage.is_sparse(chunk) {
                stack.end = branch.offset;
                return true;
            }
            if usage.leads_before(chunk, before) {
                return false;
            }
            let first = stack.first_twig(branch, resumed);
            for i in first..branch.twig_count() {
                stack.take(branch.offset, i);
                let twig = cells.cell(branch.twigs + i);
                let on = resumed && i == first;
                if next_sparse(cells, usage, stack, twig, branch.offset + 1, on, before) {
                    return true;
                }
            }
            false
        }
    }
}

/// Whether some extent of a leaf's item lies in a sparse chunk; the stack then leads to the leaf.
pub fn ends_at_leaf<C: CellRead>(
    cells: &mut C,
    usage: &Usage,
    stack: &mut Stack,
    leaf: Leaf,
) -> bool
    requires there { (item : List ℕ) × HasItem (C.has cells.old) leaf.at leaf.len item }
    ensures same { cells.new ≡ cells.old }
    ensures tells { TellsSparse (C.has cells.old) usage.now leaf.at leaf.len result }
    ensures end { result ≡ true → stack.new.end ≡ 504 }
    ensures indices { stack.new.indices ≡ stack.old.indices }
{
    let sparse = is_item_sparse(cells, usage, leaf.at, leaf.len);
    if sparse {
        stack.end = NO_OFFSET;
    }
    sparse
}

/// So many nodes are passed before a path is given up.
const MOST_NODES: u32 = 300;

/// A way down: the path from the root to a node, of so many steps, and what it is to go on along.
#[derive(Clone, Copy)]
struct Course {
    gone: Path,
    steps: u32,
    on: Path,
}

impl Course {
    /// From the root along a path.
    fn along(path: Path) -> Course {
        Course {
            gone: Path::none(),
            steps: 0,
            on: path,
        }
    }

    /// It goes on to the twig of a position, and along a path from there.
    fn to(self, position: u8, on: Path) -> Course {
        Course {
            gone: self.gone.then(self.steps, position),
            steps: self.steps.saturating_add(1),
            on,
        }
    }
}

/// What a walk may pass yet, and the path of the leaf that it passed last. That leads past all twigs above the leaf, and doesn't fork.
#[derive(Clone, Copy)]
struct Search {
    nodes: u32,
    leaf: Path,
}

/// The twigs that a path goes on to: those before `end` from `first` on, which has a position.
#[derive(Clone, Copy)]
struct Onward {
    first: u32,
    end: u32,
    position: u8,
    path: Path,
}

/// Which twigs of a branch a path goes on to.
fn twigs_on(branch: Branch, path: Path) -> Onward
    ensures { result.end ≤ count_ones branch.bitmap }
{
    match descent_on(Node::Branch(branch), path) {
        Some(descent) => Onward {
            first: descent.index,
            end: descent.index + 1,
            position: path.first().unwrap_or(0),
            path: path.rest(),
        },
        None => Onward {
            first: 0,
            end: branch.twig_count(),
            position: position_from(branch, 0),
            path: Path::none(),
        },
    }
}

/// Goes down from a node on a course, to the last node whose twigs, or some extent of whose item, lie in a sparse chunk; the stack then leads
/// there, and the leaf that was passed last lies there or below. The walk passes no more than so many nodes. Offsets are at least `low`.
fn last_below<C: CellRead>(
    cells: &mut C,
    usage: &Usage,
    stack: &mut Stack,
    node: Cell,
    low: u16,
    course: Course,
    search: &mut Search,
) -> bool
    requires top { (t : Tree) × IsTop (C.has cells.old) low node t }
    requires low { low ≤ 504 }
    ensures kept { StackKept cells.old cells.new low stack.old stack.new }
    ensures found { result ≡ true → FoundBelow (C.has cells.old) usage.now low node stack.new }
{
    if search.nodes == 0 {
        return false;
    }
    search.nodes -= 1;
    match Node::of(node) {
        Node::Leaf(leaf) => {
            search.leaf = course.gone;
            ends_at_leaf(cells, usage, stack, leaf)
        }
        Node::Branch(branch) => {
            let on = twigs_on(branch, course.on);
            let mut position = on.position;
            for i in on.first..on.end {
                stack.take(branch.offset, i);
                let twig = cells.cell(branch.twigs + i);
                let next = course.to(position, on.path);
                if last_below(cells, usage, stack, twig, branch.offset + 1, next, search) {
                    return true;
                }
                position = position_from(branch, position.saturating_add(1));
            }
            let sparse = is_chunk_sparse(usage, chunk_of(branch.twigs));
            if sparse {
                stack.end = branch.offset;
            }
            sparse
        }
    }
}

/// The same from the cell of a root along a path, and that of the leaf is told.
pub fn last_sparse<C: CellRead>(
    cells: &mut C,
    usage: &Usage,
    stack: &mut Stack,
    top: Cell,
    path: Path,
    leaf: &mut Path,
) -> bool
    requires { (t : Tree) × IsTop (C.has cells.old) 0 top t }
    ensures same { cells.new ≡ cells.old }
    ensures found { result ≡ true → (t : Tree) → IsTop (C.has cells.old) 0 top t → Found usage.now stack.new t }
{
    let mut search = Search {
        nodes: MOST_NODES,
        leaf: path,
    };
    let course = Course::along(path);
    let found = last_below(cells, usage, stack, top, 0, course, &mut search);
    *leaf = search.leaf;
    found
}
