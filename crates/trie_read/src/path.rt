//! A path from the root of a trie down to a leaf, in place.

ghost use Rattle.std.specs.Prelude.{◌≡◌, ◌≢◌, ◌+◌, ◌-◌, ◌%◌, ◌^◌, ◌<◌, ◌≤◌, ◌++◌, ℕ, List, Some, false, slice_get, count_ones};
ghost use Rattle.trie_read.specs.Prelude.{bit_at, IsKey, Extents, at, Entry, Tree, entries_of, IsTree, leaf_tree, top_cell};
ghost use Rattle.trie_read.specs.Prelude.{step_of, AnyStep, Guided, HangsBy, IsPath, LeadsTo, LeadsToCell, LeadsToFirst};
ghost use Rattle.trie_read.specs.Prelude.{LeadsToLast, HasNode, HangsAtLevel, TurnsNext, TurnsBack, Approached, CutAt};

use chunk_cells::CellRead;
use packed_node::{Branch, Cell, Leaf, Node, Ref};
use shift_key::Key;

/// A branch on the path, and which of its twigs the path takes.
#[derive(Clone, Copy)]
pub struct Step {
    pub twigs: Ref,
    pub offset: u16,
    pub index: u8,
    /// How many twigs the branch has.
    pub count: u8,
}

/// The steps from the root down. Offsets rise, so there are at most 504.
#[derive(Clone, Copy)]
pub struct Path {
    pub steps: [Step; 504],
    pub depth: u16,
}

impl Path {
    /// The path to the root itself.
    pub fn new() -> Path
        ensures { result.depth ≡ 0 }
    {
        let none = Step {
            twigs: 0,
            offset: 0,
            index: 0,
            count: 0,
        };
        Path {
            steps: [none; 504],
            depth: 0,
        }
    }

    /// Goes on to a twig of the branch that the path leads to.
    fn push(&mut self, branch: Branch, index: u32)
        requires room { self.old.depth < 504 }
        requires inside { index < count_ones branch.bitmap }
        ensures depth { self.new.depth ≡ self.old.depth + 1 }
        ensures step { slice_get self.new.steps self.old.depth ≡ Some (step_of branch index) }
        ensures before { (i : ℕ) → i < self.old.depth → slice_get self.new.steps i ≡ slice_get self.old.steps i }
    {
        self.steps[self.depth as usize] = Step {
            twigs: branch.twigs,
            offset: branch.offset,
            index: index as u8,
            count: branch.twig_count() as u8,
        };
        self.depth += 1;
    }

    /// The same, field by field: cheaper on the long way down to a key, while a walk's few steps are cheaper whole.
    fn push_fields(&mut self, branch: Branch, index: u32)
        requires room { self.old.depth < 504 }
        requires inside { index < count_ones branch.bitmap }
        ensures depth { self.new.depth ≡ self.old.depth + 1 }
        ensures step { slice_get self.new.steps self.old.depth ≡ Some (step_of branch index) }
        ensures before { (i : ℕ) → i < self.old.depth → slice_get self.new.steps i ≡ slice_get self.old.steps i }
    {
        let at = self.depth as usize;
        self.steps[at].twigs = branch.twigs;
        self.steps[at].offset = branch.offset;
        self.steps[at].index = index as u8;
        self.steps[at].count = branch.twig_count() as u8;
        self.depth += 1;
    }

    /// Goes down from the node that the path leads to, to the first leaf below it.
    pub fn enter_first<C: CellRead>(&mut self, cells: &mut C, cell: Cell) -> Leaf
        requires { LeadsToCell AnyStep (C.has cells.old) self.old cell }
        ensures same { cells.new ≡ cells.old }
        ensures first { (whole t : Tree) (before after : List Entry) → LeadsTo AnyStep (C.has cells.old) self.old whole t before after
            → cell ≡ top_cell t → LeadsToFirst (C.has cells.old) self.new whole result before (entries_of t ++ after) }
    {
        match Node::of(cell) {
            Node::Leaf(leaf) => leaf,
            Node::Branch(branch) => {
                self.push(branch, 0);
                let twig = cells.cell(branch.twigs);
                self.enter_first(cells, twig)
            }
        }
    }

    /// Goes down from the node that the path leads to, to the last leaf below it.
    pub fn enter_last<C: CellRead>(&mut self, cells: &mut C, cell: Cell) -> Leaf
        requires { LeadsToCell AnyStep (C.has cells.old) self.old cell }
        ensures same { cells.new ≡ cells.old }
        ensures last { (whole t : Tree) (before after : List Entry) → LeadsTo AnyStep (C.has cells.old) self.old whole t before after
            → cell ≡ top_cell t → LeadsToLast (C.has cells.old) self.new whole result (before ++ entries_of t) after }
    {
        match Node::of(cell) {
            Node::Leaf(leaf) => leaf,
            Node::Branch(branch) => {
                let index = branch.twig_count() - 1;
                self.push(branch, index);
                let twig = cells.cell(branch.twigs + index);
                self.enter_last(cells, twig)
            }
        }
    }

    /// Turns to what comes next after the node that the path leads to: a twig of the deepest branch that has one after the
    /// path's. False where there is none, and the path stays.
    pub fn turn_next(&mut self) -> bool
        requires { IsPath self.old }
        ensures turned { (whole t : Tree) (before after : List Entry) → HangsBy AnyStep self.old.steps whole self.old.depth t before after
            → TurnsNext self.new whole (before ++ entries_of t) after result }
        ensures stays { result ≡ false → self.new ≡ self.old }
    {
        let mut level = self.depth as usize;
        while level > 0 {
            let step = self.steps[level - 1];
            if step.index + 1 < step.count {
                self.steps[level - 1].index = step.index + 1;
                self.depth = level as u16;
                return true;
            }
            level -= 1;
        }
        false
    }

    /// Turns to what comes right before the node that the path leads to. False where nothing does, and the path stays.
    pub fn turn_back(&mut self) -> bool
        requires { IsPath self.old }
        ensures turned { (whole t : Tree) (before after : List Entry) → HangsBy AnyStep self.old.steps whole self.old.depth t before after
            → TurnsBack self.new whole before (entries_of t ++ after) result }
        ensures stays { result ≡ false → self.new ≡ self.old }
    {
        let mut level = self.depth as usize;
        while level > 0 {
            let step = self.steps[level - 1];
            if step.index > 0 {
                self.steps[level - 1].index = step.index - 1;
                self.depth = level as u16;
                return true;
            }
            level -= 1;
        }
        false
    }

    /// Goes down from the node that the path leads to, by the key's positions. Where a branch has no twig for the key's position
    /// it takes the last before it, or else the first.
    pub fn approach<C: CellRead>(&mut self, cells: &mut C, cell: Cell, key: &Key) -> Leaf
        requires { LeadsToCell (Guided key.now) (C.has cells.old) self.old cell }
        ensures same { cells.new ≡ cells.old }
        ensures leaf { (whole t : Tree) (before after : List Entry) → LeadsTo (Guided key.now) (C.has cells.old) self.old whole t before after
            → cell ≡ top_cell t → Approached key.now (C.has cells.old) self.new whole result }
    {
        let mut node = Node::of(cell);
        loop {
            match node {
                Node::Leaf(leaf) => return leaf,
                Node::Branch(branch) => {
                    let index = nearest(branch, key);
                    self.push_fields(branch, index);
                    node = Node::of(cells.cell(branch.twigs + index));
                }
            }
        }
    }

    /// Takes back the steps of branches that lie past a place.
    pub fn cut(&mut self, place: u16)
        requires { IsPath self.old }
        ensures { (key : List ℕ) (whole : Tree) (e : Entry) (x : Extents) (before after : List Entry) → IsTree 0 whole
            → HangsBy (Guided key) self.old.steps whole self.old.depth (leaf_tree e x) before after → CutAt key self.new whole e place }
    {
        while self.depth > 0 && self.steps[self.depth as usize - 1].offset > place {
            self.depth -= 1;
        }
    }

    /// The cell of the node that the path leads to after so many steps.
    pub fn node<C: CellRead>(&self, cells: &mut C, root: Ref, level: u16) -> Cell
        requires { HasNode (C.has cells.old) self.now root level }
        ensures same { cells.new ≡ cells.old }
        ensures value { (whole t : Tree) (before after : List Entry) → HangsAtLevel AnyStep (C.has cells.old) self.now root level whole t before after
            → result ≡ top_cell t }
    {
        if level == 0 {
            return cells.cell(root);
        }
        let step = self.steps[level as usize - 1];
        cells.cell(step.twigs + step.index as Ref)
    }
}

/// The index of the twig for the key's position, or else of the last before it, or else 0.
fn nearest(branch: Branch, key: &Key) -> u32
    ensures there { bit_at branch.bitmap (at key.now branch.offset) ≡ 1
        → result ≡ count_ones (branch.bitmap % 2 ^ at key.now branch.offset) }
    ensures absent { bit_at branch.bitmap (at key.now branch.offset) ≢ 1
        → result ≡ count_ones (branch.bitmap % 2 ^ at key.now branch.offset) - 1 }
    ensures key { IsKey key.now }
{
    let position = position_at(key, branch.offset);
    let before = branch.twig_index(position);
    if branch.has_twig(position) {
        return before;
    }
    before.saturating_sub(1)
}

/// The position at a place, 0 past the key's end.
#[inline]
fn position_at(key: &Key, place: u16) -> u8
    ensures position { result ≡ at key.now place }
    ensures small { result < 47 }
    ensures key { IsKey key.now }
{
    let _key = key.len(); // for the proof
    key.at(place)
}
