//! The names above a key's that a path passes.

ghost use Rattle.std.specs.Prelude.{◌≡◌, [], List};
ghost use Rattle.trie_read.specs.Prelude.{Entry, chain, Tree, IsNamed, AreAncestors, HasEnding, Passes, AnyStep, HangsAtLevel, HasNode};

use super::ancestors::{Ancestor, Ancestors};
use super::labels::{ends_at, labels_to, last_label};
use super::path::Path;
use chunk_cells::CellRead;
use packed_node::{Leaf, Node, Ref};
use shift_key::Key;

impl Path {
    /// Puts in the names above the key's that stand before the path's end, the top first: wherever a label of the key ends at a branch, the twig for keys
    /// that end there is the leaf of such a name. No name above the key's ends within its last label.
    pub fn gather<C: CellRead>(&self, cells: &mut C, root: Ref, key: &Key, above: &mut Ancestors)
        requires passes { (before : List Entry) × Passes (C.has cells.old) key.now self.now root before }
        requires empty { above.old ≡ [] }
        ensures same { cells.new ≡ cells.old }
        ensures above { (before : List Entry) → Passes (C.has cells.old) key.now self.now root before
            → AreAncestors (IsNamed (C.has cells.old)) (chain key.now before) above.new }
    {
        let last = last_label(key);
        for level in 0..self.depth {
            let step = self.steps[level as usize];
            if step.offset > last {
                return;
            }
            // Few branches lie where a label ends.
            if ends_at(key, step.offset) && step.index > 0 {
                if let Some(leaf) = self.ending(cells, root, level) {
                    let labels = labels_to(key, step.offset);
                    above.push(Ancestor { leaf, labels });
                }
            }
        }
    }

    /// The leaf of the twig for keys that end at the branch that the path leads to after so many steps, if the branch has one.
    fn ending<C: CellRead>(&self, cells: &mut C, root: Ref, level: u16) -> Option<Leaf>
        requires { HasNode (C.has cells.old) self.now root level }
        ensures same { cells.new ≡ cells.old }
        ensures ending { (whole t : Tree) (before after : List Entry) → HangsAtLevel AnyStep (C.has cells.old) self.now root level whole t before after
            → HasEnding (C.has cells.old) t result }
    {
        match Node::of(self.node(cells, root, level)) {
            Node::Leaf(_) => None,
            Node::Branch(branch) => {
                if !branch.has_twig(0) {
                    return None;
                }
                match Node::of(cells.cell(branch.twigs)) {
                    Node::Leaf(leaf) => Some(leaf),
                    Node::Branch(_) => None,
                }
            }
        }
    }
}
