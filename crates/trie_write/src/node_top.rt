//! The top of a tree: a branch, or a leaf.

ghost use Rattle.std.specs.Prelude.{◌≡◌, ◌<◌, ◌%◌, ◌^◌, ℕ, IfOk, IfErr, IfSome, None, count_ones};
ghost use Rattle.trie_write.specs.Prelude.{at, Cell, SaysNode, Tree, IsTree, Deep, top_cell, NotBefore, IsBranchTop, IsLeafTop};

use packed_node::{Branch, Cell, Leaf, Node};
use shift_key::Key;

/// The branch or the leaf that the cell of a tree's top says.
pub fn top_of(node: Cell) -> Result<Branch, Leaf>
    requires { SaysNode node }
    ensures branch { IfOk result (λ branch. (low : ℕ) (t : Tree) → IsTree low t → node ≡ top_cell t → IsBranchTop t branch) }
    ensures leaf { IfErr result (λ leaf. (low : ℕ) (t : Tree) → IsTree low t → node ≡ top_cell t → IsLeafTop t leaf) }
{
    match Node::of(node) {
        Node::Leaf(leaf) => Err(leaf),
        Node::Branch(branch) => Ok(branch),
    }
}

/// The branch at a tree's top, where its offset comes before a place.
pub fn branch_above(node: Cell, place: u16) -> Option<Branch>
    requires { SaysNode node }
    ensures above { IfSome result (λ branch. branch.offset < place) }
    ensures branch { IfSome result (λ branch. (low : ℕ) (t : Tree) → IsTree low t → node ≡ top_cell t → IsBranchTop t branch) }
    ensures none { result ≡ None → (low : ℕ) (t : Tree) → IsTree low t → node ≡ top_cell t → NotBefore place t }
{
    match top_of(node) {
        Err(_) => None,
        Ok(branch) => {
            if branch.offset < place {
                return Some(branch);
            }
            None
        }
    }
}

/// The branch at a tree's top, where its offset is the place.
pub fn branch_at(node: Cell, place: u16) -> Option<Branch>
    requires { SaysNode node }
    ensures at { IfSome result (λ branch. branch.offset ≡ place) }
    ensures branch { IfSome result (λ branch. (low : ℕ) (t : Tree) → IsTree low t → node ≡ top_cell t → IsBranchTop t branch) }
    ensures deep { result ≡ None → (low : ℕ) (t : Tree) → IsTree low t → node ≡ top_cell t → NotBefore place t → Deep place t }
{
    match top_of(node) {
        Err(_) => None,
        Ok(branch) => {
            if branch.offset == place {
                return Some(branch);
            }
            None
        }
    }
}

/// The place of the key's twig among those of a branch.
pub fn key_twig(branch: Branch, key: &Key) -> u32
    requires { at key.now branch.offset < 47 }
    ensures { result ≡ count_ones (branch.bitmap % 2 ^ at key.now branch.offset) }
{
    branch.twig_index(key.at(branch.offset))
}
