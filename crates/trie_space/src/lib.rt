//! What a change of a trie may write, and the ways to it. The crates that write a trie stand on this one: that which makes and
//! changes tries, and that which moves what is thinly spread.
//!
//! `specs/Spaces` says what a call leaves of the cells and of the space that hands them out, `specs/Standing` and `specs/Rooted` when
//! a trie stands at a root, and `specs/Ways` how a tree hangs in another. Nearly all here are definitions and their laws.
#![tactic(auto)]

ghost use Rattle.std.specs.Prelude.{◌≡◌, ◌≢◌, ◌+◌, ◌^◌, ◌<◌, ◌≤◌, ℕ};
ghost use Rattle.packed_node.specs.declared.Cell.{Cell};
ghost use Rattle.trie_space.specs.Spaces.{MayWrite, Wrote};

use chunk_cells::CellWrite;
use packed_node::Ref;

/// Copies n cells to others.
pub fn copy_twigs<C: CellWrite>(cells: &mut C, from: Ref, to: Ref, n: u32)
    requires inside { from + n ≤ 2 ^ 22 }
    requires within { to + n ≤ 2 ^ 22 }
    requires there { (i : ℕ) → i < n → (c : Cell) × C.has cells.old (from + i) c }
    requires apart { (i j : ℕ) → i < n → j < n → from + i ≢ to + j }
    requires blank { MayWrite C.kept C.given cells.old to n }
    ensures copied { (i : ℕ) (c : Cell) → i < n → C.has cells.old (from + i) c → C.has cells.new (to + i) c }
    ensures wrote { Wrote C.has C.kept C.given cells.old cells.new to n }
{
    cells.copy_row(from, to, n);
}
