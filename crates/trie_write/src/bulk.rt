//! A trie of items, made at once.
//!
//! The items are in the order of their keys, and where each key first differs from the next one tells the whole shape: there a branch parts the two.
//! So one pass is enough, which makes each leaf, and above it all branches that end with it.

ghost use Rattle.std.specs.Prelude.{◌≡◌, ◌+◌, ◌<◌, ℕ, List, [], ◌∷◌, IfOk, IfErr, Some, length};
ghost use Rattle.trie_write.specs.Prelude.{Extents, Entry, cells_of, IsTree, leaf, Account, Ready, HasTrie, Built, BuiltTwig, CanBuild};
ghost use Rattle.trie_write.specs.Prelude.{CanBuildBranch, CanBuildFront, IsBranchBuilt, IsFront, Stopped, entries_of_items, entry_of, OnlyAdds};
ghost use Rattle.trie_write.specs.Prelude.{TakesCells};

use super::Item;
use super::alloc::lay_row;
use super::branch_points::{BranchPoint, from_offset, point_ahead};
use super::laying::lay_item;
use super::row::Row;
use chunk_cells::CellWrite;
use chunk_usage::{Shortage, Space};
use packed_node::{Branch, Cell, Node, Ref, bitmap};
use trie_read::Root;

/// The trie of the first of some items, all written but for the cell of its top.
#[derive(Clone, Copy)]
struct Part<'a> {
    cell: Cell,
    /// The items that are left.
    rest: &'a [Item],
    /// Where the first of these parts from the last of the trie.
    next: Option<BranchPoint>,
}

/// The root of the trie of the items, which is written. No cell counts before; where there is no room, none does afterwards.
pub fn build<C: CellWrite, U: Space>(
    cells: &mut C,
    usage: &mut U,
    items: &[Item],
) -> Result<Root, Shortage>
    requires { CanBuild C.kept C.given U.account cells.old usage.old items.now }
    ensures built { IfOk result (λ root. HasTrie C.has U.account cells.new usage.new root (entries_of_items items.now)) }
    ensures uncounted { IfErr result (λ _. (k : ℕ) → (U.account usage.new).live k ≡ 0) }
    ensures full { IfErr result (λ f. U.lacks usage.new f) }
    ensures takes { TakesCells C.has C.kept C.given U.account cells.old usage.old cells.new usage.new (cells_of (entries_of_items items.now)) }
{
    if items.is_empty() {
        return Ok(None);
    }
    match build_root(cells, usage, items) {
        Ok(root) => Ok(Some(root)),
        Err(full) => {
            usage.release_all();
            Err(full)
        }
    }
}

/// The root of the trie of some items.
fn build_root<C: CellWrite, U: Space>(
    cells: &mut C,
    usage: &mut U,
    items: &[Item],
) -> Result<Ref, Shortage>
    requires some { 0 < length items.now }
    requires can { CanBuild C.kept C.given U.account cells.old usage.old items.now }
    ensures built { IfOk result (λ root. HasTrie C.has U.account cells.new usage.new (Some root) (entries_of_items items.now)) }
    ensures full { IfErr result (λ f. U.lacks usage.new f) }
    ensures takes { TakesCells C.has C.kept C.given U.account cells.old usage.old cells.new usage.new (cells_of (entries_of_items items.now)) }
{
    let whole = build_front(cells, usage, items, 0)?;
    let root = lay_row(cells, usage, &[whole.cell])?;
    Ok(root)
}

/// The cell of a leaf, whose item is written.
fn build_leaf<C: CellWrite, U: Space>(
    cells: &mut C,
    usage: &mut U,
    item: &Item,
) -> Result<Cell, Shortage>
    requires { Ready C.kept C.given U.account cells.old usage.old }
    ensures built { IfOk result (λ cell. (at : Extents) × IsTree 0 (leaf (entry_of item.now) at)
        × Built (C.has cells.new) (U.account usage.old) (U.account usage.new) (leaf (entry_of item.now) at) cell) }
    ensures consumes { (U.account usage.new).consumed < (U.account usage.old).consumed + cells_of (entry_of item.now ∷ []) }
    ensures full { IfErr result (λ f. U.lacks usage.new f) }
    ensures adds { OnlyAdds C.has C.kept C.given U.account cells.old usage.old cells.new usage.new }
{
    let there = lay_item(cells, usage, item.octets())?;
    Ok(Node::Leaf(there.leaf()).pack())
}

/// The trie of the first items, as many as agree before `low`.
#[cycle(build)]
fn build_front<'a, C: CellWrite, U: Space>(
    cells: &mut C,
    usage: &mut U,
    items: &'a [Item],
    low: u16,
) -> Result<Part<'a>, Shortage>
    requires { CanBuildFront C.kept C.given U.account cells.old usage.old low items.now }
    ensures front { IfOk result (λ part. IsFront (C.has cells.new) (U.account usage.old) (U.account usage.new) low items.now part) }
    ensures stopped { IfErr result (λ _. Stopped (U.account usage.old) (U.account usage.new) low (entries_of_items items.now)) }
    ensures full { IfErr result (λ f. U.lacks usage.new f) }
    ensures adds { OnlyAdds C.has C.kept C.given U.account cells.old usage.old cells.new usage.new }
{
    let (item, rest) = items.split_first().unwrap();
    let cell = build_leaf(cells, usage, item)?;
    let next = point_ahead(item, rest);
    let mut part = Part { cell, rest, next };
    while let Some(above) = from_offset(part.next, low) {
        part = build_branch(cells, usage, part, above)?;
    }
    Ok(part)
}

/// The trie with a branch above it, whose first twig it is.
#[cycle(build)]
fn build_branch<'a, C: CellWrite, U: Space>(
    cells: &mut C,
    usage: &mut U,
    first: Part<'a>,
    point: BranchPoint,
) -> Result<Part<'a>, Shortage>
    requires { CanBuildBranch C.has C.kept C.given U.account cells.old usage.old first point }
    ensures branch { IfOk result (λ part. IsBranchBuilt C.has U.account cells.old usage.old cells.new usage.new first.entry point part) }
    ensures stopped { IfErr result (λ _. (base : Account) (es : List Entry) → BuiltTwig (C.has cells.old) base (U.account usage.old) point es first.entry
        → Stopped base (U.account usage.new) point.offset es) }
    ensures full { IfErr result (λ f. U.lacks usage.new f) }
    ensures adds { OnlyAdds C.has C.kept C.given U.account cells.old usage.old cells.new usage.new }
{
    let mut row = Row::new();
    row.push(first.cell);
    let mut positions = bitmap::bit(point.before);
    let mut rest = first.rest;
    let mut next = first.next;
    while let Some(beside) = from_offset(next, point.offset) {
        let twig = build_front(cells, usage, rest, point.offset + 1)?;
        row.push(twig.cell);
        positions = bitmap::with(positions, beside.after);
        rest = twig.rest;
        next = twig.next;
    }
    let twigs = lay_row(cells, usage, row.as_slice())?;
    let branch = Branch {
        offset: point.offset,
        bitmap: positions,
        twigs,
    };
    let cell = Node::Branch(branch).pack();
    Ok(Part { cell, rest, next })
}
