//! The way to a place on a key's path is made mutable: what isn't mutable yet is copied, and no entry changes.

ghost use Rattle.std.specs.Prelude.{◌≡◌, List, IfOk, IfErr};
ghost use Rattle.trie_write.specs.Prelude.{branch_cell, Tree, IsWritable, Ready, Fork, CanMoveTwigs, CanOpenAnew, CanOpenBelow, CopiesWay, IsCopied};
ghost use Rattle.trie_write.specs.Prelude.{IsLastMutable, IsSlot, MayAskAlong, MayAskBelow, MayAskToOpen, MovesTwigs, OpensWay, SlotAsked, SlotAsks};
ghost use Rattle.trie_write.specs.Prelude.{WayAsked, WayAsks, LacksRoom};

use super::alloc::room_for;
use super::descend::{Descent, next_descent};
use chunk_cells::{CellRead, CellWrite};
use chunk_usage::{Shortage, Space};
use packed_node::{Branch, Cell, Node, Ref};
use shift_key::Key;
use trie_space::copy_twigs;

/// A cell on the way, and the node that it says.
#[derive(Clone, Copy)]
pub struct Spot {
    pub at: Ref,
    pub node: Cell,
}

/// A root, and the cell below it that may be written.
#[derive(Clone, Copy)]
pub struct Slot {
    pub root: Ref,
    pub at: Ref,
}

/// What copying gives.
#[derive(Clone, Copy)]
pub struct Copied {
    /// What goes into the cell that the way begins at.
    pub node: Cell,
    /// The cell that the way ends at.
    pub slot: Ref,
}

/// What copying gives where nothing below a cell is copied.
fn left_alone(spot: Spot) -> Copied
    ensures { result ≡ record { node = spot.node; slot = spot.at } }
{
    Copied {
        node: spot.node,
        slot: spot.at,
    }
}

/// What copying gives above a branch. Its twigs are copied to others, but for one in whose place goes what copying gave below. The old ones count no more.
fn move_twigs<C: CellWrite, U: Space>(
    cells: &mut C,
    usage: &mut U,
    descent: Descent,
    to: Ref,
    below: Copied,
) -> Copied
    requires { CanMoveTwigs C.has C.kept C.given U.account cells.old usage.old descent to }
    ensures node { result.node ≡ branch_cell (record descent.branch { twigs = to }) }
    ensures slot { result.slot ≡ below.slot }
    ensures moves { MovesTwigs C.has C.kept C.given U.account cells.old usage.old cells.new usage.new descent to below.node }
{
    let branch = descent.branch;
    let n = branch.twig_count();
    copy_twigs(cells, branch.twigs, to, n);
    cells.put(to + descent.index, below.node);
    usage.release(branch.twigs, n);
    let moved = Branch {
        offset: branch.offset,
        bitmap: branch.bitmap,
        twigs: to,
    };
    Copied {
        node: Node::Branch(moved).pack(),
        slot: below.slot,
    }
}

/// Copies the twigs of each branch on the way. What is said for the cell that the way begins at isn't put there yet. Offsets are at
/// least `low`.
fn copy_way<C: CellWrite, U: Space>(
    cells: &mut C,
    usage: &mut U,
    key: &Key,
    place: u16,
    low: u16,
    from: Spot,
) -> Result<Copied, Shortage>
    requires asks { WayAsked C.has U.account cells.old usage.old place low key.now from.node }
    requires ready { Ready C.kept C.given U.account cells.old usage.old }
    ensures copied { IfOk result (λ copied. (way : List Fork) (end : Tree) → WayAsks C.has U.account cells.old usage.old place low key.now from.node way end
        → IsCopied C.has C.given U.account usage.old cells.new usage.new place low key.now from.at way end copied.node copied.slot) }
    ensures lacks { IfErr result (λ f. LacksRoom C.has U.account U.lacks cells.old usage.old cells.new usage.new
        (MayAskAlong C.has U.account cells.old usage.old place low key.now from.node) f) }
    ensures copies { CopiesWay C.has C.kept C.given U.account cells.old usage.old cells.new usage.new place low key.now from.node }
{
    match next_descent(cells, key, place, from.node) {
        None => Ok(left_alone(from)),
        Some(descent) => {
            let n = descent.branch.twig_count();
            let to = room_for(cells, usage, n)?;
            let next = Spot {
                at: to + descent.index,
                node: descent.next,
            };
            match copy_way(cells, usage, key, place, descent.branch.offset + 1, next) {
                Err(full) => {
                    usage.release(to, n);
                    Err(full)
                }
                Ok(copied) => Ok(move_twigs(cells, usage, descent, to, copied)),
            }
        }
    }
}

/// The last cell of the way that may be written, from such a one on. Offsets are at least `low`.
fn last_mutable<C: CellWrite, U: Space>(
    cells: &mut C,
    usage: &U,
    key: &Key,
    place: u16,
    low: u16,
    from: Spot,
) -> Spot
    requires asks { WayAsked C.has U.account cells.old usage.now place low key.now from.node }
    requires writable { IsWritable C.given U.account cells.old usage.now from.at }
    requires ready { Ready C.kept C.given U.account cells.old usage.now }
    ensures same { cells.new ≡ cells.old }
    ensures last { IsLastMutable C.has C.given U.account cells.old usage.now cells.new place low key.now from result }
{
    match next_descent(cells, key, place, from.node) {
        None => from,
        Some(descent) => {
            let at = descent.branch.twigs + descent.index;
            if usage.is_mutable(at) {
                let next = Spot {
                    at,
                    node: descent.next,
                };
                return last_mutable(cells, usage, key, place, descent.branch.offset + 1, next);
            }
            from
        }
    }
}

/// A root that may be written stays: the way is made mutable from its last mutable cell on.
///
/// One cell in use is written, when all copies are made. Nothing leads to these until then, so where there is no room the trie is as it was.
fn open_below<C: CellWrite, U: Space>(
    cells: &mut C,
    usage: &mut U,
    key: &Key,
    place: u16,
    top: Spot,
) -> Result<Slot, Shortage>
    requires { CanOpenBelow C.has C.kept C.given U.account cells.old usage.old place key.now top }
    ensures slot { IfOk result (λ slot. (spare : _) (way : _) (end : _) → SlotAsks C.has U.account cells.old usage.old place key.now spare top.at way end
        → IsSlot C.has C.given U.account cells.old usage.old cells.new usage.new place key.now spare top.at way end slot.root slot.at) }
    ensures lacks { IfErr result (λ f. LacksRoom C.has U.account U.lacks cells.old usage.old cells.new usage.new
        (MayAskBelow C.has U.account cells.old usage.old place key.now top.at) f) }
    ensures opens { OpensWay C.has C.kept C.given U.account cells.old usage.old cells.new usage.new place key.now top.at }
{
    let last = last_mutable(cells, usage, key, place, 0, top);
    let copied = copy_way(cells, usage, key, place, 0, last)?;
    cells.put(last.at, copied.node);
    Ok(Slot {
        root: top.at,
        at: copied.slot,
    })
}

/// Another root for one that may not be written: all of the way is copied.
fn open_anew<C: CellWrite, U: Space>(
    cells: &mut C,
    usage: &mut U,
    key: &Key,
    place: u16,
    top: Spot,
) -> Result<Slot, Shortage>
    requires { CanOpenAnew C.has C.kept C.given U.account cells.old usage.old place key.now top }
    ensures slot { IfOk result (λ slot. (spare : _) (way : _) (end : _) → SlotAsks C.has U.account cells.old usage.old place key.now spare top.at way end
        → IsSlot C.has C.given U.account cells.old usage.old cells.new usage.new place key.now spare top.at way end slot.root slot.at) }
    ensures lacks { IfErr result (λ f. LacksRoom C.has U.account U.lacks cells.old usage.old cells.new usage.new
        (MayAskToOpen C.has U.account cells.old usage.old place key.now top.at) f) }
    ensures opens { OpensWay C.has C.kept C.given U.account cells.old usage.old cells.new usage.new place key.now top.at }
{
    let root = room_for(cells, usage, 1)?;
    let from = Spot {
        at: root,
        node: top.node,
    };
    match copy_way(cells, usage, key, place, 0, from) {
        Err(full) => {
            usage.release(root, 1);
            Err(full)
        }
        Ok(copied) => {
            cells.put(root, copied.node);
            usage.release(top.at, 1);
            let at = copied.slot;
            Ok(Slot { root, at })
        }
    }
}

/// Makes the way along the key mutable, down to the first node whose offset isn't before the place. No entry changes. Where there is
/// no room, nothing does.
pub fn make_mutable<C: CellWrite, U: Space>(
    cells: &mut C,
    usage: &mut U,
    root: Ref,
    key: &Key,
    place: u16,
) -> Result<Slot, Shortage>
    requires asks { SlotAsked C.has U.account cells.old usage.old place key.now root }
    requires ready { Ready C.kept C.given U.account cells.old usage.old }
    ensures slot { IfOk result (λ slot. (spare : _) (way : _) (end : _) → SlotAsks C.has U.account cells.old usage.old place key.now spare root way end
        → IsSlot C.has C.given U.account cells.old usage.old cells.new usage.new place key.now spare root way end slot.root slot.at) }
    ensures lacks { IfErr result (λ f. LacksRoom C.has U.account U.lacks cells.old usage.old cells.new usage.new
        (MayAskToOpen C.has U.account cells.old usage.old place key.now root) f) }
    ensures opens { OpensWay C.has C.kept C.given U.account cells.old usage.old cells.new usage.new place key.now root }
{
    let node = cells.cell(root);
    let top = Spot { at: root, node };
    if usage.is_mutable(root) {
        open_below(cells, usage, key, place, top)
    } else {
        open_anew(cells, usage, key, place, top)
    }
}
