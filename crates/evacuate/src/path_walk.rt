//! The way down along a path that doesn't fork, on which twigs are made mutable, or what lies in sparse chunks is moved.

ghost use Rattle.std.specs.Prelude.{◌≡◌, ◌+◌, ◌/◌, ◌^◌, ◌<◌, ◌≤◌, List, Bool, true, IfOk, IfErr, IfSome, count_ones};
ghost use Rattle.evacuate.specs.Prelude.{Branch, branch_node, is_sparse, is_mutable, IsUsedUp, CanMove, MovesCells, Unmoved};
ghost use Rattle.evacuate.specs.Prelude.{CanRearrange, CanWalkOn, OnWay, Rearranged, MayPass, PassedTo};

use super::moves::{move_item, move_node};
use super::sparse::{is_chunk_sparse, is_item_sparse};
use chunk_cells::CellWrite;
use chunk_cells::extents::LAST_OCTETS;
use chunk_usage::{Path, Shortage, Usage};
use packed_node::{Branch, Leaf, Node, Ref, chunk_of};

/// No branch has such an offset, nor a higher one.
pub const NO_OFFSET: u16 = 504;

/// A branch on a way, and which of its twigs the way takes.
#[derive(Clone, Copy)]
pub struct Descent {
    pub branch: Branch,
    pub index: u32,
}

/// The branch at a node, where a path says one of its twigs. Else it forks there: it says nothing any more, or there is no such twig.
#[inline]
pub fn descent_on(node: Node, path: Path) -> Option<Descent>
    ensures branch { IfSome result (λ descent. node ≡ branch_node descent.branch) }
    ensures index { IfSome result (λ descent. descent.index < count_ones descent.branch.bitmap) }
{
    let Node::Branch(branch) = node else {
        return None;
    };
    let position = path.first()?;
    if !branch.has_twig(position) {
        return None;
    }
    let index = branch.twig_index(position);
    Some(Descent { branch, index })
}

/// A branch on the way, and whether its twigs stay where they are.
#[derive(Clone, Copy)]
pub struct Passage {
    pub descent: Descent,
    pub stays: bool,
}

/// Where a way ended, and behind how many steps the last twigs lie that were moved on it.
#[derive(Clone, Copy)]
pub struct WayEnd {
    pub at: Ref,
    pub node: Node,
    pub moved: Option<u32>,
}

/// Whether twigs lie in a chunk that is sparse.
#[inline]
fn lie_in(usage: &Usage, branch: Branch, chunk: u32) -> bool
    ensures { result ≡ true → is_sparse usage.now (branch.twigs / 1024) ≡ true }
{
    chunk_of(branch.twigs) == chunk && is_chunk_sparse(usage, chunk)
}

/// How a way goes on at a node: twigs that lie in a chunk are moved if it is sparse, and others stay where they may be written. Where they may
/// not, the way ends, or it is to move them too. It ends at a leaf, where the path forks, and at an offset.
#[inline(always)]
fn passage_at(
    usage: &Usage,
    node: Node,
    path: Path,
    chunk: u32,
    end: u16,
    others: bool,
) -> Option<Passage>
    requires { (b : Branch) → node ≡ branch_node b → b.twigs + count_ones b.bitmap ≤ 2 ^ 22 }
    ensures branch { IfSome result (λ passage. node ≡ branch_node passage.descent.branch) }
    ensures may_pass { IfSome result (λ passage. MayPass usage.now passage) }
{
    let descent = descent_on(node, path)?;
    if descent.branch.offset >= end {
        return None;
    }
    if lie_in(usage, descent.branch, chunk) {
        return Some(Passage {
            descent,
            stays: false,
        });
    }
    let stays = usage.is_mutable(descent.branch.twigs + descent.index);
    if stays || others {
        return Some(Passage { descent, stays });
    }
    None
}

/// Behind how many steps the last twigs lie that were moved, where these are behind so many.
fn last_moved(before: Option<u32>, passage: Passage, steps: u32) -> Option<u32> {
    if passage.stays {
        return before;
    }
    Some(steps)
}

/// Goes on to a twig of a branch that the cell at a place says.
pub fn pass<C: CellWrite>(
    cells: &mut C,
    usage: &mut Usage,
    at: Ref,
    passage: Passage,
) -> Result<Ref, Shortage>
    requires may_pass { MayPass usage.old passage }
    requires can { CanMove C.has C.kept C.given at (branch_node passage.descent.branch) cells.old usage.old }
    ensures passed { IfOk result (λ twig. PassedTo C.has C.given at passage cells.old usage.old cells.new usage.new twig) }
    ensures unmoved { IfErr result (λ _. Unmoved cells.old usage.old cells.new usage.new) }
    ensures cells { MovesCells C.has C.kept C.given cells.old usage.old cells.new usage.new }
{
    usage.known(); // for the proof
    let descent = passage.descent;
    if passage.stays {
        return Ok(descent.branch.twigs + descent.index);
    }
    let to = move_node(cells, usage, at, Node::Branch(descent.branch))?;
    Ok(to + descent.index)
}

/// Notes the path of an item that may fill several chunks before it is moved, so that these list it.
fn note_long(usage: &mut Usage, leaf: Leaf, path: Path)
    ensures { usage.new ≡ usage.old }
{
    if leaf.len as usize > LAST_OCTETS {
        usage.note(path);
    }
}

/// Goes on down from a start along what the path says from there on, before an offset. Twigs that lie in a sparse chunk are moved, and others that
/// may not be written too, or the way ends there. Where there is no room for that, what was moved before stays so.
#[inline(always)]
pub fn go_on<C: CellWrite>(
    cells: &mut C,
    usage: &mut Usage,
    root: Ref,
    from: Start,
    chunk: u32,
    end: u16,
    others: bool,
) -> Result<WayEnd, Shortage>
    requires { CanWalkOn C.has C.kept C.given root from.at from.node cells.old usage.old }
    ensures way { IfOk result (λ to. OnWay C.has C.kept C.given root cells.old usage.old cells.new usage.new to.at to.node) }
    ensures rearranged { Rearranged C.has C.kept C.given root cells.old usage.old cells.new usage.new }
    ensures full { IfErr result (λ _. IsUsedUp usage.new) }
{
    let mut on = from.on;
    let mut at = from.at;
    let mut node = from.node;
    let mut moved = None;
    let mut steps = from.steps;
    while let Some(passage) = passage_at(usage, node, on, chunk, end, others) {
        at = pass(cells, usage, at, passage)?;
        moved = last_moved(moved, passage, steps);
        steps = steps.saturating_add(1);
        on = on.rest();
        node = Node::of(cells.cell(at));
    }
    Ok(WayEnd { at, node, moved })
}

/// Goes down from a root along a path, and moves what lies in a sparse chunk, as far as the twigs above it are mutable, or to the item with
/// those that aren't. Tells whether anything was moved. Where there is no room for that, what was moved before stays so.
pub fn empty_along<C: CellWrite>(
    cells: &mut C,
    usage: &mut Usage,
    root: Ref,
    path: Path,
    chunk: u32,
    to_item: bool,
) -> Result<bool, Shortage>
    requires { CanRearrange C.has C.kept C.given root cells.old usage.old }
    ensures rearranged { Rearranged C.has C.kept C.given root cells.old usage.old cells.new usage.new }
    ensures full { IfErr result (λ _. IsUsedUp usage.new) }
{
    let from = Start {
        at: root,
        node: Node::of(cells.cell(root)),
        on: path,
        steps: 0,
    };
    let way = go_on(cells, usage, root, from, chunk, NO_OFFSET, to_item)?;
    let Node::Leaf(leaf) = way.node else {
        return Ok(way.moved.is_some());
    };
    if is_item_sparse(cells, usage, leaf.at, leaf.len) {
        note_long(usage, leaf, path);
        move_item(cells, usage, way.at, leaf)?;
        return Ok(true);
    }
    Ok(way.moved.is_some())
}

/// A cell on the way down from a root that may be written, the node that it says, what a path says from there on, and how many steps lead there.
#[derive(Clone, Copy)]
pub struct Start {
    pub at: Ref,
    pub node: Node,
    pub on: Path,
    pub steps: u32,
}

/// The branch at a node, where a path says one of its twigs that may be written. None where they lie in a chunk.
#[inline]
fn mutable_descent(usage: &Usage, node: Node, path: Path, chunk: u32) -> Option<Descent>
    requires { (b : Branch) → node ≡ branch_node b → b.twigs + count_ones b.bitmap ≤ 2 ^ 22 }
    ensures branch { IfSome result (λ descent. node ≡ branch_node descent.branch) }
    ensures index { IfSome result (λ descent. descent.index < count_ones descent.branch.bitmap) }
    ensures mutable { IfSome result (λ descent. is_mutable usage.now (descent.branch.twigs + descent.index) ≡ true) }
{
    let descent = descent_on(node, path)?;
    if chunk_of(descent.branch.twigs) == chunk {
        return None;
    }
    if usage.is_mutable(descent.branch.twigs + descent.index) {
        return Some(descent);
    }
    None
}

/// Goes down from a root along a path, as far as the twigs on it may be written and don't lie in a chunk.
pub fn descend<C: CellWrite>(
    cells: &mut C,
    usage: &Usage,
    root: Ref,
    path: Path,
    chunk: u32,
) -> Start
    requires { CanRearrange C.has C.kept C.given root cells.old usage.now }
    ensures same { cells.new ≡ cells.old }
    ensures walks_on { CanWalkOn C.has C.kept C.given root result.at result.node cells.old usage.now }
{
    usage.known(); // for the proof
    let mut on = path;
    let mut steps: u32 = 0;
    let mut at = root;
    let mut node = Node::of(cells.cell(root));
    while let Some(descent) = mutable_descent(usage, node, on, chunk) {
        at = descent.branch.twigs + descent.index;
        on = on.rest();
        steps = steps.saturating_add(1);
        node = Node::of(cells.cell(at));
    }
    Start {
        at,
        node,
        on,
        steps,
    }
}
