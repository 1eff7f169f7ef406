//! The way down to what is to be moved. On the way each row of twigs that may not be written is moved first, so that a cell above what
//! was moved can say where it is.

ghost use Rattle.std.specs.Prelude.{◌≡◌, ◌<◌, List, Bool, true, None, IfOk, IfErr, IfSome};
ghost use Rattle.evacuate.specs.Prelude.{branch_node, node_of, Tree, NotBefore, Fewer, IsUsedUp, CanRearrange, Rearranged, StopsShort};
ghost use Rattle.evacuate.specs.Prelude.{Finds, SpotReached};

use super::moves::{move_item, move_node};
use super::path_walk::{Descent, Passage, pass};
use super::stack::{Stack, last_sparse};
use chunk_cells::CellWrite;
use chunk_usage::{Path, Shortage, Usage};
use packed_node::{Branch, Node, Ref};

/// The branch that a node is, where its offset comes before a place.
fn branch_before(node: Node, place: u16) -> Option<Branch>
    ensures branch { IfSome result (λ b. node ≡ branch_node b) }
    ensures before { IfSome result (λ b. b.offset < place) }
    ensures none { result ≡ None → (t : Tree) → node ≡ node_of t → NotBefore place t }
{
    match node {
        Node::Leaf(_) => None,
        Node::Branch(branch) => {
            if branch.offset < place {
                return Some(branch);
            }
            None
        }
    }
}

/// A cell below the root that may be written, and the node that it says.
#[derive(Clone, Copy)]
pub struct Spot {
    pub at: Ref,
    pub node: Node,
}

/// Goes to where a stack leads. The twigs on the way are moved where they may not be written. Where there is no room for them, what was
/// moved before stays so.
pub fn reach<C: CellWrite>(
    cells: &mut C,
    usage: &mut Usage,
    root: Ref,
    stack: &Stack,
) -> Result<Spot, Shortage>
    requires can { CanRearrange C.has C.kept C.given root cells.old usage.old }
    requires found { Finds C.has cells.old usage.old root stack.now }
    ensures reached { IfOk result (λ spot. SpotReached C.has C.given root cells.old usage.old cells.new usage.new spot.at spot.node) }
    ensures rearranged { Rearranged C.has C.kept C.given root cells.old usage.old cells.new usage.new }
    ensures short { IfErr result (λ _. StopsShort usage.old usage.new) }
{
    let mut at = root;
    let mut node = Node::of(cells.cell(root));
    while let Some(branch) = branch_before(node, stack.end) {
        let index = stack.index_at(branch.offset);
        let stays = usage.is_mutable(branch.twigs + index);
        let descent = Descent { branch, index };
        at = pass(cells, usage, at, Passage { descent, stays })?;
        node = Node::of(cells.cell(at));
    }
    Ok(Spot { at, node })
}

/// Moves what the stack leads to, and tells where the first of it lay. Where there is no room for it, or for twigs on the way, what was moved before
/// stays so.
pub fn move_found<C: CellWrite>(
    cells: &mut C,
    usage: &mut Usage,
    root: Ref,
    stack: &Stack,
) -> Result<Ref, Shortage>
    requires can { CanRearrange C.has C.kept C.given root cells.old usage.old }
    requires found { Finds C.has cells.old usage.old root stack.now }
    ensures rearranged { Rearranged C.has C.kept C.given root cells.old usage.old cells.new usage.new }
    ensures less { IfOk result (λ _. Fewer usage.old usage.new) }
    ensures short { IfErr result (λ _. StopsShort usage.old usage.new) }
{
    let spot = reach(cells, usage, root, stack)?;
    match spot.node {
        Node::Leaf(leaf) => {
            move_item(cells, usage, spot.at, leaf)?;
            Ok(leaf.at)
        }
        Node::Branch(branch) => {
            move_node(cells, usage, spot.at, Node::Branch(branch))?;
            Ok(branch.twigs)
        }
    }
}

/// So many rows and items are moved on one path at most.
const MOST_MOVES: u32 = 300;

/// Makes the twigs mutable that are above the last on a path that lies in a sparse chunk. Tells whether there is one.
pub fn copy_forked<C: CellWrite>(
    cells: &mut C,
    usage: &mut Usage,
    root: Ref,
    path: Path,
) -> Result<bool, Shortage>
    requires { CanRearrange C.has C.kept C.given root cells.old usage.old }
    ensures rearranged { Rearranged C.has C.kept C.given root cells.old usage.old cells.new usage.new }
    ensures full { IfErr result (λ _. IsUsedUp usage.new) }
{
    let mut stack = Stack::new();
    let mut leaf = path;
    let top = cells.cell(root);
    if last_sparse(cells, usage, &mut stack, top, path, &mut leaf) {
        usage.note(leaf);
        reach(cells, usage, root, &stack)?;
        return Ok(true);
    }
    Ok(false)
}

/// Moves what lies in sparse chunks along a path, the last first.
pub fn move_forked<C: CellWrite>(
    cells: &mut C,
    usage: &mut Usage,
    root: Ref,
    path: Path,
) -> Result<(), Shortage>
    requires { CanRearrange C.has C.kept C.given root cells.old usage.old }
    ensures rearranged { Rearranged C.has C.kept C.given root cells.old usage.old cells.new usage.new }
    ensures full { IfErr result (λ _. IsUsedUp usage.new) }
{
    let mut stack = Stack::new();
    let mut leaf = path;
    for _ in 0..MOST_MOVES {
        let top = cells.cell(root);
        if !last_sparse(cells, usage, &mut stack, top, path, &mut leaf) {
            return Ok(());
        }
        usage.note(leaf);
        move_found(cells, usage, root, &stack)?;
    }
    Ok(())
}
