//! Moving what hangs on a node, and the root's cell: room for the cells, a copy, the cell above says where they are, the old ones count no more.

ghost use Rattle.std.specs.Prelude.{◌≡◌, ◌⊎◌, ◌+◌, ◌/◌, ◌^◌, ◌<◌, ◌≤◌, ℕ, List, Bool, true, false, IfOk, IfErr};
ghost use Rattle.evacuate.specs.Prelude.{leaf_node, is_sparse, is_mutable, reserve_account_of, Ready, GoesSparse, HasSparse, Fewer};
ghost use Rattle.evacuate.specs.Prelude.{IsUsedUp, IsStood, first_of, first_width, put_at, width_of, AsksRoom, CanCopy, CanMove};
ghost use Rattle.evacuate.specs.Prelude.{CanMoveBehind, ExtentMoved, FirstLies, IsCopied, IsLength, IsRoom, LeavesRest, MovesCells};
ghost use Rattle.evacuate.specs.Prelude.{NextLies, NodeMoved, RearrangedItem, RearrangedNode, RootMoved, TakesCells, Unmoved, IsDue};

use super::sparse::is_item_sparse;
use chunk_cells::CellWrite;
use chunk_cells::extents::{
    LAST_OCTETS, LINKED_OCTETS, content_cells_for, link_of, link_to, linked_extent, next_extent,
};
use chunk_usage::{Shortage, Usage};
use packed_node::{Branch, Leaf, Node, Ref, chunk_of};
use trie_space::copy_twigs;

/// The first of them.
fn first_cell(node: Node) -> Ref
    ensures { result ≡ first_of node }
{
    match node {
        Node::Leaf(leaf) => leaf.at,
        Node::Branch(branch) => branch.twigs,
    }
}

/// How many there are.
fn cell_count(node: Node) -> u32
    ensures { result ≡ width_of node }
{
    match node {
        Node::Leaf(leaf) => first_extent_for(leaf.len),
        Node::Branch(branch) => branch.twig_count(),
    }
}

/// How many cells the first extent of an item of so many octets has.
fn first_extent_for(len: u16) -> u32
    ensures { result ≡ first_width len }
{
    if len as usize > LAST_OCTETS {
        linked_extent()
    } else {
        content_cells_for(len)
    }
}

/// The node with these cells elsewhere.
fn with_cells_at(node: Node, to: Ref) -> Node
    ensures { result ≡ put_at node to }
{
    match node {
        Node::Leaf(leaf) => Node::Leaf(Leaf {
            len: leaf.len,
            at: to,
        }),
        Node::Branch(branch) => Node::Branch(Branch {
            offset: branch.offset,
            bitmap: branch.bitmap,
            twigs: to,
        }),
    }
}

/// Room for n cells side by side, in a chunk that the cells know as given.
#[inline]
fn room_for<C: CellWrite>(cells: &mut C, usage: &mut Usage, n: u32) -> Result<Ref, Shortage>
    requires length { IsLength n }
    requires ready { Ready C.kept C.given reserve_account_of cells.old usage.old }
    ensures room { IfOk result (λ at. IsRoom C.kept C.given usage.old cells.new usage.new at n) }
    ensures unmoved { IfErr result (λ _. Unmoved cells.old usage.old cells.new usage.new) }
    ensures asks { AsksRoom C.has C.kept C.given n cells.old usage.old cells.new usage.new }
{
    usage.known(); // for the proof
    let grant = usage.alloc_reserve(n)?;
    if let Some(chunk) = grant.given {
        cells.give(chunk);
        return Ok(grant.at);
    }
    Ok(grant.at)
}

/// Copies cells in use to new ones.
#[inline]
fn copy_out<C: CellWrite>(
    cells: &mut C,
    usage: &mut Usage,
    from: Ref,
    n: u32,
) -> Result<Ref, Shortage>
    requires { CanCopy C.has C.kept C.given from n cells.old usage.old }
    ensures copied { IfOk result (λ to. IsCopied C.has from n cells.old usage.old cells.new usage.new to) }
    ensures unmoved { IfErr result (λ _. Unmoved cells.old usage.old cells.new usage.new) }
    ensures takes { TakesCells C.has C.kept C.given n cells.old usage.old cells.new usage.new }
{
    let to = room_for(cells, usage, n)?;
    copy_twigs(cells, from, to, n);
    Ok(to)
}

/// Moves the cells that hang on a node, which the cell at a place says; it then says where they are.
pub fn move_node<C: CellWrite>(
    cells: &mut C,
    usage: &mut Usage,
    at: Ref,
    node: Node,
) -> Result<Ref, Shortage>
    requires { CanMove C.has C.kept C.given at node cells.old usage.old }
    ensures moved { IfOk result (λ to. NodeMoved C.has C.given at node cells.old usage.old cells.new usage.new to) }
    ensures unmoved { IfErr result (λ _. Unmoved cells.old usage.old cells.new usage.new) }
    ensures rest { LeavesRest C.has C.kept C.given reserve_account_of cells.old usage.old cells.new usage.new }
{
    let from = first_cell(node);
    let n = cell_count(node);
    let to = copy_out(cells, usage, from, n)?;
    cells.put(at, with_cells_at(node, to).pack());
    usage.release(from, n);
    Ok(to)
}

/// Moves the extent behind one that begins here. With it that one's item has so many octets from there on, and its link cell then says
/// where the other is.
fn move_linked<C: CellWrite>(
    cells: &mut C,
    usage: &mut Usage,
    at: Ref,
    len: u16,
) -> Result<Ref, Shortage>
    requires { CanMoveBehind C.has C.kept C.given at len cells.old usage.old }
    ensures moved { IfOk result (λ to. ExtentMoved C.has C.given at len cells.old usage.old cells.new usage.new to) }
    ensures unmoved { IfErr result (λ _. Unmoved cells.old usage.old cells.new usage.new) }
    ensures rest { LeavesRest C.has C.kept C.given reserve_account_of cells.old usage.old cells.new usage.new }
{
    let from = next_extent(cells, at);
    let n = first_extent_for(len - LINKED_OCTETS as u16);
    let to = copy_out(cells, usage, from, n)?;
    cells.put(link_of(at), link_to(to));
    usage.release(from, n);
    Ok(to)
}

/// Moves the root's cell.
pub fn move_root<C: CellWrite>(cells: &mut C, usage: &mut Usage, root: Ref) -> Result<Ref, Shortage>
    requires stood { IsStood C.has cells.old usage.old root }
    requires ready { Ready C.kept C.given reserve_account_of cells.old usage.old }
    ensures moved { IfOk result (λ to. RootMoved C.has C.given root cells.old usage.old cells.new usage.new to) }
    ensures unmoved { IfErr result (λ _. Unmoved cells.old usage.old cells.new usage.new) }
    ensures rest { LeavesRest C.has C.kept C.given reserve_account_of cells.old usage.old cells.new usage.new }
{
    let to = copy_out(cells, usage, root, 1)?;
    usage.release(root, 1);
    Ok(to)
}

/// Whether an extent is to be moved that begins here, where its item has so many octets from there on: it lies in a sparse chunk, or it
/// has a link cell that may not be written.
fn is_due(usage: &Usage, at: Ref, len: u16) -> bool
    requires { 4096 < len → at + 256 ≤ 2 ^ 22 }
    ensures sparse { result ≡ false → is_sparse usage.now (at / 1024) ≡ false }
    ensures mutable { result ≡ false → 4096 < len → is_mutable usage.now (at + 255) ≡ true }
    ensures due { result ≡ true → (is_sparse usage.now (at / 1024) ≡ true) ⊎ ((4096 < len) × (is_mutable usage.now (at + 255) ≡ false)) }
{
    if usage.is_sparse(chunk_of(at)) {
        return true;
    }
    if len as usize > LAST_OCTETS {
        return !usage.is_mutable(link_of(at));
    }
    false
}

/// Moves the first extent of a leaf's item, which the cell at a place says, if that is due, and tells where it is.
fn move_first<C: CellWrite>(
    cells: &mut C,
    usage: &mut Usage,
    at: Ref,
    leaf: Leaf,
) -> Result<Ref, Shortage>
    requires { CanMove C.has C.kept C.given at (leaf_node leaf) cells.old usage.old }
    ensures lies { IfOk result (λ to. FirstLies C.has C.given at leaf cells.old usage.old cells.new usage.new to) }
    ensures unmoved { IfErr result (λ _. Unmoved cells.old usage.old cells.new usage.new) }
    ensures cells { MovesCells C.has C.kept C.given cells.old usage.old cells.new usage.new }
{
    usage.known(); // for the proof
    if is_due(usage, leaf.at, leaf.len) {
        return move_node(cells, usage, at, Node::Leaf(leaf));
    }
    Ok(leaf.at)
}

/// The same of the extent behind one that begins here, whose item has so many octets from there on.
fn move_next<C: CellWrite>(
    cells: &mut C,
    usage: &mut Usage,
    at: Ref,
    len: u16,
) -> Result<Ref, Shortage>
    requires { CanMoveBehind C.has C.kept C.given at len cells.old usage.old }
    ensures lies { IfOk result (λ to. NextLies C.has C.given at len cells.old usage.old cells.new usage.new to) }
    ensures unmoved { IfErr result (λ _. Unmoved cells.old usage.old cells.new usage.new) }
    ensures cells { MovesCells C.has C.kept C.given cells.old usage.old cells.new usage.new }
{
    usage.known(); // for the proof
    let next = next_extent(cells, at);
    if is_due(usage, next, len - LINKED_OCTETS as u16) {
        return move_linked(cells, usage, at, len);
    }
    Ok(next)
}

/// Moves what is due behind an extent that begins here, as far as something there lies in a sparse chunk. Where there is no room for
/// that, what was moved before stays so.
fn move_behind<C: CellWrite>(
    cells: &mut C,
    usage: &mut Usage,
    at: Ref,
    len: u16,
) -> Result<(), Shortage>
    requires { CanMoveBehind C.has C.kept C.given at len cells.old usage.old }
    ensures rearranged { RearrangedItem C.has C.kept C.given at len cells.old usage.old cells.new usage.new }
    ensures less { IfOk result (λ _. GoesSparse C.has cells.old usage.old at len → Fewer usage.old usage.new) }
    ensures full { IfErr result (λ _. IsUsedUp usage.new) }
    ensures left { IfErr result (λ _. HasSparse usage.new) }
{
    let next = next_extent(cells, at);
    let behind = len - LINKED_OCTETS as u16;
    if !is_item_sparse(cells, usage, next, behind) {
        return Ok(());
    }
    let to = move_next(cells, usage, at, len)?;
    if behind as usize > LAST_OCTETS {
        return move_behind(cells, usage, to, behind);
    }
    Ok(())
}

/// Moves the extents of a leaf's item, which the cell at a place says, as far as some of them lie in sparse chunks. Where there is no room
/// for one, what was moved before stays so.
pub fn move_item<C: CellWrite>(
    cells: &mut C,
    usage: &mut Usage,
    at: Ref,
    leaf: Leaf,
) -> Result<(), Shortage>
    requires { CanMove C.has C.kept C.given at (leaf_node leaf) cells.old usage.old }
    ensures rearranged { RearrangedNode C.has C.kept C.given at (leaf_node leaf) cells.old usage.old cells.new usage.new }
    ensures less { IfOk result (λ _. IsDue C.has cells.old usage.old at (leaf_node leaf) → Fewer usage.old usage.new) }
    ensures full { IfErr result (λ _. IsUsedUp usage.new) }
    ensures left { IfErr result (λ _. IsDue C.has cells.old usage.old at (leaf_node leaf) → HasSparse usage.new) }
{
    let to = move_first(cells, usage, at, leaf)?;
    if leaf.len as usize > LAST_OCTETS {
        return move_behind(cells, usage, to, leaf.len);
    }
    Ok(())
}
