//! Cells for items.

ghost use Rattle.std.specs.Prelude.{◌+◌, ◌<◌, ◌≤◌, ℕ, Contains, IfOk, IfErr, length};
ghost use Rattle.trie_write.specs.Prelude.{AreExtents, cells_in, content_cells, links, weigh_extents, in_chunk, extents_at, extents_in, CanLay};
ghost use Rattle.trie_write.specs.Prelude.{CanPlace, HandedItem, IsLaidAnew, extent_sizes, LacksRoom, Releases, TakesCells};

use super::alloc::room_for;
use chunk_cells::extents::{LAST_OCTETS, LINKED_OCTETS, content_cells_for, linked_extent};
use chunk_cells::{CellWrite, Extents, write_item};
use chunk_usage::{Shortage, Space};
use packed_node::Ref;

/// Writes an item into new cells.
pub fn lay_item<C: CellWrite, U: Space>(
    cells: &mut C,
    usage: &mut U,
    item: &[u8],
) -> Result<Extents, Shortage>
    requires { CanLay C.kept C.given U.account cells.old usage.old (length item.now) }
    ensures laid { IfOk result (λ x. IsLaidAnew C.has U.account usage.old cells.new usage.new item.now x) }
    ensures lacks { IfErr result (λ f. LacksRoom C.has U.account U.lacks cells.old usage.old cells.new usage.new
        (Contains (extent_sizes (length item.now))) f) }
    ensures takes { TakesCells C.has C.kept C.given U.account cells.old usage.old cells.new usage.new (cells_in item.now) }
{
    let len = item.len() as u16;
    let mut at = [0; 17];
    room_for_extents(cells, usage, len, &mut at)?;
    let extents = Extents { len, at };
    write_item(cells, &extents, item);
    Ok(extents)
}

/// Room for so many octets, in extents that begin at these places; where there is none for one of them, the others are given back.
fn room_for_extents<C: CellWrite, U: Space>(
    cells: &mut C,
    usage: &mut U,
    len: u16,
    out: &mut [Ref],
) -> Result<(), Shortage>
    requires { CanPlace C.kept C.given U.account cells.old usage.old len (length out.old) }
    ensures handed { IfOk result (λ _. HandedItem (U.account usage.old) (U.account usage.new) len (extents_at (links len) out.new)) }
    ensures lacks { IfErr result (λ f. LacksRoom C.has U.account U.lacks cells.old usage.old cells.new usage.new (Contains (extent_sizes len)) f) }
    ensures takes { TakesCells C.has C.kept C.given U.account cells.old usage.old cells.new usage.new (content_cells len + links len) }
{
    if len as usize <= LAST_OCTETS {
        out[0] = room_for(cells, usage, content_cells_for(len))?;
        return Ok(());
    }
    let rest = len - LINKED_OCTETS as u16;
    room_for_extents(cells, usage, rest, &mut out[1..])?;
    match room_for(cells, usage, linked_extent()) {
        Err(full) => {
            release_extents(usage, rest, &out[1..]);
            Err(full)
        }
        Ok(first) => {
            out[0] = first;
            Ok(())
        }
    }
}

/// The cells of an item don't count any more.
pub fn release_item<U: Space>(usage: &mut U, item: &Extents)
    requires counted { (k : ℕ) → weigh_extents (in_chunk k) item.now.len (extents_in item.now) ≤ (U.account usage.old).live k }
    requires are { AreExtents item.now.len (extents_in item.now) }
    ensures { Releases U.account U.lacks (λ w. weigh_extents w item.now.len (extents_in item.now)) usage.old usage.new }
{
    release_extents(usage, item.len, &item.at);
}

/// Those of so many octets, in extents that begin at these places.
fn release_extents<U: Space>(usage: &mut U, len: u16, at: &[Ref])
    requires enough { links len < length at.now }
    requires counted { (k : ℕ) → weigh_extents (in_chunk k) len (extents_at (links len) at.now) ≤ (U.account usage.old).live k }
    requires are { AreExtents len (extents_at (links len) at.now) }
    ensures { Releases U.account U.lacks (λ w. weigh_extents w len (extents_at (links len) at.now)) usage.old usage.new }
{
    if len as usize <= LAST_OCTETS {
        return usage.release(at[0], content_cells_for(len));
    }
    usage.release(at[0], linked_extent());
    release_extents(usage, len - LINKED_OCTETS as u16, &at[1..]);
}
