//! Items at their limits, and a trie of two names.

ghost use Rattle.trie_tests.specs.Tries.{IsTrie};

use crate::made::{item, octets};
use crate::room::unused_room;
use crate::tries::{Change, built, changed, sizes};
use chunk_cells::CellWrite;
use chunk_usage::Space;
use dns_name::Name;
use packed_node::Ref;
use std::alloc::Global;
use trie_write::{Item, ItemRefusal, NotDone};

/// How long the root's item with so many octets behind the name is, and its key.
fn item_len(alloc: Global, payload: usize) -> Option<(usize, u16)> {
    let payload = octets(alloc, payload).ok()?;
    let item = Item::of(alloc, &Name::root(), &payload).ok()?;
    Some((item.octets().len(), item.key().len()))
}

/// How long the root's item with so many octets behind the name would be, where that is too long.
fn too_long(alloc: Global, payload: usize) -> Option<u64> {
    let payload = octets(alloc, payload).ok()?;
    match Item::of(alloc, &Name::root(), &payload) {
        Err(ItemRefusal::Long { bytes }) => Some(bytes),
        _ => None,
    }
}

#[test]
fn items_have_65535_octets_at_most(rt: HostRuntime) {
    assert!(rt; matches!(item_len(rt.alloc(), 65_534), Some((65_535, 0))));
    assert!(rt; matches!(too_long(rt.alloc(), 65_535), Some(65_536)));
}

/// How many names and nodes there are once an item is put in. It is then exchanged for itself.
fn sizes_with<C: CellWrite, U: Space>(
    cells: &mut C,
    usage: &mut U,
    root: Option<Ref>,
    item: &Item,
) -> Result<(u64, u64), NotDone>
    requires { IsTrie C.has C.kept C.given U.account cells.old usage.old root }
{
    let root = changed(cells, usage, root, Change::Insert, item)?;
    let sizes = sizes(cells, usage, root);
    changed(cells, usage, root, Change::Replace, item)?;
    Ok(sizes)
}

/// The same of two names in a room of its own, with how many cells of its first chunk count in the end. None for want of memory.
fn sizes_alone(alloc: Global, name: &[u8], other: &[u8], payload: &[u8]) -> Option<Sizes> {
    let second = item(alloc, other, payload)?;
    let first = [item(alloc, name, b"1")?];
    let (mut memory, mut usage) = unused_room(alloc, 16).ok()?;
    let (root, needed) = built(&mut memory, &mut usage, &first)?;
    if needed != 2 {
        return None;
    }
    let sizes = sizes_with(&mut memory, &mut usage, root, &second);
    Some((sizes, usage.live(0)))
}

type Sizes = (Result<(u64, u64), NotDone>, u32);

// Three nodes; one item has one cell, the other two.
#[test]
fn a_name_is_put_beside_another(rt: HostRuntime) {
    let sizes = sizes_alone(rt.alloc(), b"example.", b"ns.example.", b"22222");
    assert!(rt; matches!(sizes, Some((Ok((2, 3)), 6))));
}

#[test]
fn a_name_is_put_in_once(rt: HostRuntime) {
    let sizes = sizes_alone(rt.alloc(), b"example.", b"example.", b"2");
    assert!(rt; matches!(sizes, Some((Err(NotDone::Refused), 2))));
}
