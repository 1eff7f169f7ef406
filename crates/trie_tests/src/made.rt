//! Items, made of texts while a test runs: a proof sees none of them.

ghost use Rattle.std.specs.Prelude.{◌≡◌, ◌≤◌, length, IfOk};
ghost use Rattle.trie_tests.specs.Prelude.{most_item_octets, extents_in, last};

use chunk_cells::Extents;
use dns_name::Name;
use packed_node::Leaf;
use std::alloc::{AllocError, Global};
use trie_write::Item;

/// The one extent of a leaf's item.
pub(crate) fn lone(leaf: Leaf) -> Extents
    requires { leaf.len ≤ 4096 }
    ensures len { result.len ≡ leaf.len }
    ensures there { extents_in result ≡ last leaf.at }
{
    Extents {
        len: leaf.len,
        at: [leaf.at; 17],
    }
}

/// Room for any item.
pub(crate) fn buffer(alloc: Global) -> Result<Vec<u8>, AllocError>
    ensures { IfOk result (λ v. length v.items ≡ most_item_octets) }
{
    vec![in alloc; 0; 65_535]
}

/// So many octets.
pub(crate) fn octets(alloc: Global, count: usize) -> Result<Vec<u8>, AllocError> {
    let mut octets = Vec::new(alloc);
    for _ in 0..count {
        octets.push(7)?;
    }
    Ok(octets)
}

/// An item of the name that a text says. None where there is none, or for want of memory.
pub(crate) fn item(alloc: Global, text: &[u8], payload: &[u8]) -> Option<Item> {
    let name = Name::read(text, &Name::root()).ok()?;
    Item::of(alloc, &name, payload).ok()
}

/// Items of some names.
pub(crate) fn items(alloc: Global, names: &[&[u8]], payload: &[u8]) -> Option<Vec<Item>> {
    let mut items = Vec::new(alloc);
    for name in names {
        items.push(item(alloc, name, payload)?).ok()?;
    }
    Some(items)
}
