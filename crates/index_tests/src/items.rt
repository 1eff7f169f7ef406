//! Items of names of two octets.
ghost use Rattle.std.specs.Prelude.{◌≤◌};

use dns_name::Name;
use std::alloc::Global;
use trie_write::Item;

/// The item of a name, with a number behind it and so many octets in all, but 12 at least. None for want of memory.
pub(crate) fn numbered(alloc: Global, name: [u8; 2], number: u64, octets: usize) -> Option<Item>
    requires { octets ≤ 4096 }
{
    let name = Name::from_wire(&[2, name[0], name[1], 0])?;
    let mut payload = [0; 4092];
    payload[..8].copy_from_slice(&number.to_be_bytes());
    Item::of(alloc, &name, &payload[..octets.max(12) - 4]).ok()
}
