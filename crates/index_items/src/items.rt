//! A zone's names, each with its records, as items.
ghost use Rattle.std.specs.Prelude.{◌≡◌, ◌≤◌, length, IfOk};
ghost use Rattle.std.specs.List.{AllByRecursion};
ghost use Rattle.zone_model.specs.Names.{Name as Labels};
ghost use Rattle.zone_model.specs.Records.{Entry, IsItem, item_limit};
ghost use Rattle.zone_answer.specs.Standing.{IsStorable, IsVersion, trie_entry};
ghost use Rattle.job_model.specs.Sizes.{trie_entries};
ghost use Rattle.trie_write.specs.Entries.{entry_of, entries_of_items};

use dns_name::Name;
use master_file::{IntoItems, Zone};
use rr_data::item_buffer;
use std::alloc::{AllocError, Global};
use trie_write::{Item, ItemRefusal};

// The item of these octets.
fn item_of(alloc: Global, octets: &[u8]) -> Result<Item, AllocError>
    requires { (name : Labels) × (entry : Entry) × IsItem octets.now name entry }
    ensures { IfOk result (λ item. (name : Labels) (entry : Entry) → IsItem octets.now name entry → entry_of item ≡ trie_entry (name, entry)) }
{
    let Some(name) = Name::from_wire(octets) else {
        // An item begins with its owner's octets.
        unreachable!();
    };
    let owner = name.wire().len();
    match Item::of(alloc, &name, &octets[owner..]) {
        Ok(item) => Ok(item),
        Err(ItemRefusal::Memory) => Err(AllocError),
        // It was an item before.
        Err(ItemRefusal::Long { .. }) => unreachable!(),
    }
}

// All items, in order. Each is laid down in the buffer that is lent.
fn items_of(alloc: Global, mut left: IntoItems, octets: &mut [u8]) -> Result<Vec<Item>, AllocError>
    requires { item_limit ≤ length octets.old }
    ensures items { IfOk result (λ items. entries_of_items items.items ≡ trie_entries left) }
    ensures storable { IfOk result (λ _. AllByRecursion IsStorable left) }
{
    let mut items = Vec::with_capacity(alloc, left.len())?;
    while let Some(len) = left.next(octets) {
        items.push(item_of(alloc, &octets[..len])?)?;
    }
    Ok(items)
}

/// The items of a zone's names, in order.
pub fn zone_items(alloc: Global, zone: Zone) -> Result<Vec<Item>, AllocError>
    ensures version { IfOk result (λ _. IsVersion zone.pairs) }
    ensures entries { IfOk result (λ items. trie_entries zone.pairs ≡ entries_of_items items.items) }
{
    let _names = zone.len(); // for the proof: the names rise
    let mut octets = item_buffer(alloc)?;
    let items = items_of(alloc, zone.into_items(), &mut octets)?;
    Ok(items)
}
