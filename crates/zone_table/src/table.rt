//! What the table of zones begins with.
ghost use Rattle.std.specs.Prelude.{◌≡◌, IfOk, IsPermutation, IsSorted, map};
ghost use Rattle.zone_table.specs.Prelude.{AllByRecursion, IsDistinct, IsName, name_cmp, same_name};
ghost use Rattle.zone_table.specs.Prelude.{Rises, entry_of, entries_of_items, entry_for, IsTable};

use dns_name::Name;
use std::alloc::{AllocError, Global};
use trie_write::{Item, ItemRefusal};

// The item of an origin.
fn item_for(alloc: Global, origin: &Name) -> Result<Item, AllocError>
    ensures { IfOk result (λ item. entry_of item ≡ entry_for origin.now) }
{
    let _wire = origin.wire(); // for the proof
    match Item::of(alloc, origin, &[]) {
        Ok(item) => Ok(item),
        Err(ItemRefusal::Memory) => Err(AllocError),
        // A name has at most 255 octets.
        Err(ItemRefusal::Long { .. }) => unreachable!(),
    }
}

// The origins in canonical order.
fn in_order(alloc: Global, origins: &[Name]) -> Result<Vec<Name>, AllocError>
    ensures items { IfOk result (λ sorted. IsPermutation origins.now sorted.items) }
    ensures sorted { IfOk result (λ sorted. IsSorted name_cmp sorted.items) }
{
    let mut sorted = Vec::from_slice(alloc, origins)?;
    sorted.sort()?;
    Ok(sorted)
}

// Their items, one after another.
fn items_for(alloc: Global, origins: &[Name]) -> Result<Vec<Item>, AllocError>
    ensures { IfOk result (λ items. entries_of_items items.items ≡ map entry_for origins.now) }
{
    let mut items = Vec::with_capacity(alloc, origins.len())?;
    for origin in origins {
        items.push(item_for(alloc, origin)?)?;
    }
    Ok(items)
}

/// The items of version 0 of the table: one for each origin, in the order of their keys.
pub fn table_items(alloc: Global, origins: &[Name]) -> Result<Vec<Item>, AllocError>
    requires names { AllByRecursion IsName origins.now }
    requires different { IsDistinct same_name origins.now }
    ensures table { IfOk result (λ items. IsTable origins.now (entries_of_items items.items)) }
    ensures rising { IfOk result (λ items. Rises (entries_of_items items.items)) }
{
    let sorted = in_order(alloc, origins)?;
    items_for(alloc, &sorted)
}
