//! Items, most of 1,000 octets, in the order of their keys.

ghost use Rattle.std.specs.Prelude.{◌≤◌};

use dns_name::Name;
use std::alloc::Global;
use std::test::Fail;
use trie_write::Item;

/// The item of a name, with so many octets.
fn item_of(alloc: Global, name: &Name, octets: usize) -> Result<Item, Fail>
    requires { 255 ≤ octets }
{
    let mut payload = Vec::new(alloc);
    for index in name.wire().len()..octets {
        payload.push(((index ^ (index >> 8)) & 0xff) as u8)?;
    }
    Ok(Item::of(alloc, name, &payload)?)
}

/// The items of so many names with so many octets each, from n0.example. on.
pub(crate) fn numbered(alloc: Global, names: u32, octets: usize) -> Result<Vec<Item>, Fail>
    requires { 255 ≤ octets }
{
    let mut sorted = Vec::new(alloc);
    for number in 0..names {
        let text = format!(in alloc; "n{number}.example.")?;
        sorted.push(Name::read(text.as_bytes(), &Name::root())?)?;
    }
    sorted.sort_unstable();
    sorted
        .iter()
        .map(|name| item_of(alloc, name, octets))
        .try_collect(alloc)
}

/// The items of 300 names.
pub(crate) fn three_hundred_items(alloc: Global) -> Result<Vec<Item>, Fail> {
    numbered(alloc, 300, 1000)
}

/// The items of ten names with 1,400 octets each, and behind them one of 65,535.
pub(crate) fn ten_items_and_a_long_one(alloc: Global) -> Result<Vec<Item>, Fail> {
    let mut items = numbered(alloc, 10, 1400)?;
    items.push(item_of(alloc, &Name::read(b"z.example.", &Name::root())?, 65_535)?)?;
    Ok(items)
}
