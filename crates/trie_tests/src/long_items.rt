//! Items of all lengths at which the number of their cells or of their extents changes: put in, read back, exchanged for each other,
//! and taken out.

ghost use Rattle.std.specs.Prelude.{◌≡◌, ◌≤◌, None, IfSome, length};
ghost use Rattle.trie_tests.specs.Prelude.{most_item_octets, IsTrie};

use crate::made::buffer;
use crate::room::unused_room;
use crate::thinned::live_cells;
use crate::tries::{Change, changed, holds};
use chunk_cells::{CellRead, CellWrite, PlainCells, cells_for};
use chunk_usage::{Space, Usage};
use dns_name::Name;
use packed_node::Ref;
use std::alloc::Global;
use trie_write::Item;

/// How long the items are.
const LENGTHS: [usize; 14] = [
    1, 16, 17, 4080, 4081, 4096, 4097, 8160, 8161, 8176, 8177, 65_519, 65_520, 65_535,
];

/// How many cells each of them takes: a cell for 16 octets, and one for each further extent.
const CELLS: [u64; 14] = [
    1, 1, 2, 255, 256, 256, 258, 511, 512, 512, 514, 4111, 4111, 4112,
];

/// An octet of an item, which depends on its place and on the item's number.
fn octet_at(place: usize, number: usize) -> u8 {
    let mixed = (place ^ (place >> 8)).wrapping_add(number.wrapping_mul(101));
    (mixed & 0xff) as u8
}

/// The root's item of so many octets. None for want of memory.
fn item_of(alloc: Global, octets: usize, number: usize) -> Option<Item> {
    let mut payload = Vec::new(alloc);
    for place in 1..octets {
        payload.push(octet_at(place, number)).ok()?;
    }
    Item::of(alloc, &Name::root(), &payload).ok()
}

/// One of each length. None for want of memory.
fn items_of(alloc: Global, number: usize) -> Option<Vec<Item>> {
    let mut items = Vec::new(alloc);
    for octets in LENGTHS {
        items.push(item_of(alloc, octets, number)?).ok()?;
    }
    Some(items)
}

/// The root once an item is put in, or stands in the place of another. None where it isn't there then.
fn put<C: CellWrite, U: Space>(
    cells: &mut C,
    usage: &mut U,
    root: Option<Ref>,
    change: Change,
    item: &Item,
    out: &mut [u8],
) -> Option<Option<Ref>>
    requires trie { IsTrie C.has C.kept C.given U.account cells.old usage.old root }
    requires room { most_item_octets ≤ length out.old }
    ensures trie { IfSome result (IsTrie C.has C.kept C.given U.account cells.new usage.new) }
    ensures room { length out.new ≡ length out.old }
{
    let new = changed(cells, usage, root, change, item).ok()?;
    holds(cells, usage, new, item, out).then_some(new)
}

/// Puts an item in, exchanges it for another, and takes that out. How many cells count after each step.
fn come_and_go(
    cells: &mut PlainCells,
    usage: &mut Usage,
    first: &Item,
    second: &Item,
    out: &mut [u8],
) -> Option<[u64; 3]>
    requires trie { IsTrie ⟦<PlainCells as CellRead>⟧.has ⟦<PlainCells as CellWrite>⟧.kept ⟦<PlainCells as CellWrite>⟧.given ⟦<Usage as Space>⟧.account
        cells.old usage.old None }
    requires room { most_item_octets ≤ length out.old }
    ensures room { length out.new ≡ length out.old }
{
    let root = put(cells, usage, None, Change::Insert, first, out)?;
    let with_first = live_cells(usage);
    let root = put(cells, usage, root, Change::Replace, second, out)?;
    let with_second = live_cells(usage);
    changed(cells, usage, root, Change::Delete, second).ok()?;
    Some([with_first, with_second, live_cells(usage)])
}

/// The same in a room of its own. None where something isn't as it should be, or for want of memory.
fn come_and_go_alone(alloc: Global, first: &Item, second: &Item, out: &mut [u8]) -> Option<[u64; 3]>
    requires { most_item_octets ≤ length out.old }
    ensures { length out.new ≡ length out.old }
{
    let (mut memory, mut usage) = unused_room(alloc, 16).ok()?;
    come_and_go(&mut memory, &mut usage, first, second, out)
}

/// Whether an item is exchanged for each of the others.
fn exchanges(alloc: Global, first: &Item, cells: u64, others: &[Item], out: &mut [u8]) -> bool
    requires { most_item_octets ≤ length out.old }
    ensures { length out.new ≡ length out.old }
{
    for place in 0..others.len().min(CELLS.len()) {
        // A leaf has one cell.
        let due = [cells.wrapping_add(1), CELLS[place].wrapping_add(1), 0];
        if come_and_go_alone(alloc, first, &others[place], out) != Some(due) {
            return false;
        }
    }
    true
}

/// Whether each is exchanged for each of the others. None for want of memory.
fn all_are_exchanged(alloc: Global) -> Option<bool> {
    let mut out = buffer(alloc).ok()?;
    let firsts = items_of(alloc, 1)?;
    let seconds = items_of(alloc, 2)?;
    for place in 0..firsts.len().min(CELLS.len()) {
        if !exchanges(alloc, &firsts[place], CELLS[place], &seconds, &mut out) {
            return Some(false);
        }
    }
    Some(true)
}

#[test]
fn items_of_all_lengths_come_and_go(rt: HostRuntime) {
    assert!(rt; matches!(all_are_exchanged(rt.alloc()), Some(true)));
}

#[test]
fn cells_are_counted_with_links(rt: HostRuntime) {
    assert!(rt; cells_for(4096) == 256 && cells_for(4097) == 258 && cells_for(65_535) == 4112);
}
