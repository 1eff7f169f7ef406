//! Tries of items: as they are built, changed and read.

ghost use Rattle.std.specs.Prelude.{◌≡◌, ◌≤◌, None, IfOk, IfSome, IsTrue, length};
ghost use Rattle.trie_tests.specs.Prelude.{most_item_octets, Less, Rises, entries_of_items, IsTrie};

use chunk_cells::{CellWrite, read_item};
use chunk_usage::Space;
use packed_node::Ref;
use shift_key::Key;
use trie_read::{count, get, nodes};
use trie_write::{Item, NotDone, build, cells as cells_needed, delete, insert, replace};

/// Whether a key comes before another.
pub(crate) fn comes_before(key: &Key, other: &Key) -> bool
    ensures { IsTrue result → Less key.now other.now }
{
    match key.first_difference(other) {
        None => false,
        Some(place) => key.at(place) < other.at(place),
    }
}

/// Whether items rise by their keys.
fn rise(items: &[Item]) -> bool
    ensures { IsTrue result → Rises (entries_of_items items.now) }
{
    if items.len() < 2 {
        return true;
    }
    if comes_before(&items[0].key(), &items[1].key()) {
        return rise(&items[1..]);
    }
    false
}

/// The root of the trie of some items, and how many cells were said to be needed. None where they don't rise by their keys, or there is no
/// room.
pub(crate) fn built<C: CellWrite, U: Space>(
    cells: &mut C,
    usage: &mut U,
    items: &[Item],
) -> Option<(Option<Ref>, u64)>
    requires { IsTrie C.has C.kept C.given U.account cells.old usage.old None }
    ensures { IfSome result (λ r. IsTrie C.has C.kept C.given U.account cells.new usage.new r.0) }
{
    if !rise(items) {
        return None;
    }
    let needed = cells_needed(items);
    match build(cells, usage, items) {
        Ok(root) => Some((root, needed)),
        Err(_) => None,
    }
}

/// What is done with an item.
#[derive(Clone, Copy)]
pub(crate) enum Change {
    Insert,
    Replace,
    Delete,
}

/// The root after a change.
pub(crate) fn changed<C: CellWrite, U: Space>(
    cells: &mut C,
    usage: &mut U,
    root: Option<Ref>,
    change: Change,
    item: &Item,
) -> Result<Option<Ref>, NotDone>
    requires { IsTrie C.has C.kept C.given U.account cells.old usage.old root }
    ensures { IfOk result (IsTrie C.has C.kept C.given U.account cells.new usage.new) }
{
    let key = item.key();
    let octets = item.octets();
    match change {
        Change::Insert => insert(cells, usage, root, &key, octets),
        Change::Replace => replace(cells, usage, root, &key, octets),
        Change::Delete => delete(cells, usage, root, &key),
    }
}

/// How many names and nodes there are.
pub(crate) fn sizes<C: CellWrite, U: Space>(
    cells: &mut C,
    usage: &U,
    root: Option<Ref>,
) -> (u64, u64)
    requires { IsTrie C.has C.kept C.given U.account cells.old usage.now root }
    ensures { IsTrie C.has C.kept C.given U.account cells.new usage.now root }
{
    let names = count(cells, root);
    (names, nodes(cells, root))
}

/// Whether a root has this item.
pub(crate) fn holds<C: CellWrite, U: Space>(
    cells: &mut C,
    usage: &U,
    root: Option<Ref>,
    item: &Item,
    out: &mut [u8],
) -> bool
    requires trie { IsTrie C.has C.kept C.given U.account cells.old usage.now root }
    requires room { most_item_octets ≤ length out.old }
    ensures trie { IsTrie C.has C.kept C.given U.account cells.new usage.now root }
    ensures room { length out.new ≡ length out.old }
{
    match get(cells, root, &item.key()) {
        Some(leaf) => {
            let len = read_item(cells, leaf, out);
            &out[..len] == item.octets()
        }
        None => false,
    }
}
