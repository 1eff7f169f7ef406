//! Tries of twenty names: as they are built, and as names come, change and go.

ghost use Rattle.std.specs.Prelude.{◌<◌, None, IfOk};
ghost use Rattle.trie_tests.specs.Tries.{IsTrie};

use crate::made::items;
use crate::room::unused_room;
use crate::tries::{Change, built, changed, sizes};
use chunk_cells::CellWrite;
use chunk_usage::Space;
use packed_node::Ref;
use std::alloc::Global;
use trie_read::get;
use trie_write::Item;

/// How many names and nodes there are, and how many octets a name's item has: 0 where it isn't there.
fn seen<C: CellWrite, U: Space>(
    cells: &mut C,
    usage: &U,
    root: Option<Ref>,
    name: &Item,
) -> (u64, u64, usize)
    requires { IsTrie C.has C.kept C.given U.account cells.old usage.now root }
    ensures { IsTrie C.has C.kept C.given U.account cells.new usage.now root }
{
    let (names, all) = sizes(cells, usage, root);
    match get(cells, root, &name.key()) {
        Some(leaf) => (names, all, leaf.len as usize),
        None => (names, all, 0),
    }
}

/// How many names there are once one of so many has changed and so many before it.
fn names_after(change: Change, all: usize, before: usize) -> usize
    requires { before < all }
{
    match change {
        Change::Insert => before + 1,
        Change::Replace => all,
        Change::Delete => all - before - 1,
    }
}

/// The root after a change with each of the items. Err: the first after which the number of names, or of nodes, or the length of
/// its item isn't what is due.
fn change_each<C: CellWrite, U: Space>(
    cells: &mut C,
    usage: &mut U,
    root: Option<Ref>,
    change: Change,
    items: &[Item],
    nodes_due: &[u64],
) -> Result<Option<Ref>, usize>
    requires { IsTrie C.has C.kept C.given U.account cells.old usage.old root }
    ensures { IfOk result (IsTrie C.has C.kept C.given U.account cells.new usage.new) }
{
    let mut root = root;
    for i in 0..items.len() {
        match changed(cells, usage, root, change, &items[i]) {
            Ok(new) => root = new,
            Err(_) => return Err(i),
        }
        let len = match change {
            Change::Delete => 0,
            _ => items[i].octets().len(),
        };
        let names = names_after(change, items.len(), i) as u64;
        if i >= nodes_due.len()
            || seen(cells, usage, root, &items[i]) != (names, nodes_due[i], len)
        {
            return Err(i);
        }
    }
    Ok(root)
}

/// Items that come, are replaced by others of the same names, and go.
#[derive(Drop)]
struct Rounds {
    first: Vec<Item>,
    next: Vec<Item>,
    last: Vec<Item>,
}

/// The root once they have come and gone.
fn come_and_go<C: CellWrite, U: Space>(
    cells: &mut C,
    usage: &mut U,
    rounds: &Rounds,
    due: &NodesDue,
) -> Result<Option<Ref>, usize>
    requires { IsTrie C.has C.kept C.given U.account cells.old usage.old None }
{
    let root = change_each(cells, usage, None, Change::Insert, &rounds.first, due.grown)?;
    let root = change_each(cells, usage, root, Change::Replace, &rounds.next, due.same)?;
    change_each(cells, usage, root, Change::Delete, &rounds.last, due.shrunk)
}

/// How many nodes there are after each of them.
struct NodesDue {
    grown: &'static [u64],
    same: &'static [u64],
    shrunk: &'static [u64],
}

const NODES_DUE: NodesDue = NodesDue {
    grown: &[
        1, 3, 4, 5, 7, 9, 10, 11, 13, 14, 15, 16, 17, 18, 19, 20, 21, 22, 23, 24,
    ],
    same: &[24; 20],
    shrunk: &[
        23, 22, 21, 20, 18, 17, 15, 14, 13, 12, 11, 10, 9, 8, 7, 5, 4, 3, 1, 0,
    ],
};

/// Twenty names, in the order of their keys.
const RISING: [&[u8]; 20] = [
    b"a.", b"a.a.", b"b.a.", b"c.a.", b"b.", b"bb.", b"bc.", b"c.", b"x.c.", b"y.c.", b"d.", b"e.",
    b"f.", b"g.", b"h.", b"i.", b"j.", b"k.", b"l.", b"m.",
];

/// The same in another order.
const MIXED: [&[u8]; 20] = [
    b"a.", b"c.", b"h.", b"a.a.", b"x.c.", b"i.", b"b.a.", b"y.c.", b"j.", b"c.a.", b"d.", b"k.",
    b"b.", b"e.", b"l.", b"bb.", b"f.", b"m.", b"bc.", b"g.",
];

fn rounds_of(alloc: Global, rising: &[&[u8]], mixed: &[&[u8]]) -> Option<Rounds> {
    Some(Rounds {
        first: items(alloc, rising, b"1")?,
        next: items(alloc, rising, b"a longer payload than before")?,
        last: items(alloc, mixed, b"")?,
    })
}

/// Whether all of them are gone in the end.
fn all_go(alloc: Global, rounds: &Rounds, due: &NodesDue) -> bool {
    let Ok((mut memory, mut usage)) = unused_room(alloc, 16) else {
        return false;
    };
    matches!(come_and_go(&mut memory, &mut usage, rounds, due), Ok(None))
}

#[test]
fn twenty_names_come_and_go(rt: HostRuntime) {
    let gone = match rounds_of(rt.alloc(), &RISING, &MIXED) {
        Some(rounds) => all_go(rt.alloc(), &rounds, &NODES_DUE),
        None => false,
    };
    assert!(rt; gone);
}

/// What a trie of some names in a room of its own has: its names and nodes, how many cells were said to be needed, and how many cells of
/// its first chunk count. None where they don't rise, or for want of memory.
fn built_alone(alloc: Global, names: &[&[u8]]) -> Option<((u64, u64), u64, u32)> {
    let items = items(alloc, names, b"1")?;
    let (mut memory, mut usage) = unused_room(alloc, 16).ok()?;
    let (root, needed) = built(&mut memory, &mut usage, &items)?;
    let sizes = sizes(&mut memory, &usage, root);
    Some((sizes, needed, usage.live(0)))
}

// There is one cell for each node and each item.
#[test]
fn twenty_names_are_built(rt: HostRuntime) {
    assert!(rt; built_alone(rt.alloc(), &RISING) == Some(((20, 24), 44, 44)));
}
