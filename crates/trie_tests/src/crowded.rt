//! Long items that are taken out and put in again, where there is no room for all of them twice.

ghost use Rattle.trie_tests.specs.Tries.{IsTrie};

use crate::numbered::numbered;
use crate::room::unused_room;
use crate::tries::{Change, built, changed};
use chunk_cells::CellWrite;
use chunk_usage::Space;
use std::alloc::Global;
use std::test::Fail;
use trie_read::Root;
use trie_write::{Item, NotDone};

/// Which of the first 64 changes finds no room, counted from 1: one item after another is taken out and put in again.
fn refused_at<C: CellWrite, U: Space>(
    cells: &mut C,
    usage: &mut U,
    root: Root,
    items: &[Item],
) -> Option<usize>
    requires { IsTrie C.has C.kept C.given U.account cells.old usage.old root }
{
    let mut root = root;
    for step in 0..64 {
        let change = if step % 2 == 0 {
            Change::Delete
        } else {
            Change::Insert
        };
        match changed(cells, usage, root, change, items.get(step / 2)?) {
            Ok(new) => root = new,
            Err(NotDone::Full(_)) => return Some(step + 1),
            Err(NotDone::Refused) => return None,
        }
    }
    None
}

/// The same of 32 items of 4,096 octets, in a room of its own.
fn refused_of_long_items(alloc: Global) -> Result<Option<usize>, Fail> {
    let items = numbered(alloc, 32, 4096)?;
    let (mut memory, mut usage) = unused_room(alloc, 16)?;
    let (root, _cells) = built(&mut memory, &mut usage, &items).ok_or("no room")?;
    Ok(refused_at(&mut memory, &mut usage, root, &items))
}

// They fill eight of the 16 chunks, of which four are kept free.
#[test]
fn long_items_that_are_written_anew_fill_the_table(rt: HostRuntime) -> Result<(), Fail> {
    let refused = refused_of_long_items(rt.alloc())?;
    assert!(rt; refused.is_some());
    Ok(())
}
