//! Evacuations that come to their end, one that finds no free chunk, and one of an item of seventeen extents.

use crate::made::buffer;
use crate::numbered::{ten_items_and_a_long_one, three_hundred_items};
use crate::room::unused_room;
use crate::thinned::{
    Outcome, changed_but, counted_chunks, evacuated, live_cells, misled, opened, thinned,
};
use crate::tries::{Change, holds};
use chunk_usage::Usage;
use evacuate::EvacuationEnd;
use std::process::Abort;
use std::test::Fail;

// An item of 1,000 octets has 63 cells.
const ITEM_CELLS: u64 = 63;

/// Ten names were moved by so many walks to a few chunks, which have no cells but theirs and the nodes'.
fn check_ten(rt: &impl Abort, usage: &Usage, outcome: Outcome, walks: u64) {
    assert!(rt; outcome.sparse >= 10);
    assert_eq!(rt;
        (outcome.done, outcome.names, outcome.walks),
        (EvacuationEnd::Whole, 10, walks)
    );
    assert_eq!(rt;
        live_cells(usage),
        outcome.nodes.saturating_add(10 * ITEM_CELLS)
    );
    assert!(rt; counted_chunks(usage) <= 3);
}

// Nobody told on which paths the first names were written. Those that are put in later are found without another walk.
#[test]
fn ten_names_of_three_hundred_need_few_chunks(rt: HostRuntime) -> Result<(), Fail> {
    let (mut memory, mut usage) = unused_room(rt.alloc(), 256)?;
    let items = three_hundred_items(rt.alloc())?;
    assert_eq!(rt; items.len(), 300);
    let root = thinned(&mut memory, &mut usage, &items, 30).ok_or("no room")?;
    let (root, outcome) = evacuated(&mut memory, &mut usage, root);
    check_ten(&rt, &usage, outcome, 1);
    let root = changed_but(&mut memory, &mut usage, root, &items, 30, Change::Insert).ok_or(
        "no room",
    )?;
    let root = changed_but(&mut memory, &mut usage, root, &items, 30, Change::Delete).ok_or(
        "no room",
    )?;
    let (_root, outcome) = evacuated(&mut memory, &mut usage, root);
    check_ten(&rt, &usage, outcome, 1);
    Ok(())
}

// Where it was found after the opening in which part of the trie each chunk has its cells, walks over those parts are enough.
#[test]
fn names_of_an_opening_are_found_without_a_walk_over_all(rt: HostRuntime) -> Result<(), Fail> {
    let (mut memory, mut usage) = unused_room(rt.alloc(), 256)?;
    let items = three_hundred_items(rt.alloc())?;
    assert_eq!(rt; items.len(), 300);
    let root = opened(&mut memory, &mut usage, &items, 30).ok_or("no room")?;
    let (_root, outcome) = evacuated(&mut memory, &mut usage, root);
    check_ten(&rt, &usage, outcome, 0);
    Ok(())
}

// Where n5 is put in, the root gets a twig, and behind the path to that, without its last step, all names lie.
#[test]
fn a_name_that_no_listed_path_leads_to_is_found_nearby(rt: HostRuntime) -> Result<(), Fail> {
    let (mut memory, mut usage) = unused_room(rt.alloc(), 16)?;
    let items = three_hundred_items(rt.alloc())?;
    assert_eq!(rt; items.len(), 300);
    let (first, last) = (&items[230..245], &items[245..260]);
    let root = misled(&mut memory, &mut usage, &items, first, last).ok_or("no room")?;
    let (root, outcome) = evacuated(&mut memory, &mut usage, root);
    assert_eq!(rt;
        (outcome.done, outcome.names, outcome.walks),
        (EvacuationEnd::Whole, 32, 0)
    );
    let mut out = buffer(rt.alloc())?;
    assert!(rt; holds(&mut memory, &usage, root, &items[130], &mut out));
    Ok(())
}

// Here all others begin with n0 or n1, and none of the last gives the root a twig: without its last step no listed path leads where n215 is.
#[test]
fn a_name_that_no_listed_path_leads_near_is_found_by_a_walk(rt: HostRuntime) -> Result<(), Fail> {
    let (mut memory, mut usage) = unused_room(rt.alloc(), 16)?;
    let items = three_hundred_items(rt.alloc())?;
    assert_eq!(rt; items.len(), 300);
    let (first, last) = (&items[0..15], &items[15..30]);
    let root = misled(&mut memory, &mut usage, &items, first, last).ok_or("no room")?;
    let (root, outcome) = evacuated(&mut memory, &mut usage, root);
    assert_eq!(rt;
        (outcome.done, outcome.names, outcome.walks),
        (EvacuationEnd::Whole, 32, 1)
    );
    let mut out = buffer(rt.alloc())?;
    assert!(rt; holds(&mut memory, &usage, root, &items[130], &mut out));
    Ok(())
}

#[test]
fn an_evacuation_stops_where_no_chunk_is_free(rt: HostRuntime) -> Result<(), Fail> {
    let (mut memory, mut usage) = unused_room(rt.alloc(), 2)?;
    let items = three_hundred_items(rt.alloc())?;
    assert_eq!(rt; items.len(), 300);
    let few = &items[..20];
    let root = thinned(&mut memory, &mut usage, few, 7).ok_or("no room")?;
    let (_root, outcome) = evacuated(&mut memory, &mut usage, root);
    assert_eq!(rt;
        (outcome.sparse, outcome.done, outcome.names),
        (1, EvacuationEnd::Stopped, 3)
    );
    assert_eq!(rt;
        live_cells(&usage),
        outcome.nodes.saturating_add(3 * ITEM_CELLS)
    );
    assert_eq!(rt; usage.free(), 0);
    Ok(())
}

// An item of 1,400 octets has 88 cells; one of 65,535 has 4,096 with its octets, and 16 links.
const SHORT_CELLS: u64 = 88;

const LONG_CELLS: u64 = 4112;

// The last extent has 16 cells. Its chunk has those of ten items too, of which one is left: 104 in all, and no chunk of the other extents
// is sparse.
#[test]
fn the_seventeenth_extent_is_moved_out_of_a_sparse_chunk(rt: HostRuntime) -> Result<(), Fail> {
    let (mut memory, mut usage) = unused_room(rt.alloc(), 16)?;
    let items = ten_items_and_a_long_one(rt.alloc())?;
    assert_eq!(rt; items.len(), 11);
    let root = thinned(&mut memory, &mut usage, &items, 10).ok_or("no room")?;
    let (root, outcome) = evacuated(&mut memory, &mut usage, root);
    assert_eq!(rt; outcome.done, EvacuationEnd::Whole);
    assert_eq!(rt; usage.live(0), 0);
    let cells = outcome.nodes.saturating_add(SHORT_CELLS + LONG_CELLS);
    assert_eq!(rt; live_cells(&usage), cells);
    let mut out = buffer(rt.alloc())?;
    assert!(rt; holds(&mut memory, &usage, root, &items[0], &mut out));
    assert!(rt; holds(&mut memory, &usage, root, &items[10], &mut out));
    Ok(())
}
