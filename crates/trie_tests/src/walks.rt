//! A walk over the names of a trie, which were put in in another order.

ghost use Rattle.std.specs.Prelude.{◌≡◌};
ghost use Rattle.trie_read.specs.Readings.{IsHeld};

use crate::made::items;
use crate::room::unused_room;
use crate::thinned::changed_all;
use crate::tries::Change;
use std::alloc::Global;
use trie_read::{CellReading, Reading};
use trie_write::Item;

/// Whether a walk passes the names of these items, in their order, and no other.
fn walks_by<R: Reading>(reading: &mut R, items: &[Item]) -> bool
    requires { IsHeld (R.holds reading.old) }
{
    let mut iter = reading.iter();
    for item in items {
        let key = reading.next(&mut iter);
        if !key.is_some_and(|key| key.leads(item.octets())) {
            return false;
        }
    }
    reading.next(&mut iter).is_none()
}

/// Whether names that are put in one by one are walked in an order. None for want of memory.
fn are_walked(alloc: Global, names: &[&[u8]], rising: &[&[u8]]) -> Option<bool> {
    let first = items(alloc, names, b"1")?;
    let due = items(alloc, rising, b"1")?;
    let (mut memory, mut usage) = unused_room(alloc, 16).ok()?;
    let root = changed_all(&mut memory, &mut usage, None, &first, Change::Insert)?;
    let mut reading = CellReading::new(memory, root, 0);
    Some(walks_by(&mut reading, &due))
}

// The names of RFC 4034, section 6.1, as a file might have them.
const MIXED: [&[u8]; 9] = [
    b"example.",
    b"zABC.a.EXAMPLE.",
    b"\\200.z.example.",
    b"z.example.",
    b"*.z.example.",
    b"Z.a.example.",
    b"yljkjljk.a.example.",
    b"\\001.z.example.",
    b"a.example.",
];

const RISING: [&[u8]; 9] = [
    b"example.",
    b"a.example.",
    b"yljkjljk.a.example.",
    b"z.a.example.",
    b"zabc.a.example.",
    b"z.example.",
    b"\\001.z.example.",
    b"*.z.example.",
    b"\\200.z.example.",
];

#[test]
fn names_are_walked_in_canonical_order(rt: HostRuntime) {
    assert!(rt; are_walked(rt.alloc(), &MIXED, &RISING) == Some(true));
}
