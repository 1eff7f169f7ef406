//! What a leaf's item says: its name, and how its key compares with another.

ghost use Rattle.std.specs.Prelude.{◌≡◌, ◌↔◌, IsTrue};
ghost use Rattle.trie_read.specs.Prelude.{IsName, key_of, IsKey, Leads, Entry, IsDifference, IsLeafOf};

use chunk_cells::{CellRead, begins_with, read_front};
use dns_name::Name;
use packed_node::Leaf;
use shift_key::{Difference, Key};

/// The name that a leaf's item says.
pub fn name_at<C: CellRead>(cells: &mut C, leaf: Leaf) -> Name
    requires { (e : Entry) × IsLeafOf (C.has cells.old) e leaf × Leads e.key e.item }
    ensures same { cells.new ≡ cells.old }
    ensures name { IsName result }
    ensures key { (e : Entry) → IsLeafOf (C.has cells.old) e leaf → Leads e.key e.item → key_of result ≡ e.key }
{
    let mut front = [0; 256];
    let len = read_front(cells, leaf, &mut front);
    Name::from_wire(&front[..len]).unwrap()
}

/// The key that a leaf's item says.
pub fn key_at<C: CellRead>(cells: &mut C, leaf: Leaf) -> Key
    requires { (e : Entry) × IsLeafOf (C.has cells.old) e leaf × Leads e.key e.item }
    ensures same { cells.new ≡ cells.old }
    ensures key { (e : Entry) → IsLeafOf (C.has cells.old) e leaf → Leads e.key e.item → result ≡ e.key }
{
    Key::of(&name_at(cells, leaf))
}

/// Whether the item of a leaf is that of the key.
pub fn is_of<C: CellRead>(cells: &mut C, leaf: Leaf, key: &Key) -> bool
    requires { (e : Entry) × IsLeafOf (C.has cells.old) e leaf × Leads e.key e.item }
    ensures same { cells.new ≡ cells.old }
    ensures value { (e : Entry) → IsLeafOf (C.has cells.old) e leaf → Leads e.key e.item → IsTrue result ↔ (e.key ≡ key.now) }
{
    begins_with(cells, leaf, key.wire())
}

/// The first place at which the key differs from that of a leaf's item, and what that one has there; `None` exactly where they are equal.
pub fn difference_at<C: CellRead>(cells: &mut C, leaf: Leaf, key: &Key) -> Option<Difference>
    requires { (e : Entry) × IsLeafOf (C.has cells.old) e leaf × Leads e.key e.item }
    ensures same { cells.new ≡ cells.old }
    ensures key { IsKey key.now }
    ensures difference { (e : Entry) → IsLeafOf (C.has cells.old) e leaf → Leads e.key e.item → IsDifference key.now e.key result }
{
    // Most names that are compared are one, which is seen where its octets lie.
    if is_of(cells, leaf, key) {
        let _key = key.len(); // for the proof
        return None;
    }
    difference_from(cells, leaf, key)
}

/// The same, for a key that need not be that of the item.
fn difference_from<C: CellRead>(cells: &mut C, leaf: Leaf, key: &Key) -> Option<Difference>
    requires { (e : Entry) × IsLeafOf (C.has cells.old) e leaf × Leads e.key e.item }
    ensures same { cells.new ≡ cells.old }
    ensures key { IsKey key.now }
    ensures difference { (e : Entry) → IsLeafOf (C.has cells.old) e leaf → Leads e.key e.item → IsDifference key.now e.key result }
{
    let mut front = [0; 256];
    let len = read_front(cells, leaf, &mut front);
    key.difference(&front[..len])
}
