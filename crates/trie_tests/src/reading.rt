//! A trie of the two names a. and b., written cell by cell.

ghost use Rattle.std.specs.Prelude.{◌≡◌, ◌≤◌, ◌∷◌, [], length, Some, true, IfOk};
ghost use Rattle.trie_tests.specs.Prelude.{Stands, Leads, most_item_octets, EachTells, two_names};

use crate::made::{buffer, lone};
use chunk_cells::{CellRead, CellWrite, PlainCells, write_item};
use dns_name::Name;
use packed_node::{Branch, Leaf, Node, bitmap};
use shift_key::Key;
use std::alloc::{AllocError, Global};
use std::test::Fail;
use trie_read::{Ancestors, CellReading, Iter, Kind, Reading, count, find, get, nodes};

/// The leaves of the two names.
const A: Leaf = Leaf { len: 3, at: 3 };

const B: Leaf = Leaf { len: 3, at: 4 };

/// Writes the trie into the first chunk, with the root at its beginning.
fn write_two_names(cells: &mut PlainCells)
    requires { ⟦<PlainCells as CellWrite>⟧.given cells.old ≡ true ∷ [] }
    ensures stands { Stands (⟦<PlainCells as CellRead>⟧.has cells.new) (Some 0) two_names }
    ensures told { EachTells Leads two_names }
{
    let branch = Branch {
        offset: 0,
        bitmap: bitmap::pair(17, 18),
        twigs: 1,
    };
    write_item(cells, &lone(A), b"\x01a\0");
    write_item(cells, &lone(B), b"\x01b\0");
    cells.put(1, Node::Leaf(A).pack());
    cells.put(2, Node::Leaf(B).pack());
    cells.put(0, Node::Branch(branch).pack());
}

/// Cells with the trie.
fn example(alloc: Global) -> Result<PlainCells, AllocError>
    ensures stands { IfOk result (λ cells. Stands (⟦<PlainCells as CellRead>⟧.has cells) (Some 0) two_names) }
    ensures told { IfOk result (λ _. EachTells Leads two_names) }
{
    let mut cells = PlainCells::new(alloc, 1)?;
    cells.give(0);
    write_two_names(&mut cells);
    Ok(cells)
}

/// Whether this is the leaf of a name in wire form.
fn is_got(cells: &mut PlainCells, wire: &[u8], leaf: Option<Leaf>) -> bool
    requires stands { Stands (⟦<PlainCells as CellRead>⟧.has cells.old) (Some 0) two_names }
    requires told { EachTells Leads two_names }
    ensures { cells.new ≡ cells.old }
{
    match Name::from_wire(wire) {
        Some(name) => get(cells, Some(0), &Key::of(&name)) == leaf,
        None => false,
    }
}

/// Whether there are two names, and three nodes.
fn is_counted(cells: &mut PlainCells) -> bool
    requires stands { Stands (⟦<PlainCells as CellRead>⟧.has cells.old) (Some 0) two_names }
    requires told { EachTells Leads two_names }
    ensures { cells.new ≡ cells.old }
{
    let names = count(cells, Some(0));
    let all = nodes(cells, Some(0));
    names == 2 && all == 3
}

fn are_got_and_counted(cells: PlainCells) -> bool
    requires stands { Stands (⟦<PlainCells as CellRead>⟧.has cells) (Some 0) two_names }
    requires told { EachTells Leads two_names }
{
    let mut cells = cells;
    let there = is_got(&mut cells, b"\x01b\0", Some(B));
    let absent = is_got(&mut cells, b"\x01c\0", None);
    there && absent && is_counted(&mut cells)
}

#[test]
fn two_names_are_found_and_counted(rt: HostRuntime) -> Result<(), Fail> {
    assert!(rt; are_got_and_counted(example(rt.alloc())?));
    Ok(())
}

fn is_key_of(key: Option<Key>, wire: &[u8]) -> bool {
    key.is_some_and(|key| key.leads(wire))
}

/// Whether this is found for a name in wire form: the kind, the number of names above, and the last name that isn't behind it, or no
/// octets where there is none.
fn is_found(cells: &mut PlainCells, wire: &[u8], kind: Kind, names: u8, pred: &[u8]) -> bool
    requires stands { Stands (⟦<PlainCells as CellRead>⟧.has cells.old) (Some 0) two_names }
    requires told { EachTells Leads two_names }
    ensures { cells.new ≡ cells.old }
{
    let Some(name) = Name::from_wire(wire) else {
        return false;
    };
    let found = find(cells, Some(0), &Key::of(&name));
    let (is_first, kind_found, len) = (found.pred.is_none(), found.kind, found.chain.len);
    let is_pred = is_key_of(found.pred, pred);
    kind_found == kind && len == names && is_pred != is_first && is_first == pred.is_empty()
}

/// What is found for a name in wire form: the kind, the number of names above, and the last name that isn't behind it.
type Neighbours = (&'static [u8], Kind, u8, &'static [u8]);

fn are_neighbours(cells: PlainCells, rows: &[Neighbours]) -> bool
    requires stands { Stands (⟦<PlainCells as CellRead>⟧.has cells) (Some 0) two_names }
    requires told { EachTells Leads two_names }
{
    let mut cells = cells;
    for (wire, kind, names, pred) in rows {
        if !is_found(&mut cells, wire, *kind, *names, pred) {
            return false;
        }
    }
    true
}

const NEIGHBOURS: &[Neighbours] = &[
    (b"\x01b\0", Kind::Exact, 1, b"\x01b\0"),
    (b"\x01x\x01a\0", Kind::Partial, 1, b"\x01a\0"),
    (b"\x01x\x01b\0", Kind::Partial, 1, b"\x01b\0"),
    (b"\x02aa\0", Kind::Absent, 0, b"\x01a\0"),
    (b"\x01c\0", Kind::Absent, 0, b"\x01b\0"),
    (b"\0", Kind::Absent, 0, b""),
];

#[test]
fn neighbours_are_found(rt: HostRuntime) -> Result<(), Fail> {
    assert!(rt; are_neighbours(example(rt.alloc())?, NEIGHBOURS));
    Ok(())
}

/// What a look-up gives.
#[derive(Clone, Copy, PartialEq)]
struct Place {
    /// The name's leaf.
    leaf: Option<Leaf>,
    /// The last of the names at or above it, and how many labels that has.
    last: Option<(Leaf, u8)>,
    /// The leaves before and after its place.
    before: Option<Leaf>,
    after: Option<Leaf>,
}

fn seen(
    leaf: Option<Leaf>,
    last: Option<(Leaf, u8)>,
    before: Option<Leaf>,
    after: Option<Leaf>,
) -> Place {
    Place {
        leaf,
        last,
        before,
        after,
    }
}

fn last_of(above: &Ancestors) -> Option<(Leaf, u8)> {
    let name = above.as_slice().last()?;
    Some((name.leaf, name.labels))
}

/// Whether look-ups one after another give these.
fn looks_up(cells: PlainCells, rows: &[(&[u8], Place)]) -> bool
    requires stands { Stands (⟦<PlainCells as CellRead>⟧.has cells) (Some 0) two_names }
    requires told { EachTells Leads two_names }
{
    let mut cells = cells;
    let mut key = Key::root();
    let mut above = Ancestors::new();
    let mut place = Iter::start(Some(0));
    for (wire, want) in rows {
        let Some(name) = Name::from_wire(wire) else {
            return false;
        };
        key.set(&name);
        let leaf = place.lookup(&mut cells, &key, &mut above);
        let before = place.behind(&mut cells);
        let after = place.ahead(&mut cells);
        let last = last_of(&above);
        let found = Place {
            leaf,
            last,
            before,
            after,
        };
        if found != *want {
            return false;
        }
    }
    true
}

#[test]
fn a_look_up_gives_all(rt: HostRuntime) -> Result<(), Fail> {
    let rows: [(&[u8], Place); 5] = [
        (b"\x01b\0", seen(Some(B), Some((B, 1)), Some(A), Some(B))),
        (b"\x01x\x01a\0", seen(None, Some((A, 1)), Some(A), Some(B))),
        (b"\x02aa\0", seen(None, None, Some(A), Some(B))),
        (b"\0", seen(None, None, None, Some(A))),
        (b"\x01c\0", seen(None, None, Some(B), None)),
    ];
    assert!(rt; looks_up(example(rt.alloc())?, &rows));
    Ok(())
}

/// What a walk of two names from the beginning gives: whether the first two are these, and there is no third.
fn walks_over<R: Reading>(reading: &mut R, first: &[u8], second: &[u8]) -> bool
    requires { R.holds reading.old two_names }
    ensures { reading.new ≡ reading.old }
{
    let mut iter = reading.iter();
    let one = is_key_of(reading.next(&mut iter), first);
    let two = is_key_of(reading.next(&mut iter), second);
    one && two && reading.next(&mut iter).is_none()
}

/// Whether this is the last name before the key, and nothing is after it.
fn comes_last<R: Reading>(reading: &mut R, key: &Key, last: &[u8]) -> bool
    requires { R.holds reading.old two_names }
    ensures { reading.new ≡ reading.old }
{
    let mut iter = reading.iter();
    reading.seek(&mut iter, key);
    is_key_of(reading.prev(&mut iter), last)
}

/// Whether a name has no item, and lies under one that has.
fn is_below<R: Reading>(reading: &mut R, key: &Key, out: &mut [u8]) -> bool
    requires holds { R.holds reading.old two_names }
    requires room { most_item_octets ≤ length out.old }
    ensures { reading.new ≡ reading.old }
{
    let fetched = reading.fetch(key, out);
    let kind = reading.find(key).kind;
    fetched.is_none() && kind == Kind::Partial
}

/// Whether a name has this item, with nothing behind it in the array.
fn is_fetched<R: Reading>(reading: &mut R, key: &Key, want: &[u8], out: &mut [u8]) -> bool
    requires holds { R.holds reading.old two_names }
    requires room { most_item_octets ≤ length out.old }
    ensures { reading.new ≡ reading.old }
{
    match reading.fetch(key, out) {
        Some(len) => &out[..len] == want && out[len..].first() == Some(&0),
        None => false,
    }
}

/// Whether a version of number 7 has two names, and three nodes.
fn is_seventh<R: Reading>(reading: &mut R) -> bool
    requires { R.holds reading.old two_names }
    ensures { reading.new ≡ reading.old }
{
    let number = reading.version();
    let names = reading.count();
    let all = reading.nodes();
    number == 7 && names == 2 && all == 3
}

/// Whether a reading gives all this, of a name between the two and the second.
fn reads<R: Reading>(reading: &mut R, between: &[u8], second: &[u8], out: &mut [u8]) -> bool
    requires holds { R.holds reading.old two_names }
    requires room { most_item_octets ≤ length out.old }
{
    let (Some(middle), Some(last)) = (Name::from_wire(between), Name::from_wire(second)) else {
        return false;
    };
    let middle = Key::of(&middle);
    is_seventh(reading)
        && walks_over(reading, b"\x01a\0", second)
        && comes_last(reading, &middle, b"\x01a\0")
        && is_below(reading, &middle, out)
        && is_fetched(reading, &Key::of(&last), second, out)
}

#[test]
fn a_version_is_read(rt: HostRuntime) -> Result<(), Fail> {
    let mut out = buffer(rt.alloc())?;
    let mut reading = CellReading::new(example(rt.alloc())?, Some(0), 7);
    assert!(rt; reads(&mut reading, b"\x01x\x01a\0", b"\x01b\0", &mut out));
    Ok(())
}
