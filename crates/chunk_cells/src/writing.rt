//! Items written: 16 octets a cell, the last one filled up with zeros.

ghost use Rattle.std.specs.Prelude.{◌≡◌, ◌≢◌, ◌+◌, ◌*◌, ◌<◌, ◌≤◌, ℕ, length, drop, slice_index};
ghost use Rattle.chunk_cells.specs.Prelude.{w64, from_le_bytes, Cell, IsBeside, ItemLies, item_cell};
ghost use Rattle.chunk_cells.specs.Prelude.{CanLayAt, CanLayCells, links, AreBlank, extents_at, extents_in};

use super::CellWrite;
use super::extents::{Extents, LAST_OCTETS, LINK_PLACE, LINKED_OCTETS, content_cells_for, link_to};
use packed_node::{Cell, Ref};

/// Writes an item into the cells of its extents.
pub fn write_item<C: CellWrite>(cells: &mut C, extents: &Extents, item: &[u8])
    requires some { 0 < length item.now }
    requires short { length item.now ≤ 65535 }
    requires size { extents.now.len ≡ length item.now }
    requires blank { AreBlank (C.kept cells.old) (C.given cells.old) (length item.now) (extents_in extents.now) }
    ensures lies { ItemLies (C.has cells.new) (extents_in extents.now) item.now }
    ensures others { (q : ℕ) (c : Cell) → IsBeside q (length item.now) (extents_in extents.now) → C.has cells.old q c → C.has cells.new q c }
    ensures given { C.given cells.new ≡ C.given cells.old }
    ensures kept { C.kept cells.new ≡ C.kept cells.old }
{
    write_extents(cells, &extents.at, item);
}

/// Writes octets into extents, the last one first.
fn write_extents<C: CellWrite>(cells: &mut C, at: &[Ref], item: &[u8])
    requires { CanLayAt (C.kept cells.old) (C.given cells.old) at.now (length item.now) }
    ensures lies { ItemLies (C.has cells.new) (extents_at (links (length item.now)) at.now) item.now }
    ensures others { (q : ℕ) (c : Cell) → IsBeside q (length item.now) (extents_at (links (length item.now)) at.now) → C.has cells.old q c → C.has cells.new q c }
    ensures given { C.given cells.new ≡ C.given cells.old }
    ensures kept { C.kept cells.new ≡ C.kept cells.old }
{
    if item.len() <= LAST_OCTETS {
        return write_cells(cells, at[0], content_cells_for(item.len() as u16), item);
    }
    write_extents(cells, &at[1..], &item[LINKED_OCTETS..]);
    write_cells(cells, at[0], LINK_PLACE, item);
    cells.put(at[0] + LINK_PLACE, link_to(at[1]));
}

/// Writes the first octets of an item into so many cells, from `at` on.
fn write_cells<C: CellWrite>(cells: &mut C, at: Ref, count: u32, item: &[u8])
    requires { CanLayCells (C.kept cells.old) (C.given cells.old) at count }
    ensures lies { (k : ℕ) → k < count → C.has cells.new (at + k) (item_cell item.now k) }
    ensures others { (q : ℕ) (c : Cell) → ((k : ℕ) → k < count → q ≢ at + k) → C.has cells.old q c → C.has cells.new q c }
    ensures given { C.given cells.new ≡ C.given cells.old }
    ensures kept { C.kept cells.new ≡ C.kept cells.old }
{
    for k in 0..count {
        cells.put(at + k, cell_of(item, 16 * k as usize));
    }
}

/// The cell of the 16 octets from `start` on.
fn cell_of(item: &[u8], start: usize) -> Cell
    requires { start < 8192 }
    ensures big { result.big ≡ from_le_bytes w64 (drop start item.now) }
    ensures small { result.small ≡ from_le_bytes w64 (drop (start + 8) item.now) }
{
    let big = word_of(item, start);
    let small = word_of(item, start + 8);
    Cell { big, small }
}

/// The word of the eight octets from `start` on, the first the lowest; 0 stands for those past the item's end.
#[inline]
fn word_of(item: &[u8], start: usize) -> u64
    requires { start < 8200 }
    ensures { result ≡ from_le_bytes w64 (drop start item.now) }
{
    if start + 8 <= item.len() {
        return whole_word(item, start);
    }
    last_word(item, start)
}

/// The same of octets that are all there.
#[inline]
pub(crate) fn whole_word(octets: &[u8], start: usize) -> u64
    requires { start + 8 ≤ length octets.now }
    ensures { result ≡ from_le_bytes w64 (drop start octets.now) }
{
    u64::from_le_bytes([
        octets[start],
        octets[start + 1],
        octets[start + 2],
        octets[start + 3],
        octets[start + 4],
        octets[start + 5],
        octets[start + 6],
        octets[start + 7],
    ])
}

/// The same where the item may end before.
fn last_word(item: &[u8], start: usize) -> u64
    requires { start < 8200 }
    ensures { result ≡ from_le_bytes w64 (drop start item.now) }
{
    u64::from_le_bytes([
        octet(item, start),
        octet(item, start + 1),
        octet(item, start + 2),
        octet(item, start + 3),
        octet(item, start + 4),
        octet(item, start + 5),
        octet(item, start + 6),
        octet(item, start + 7),
    ])
}

/// An octet of the item, 0 past its end.
#[inline]
fn octet(item: &[u8], place: usize) -> u8
    ensures { result ≡ slice_index item.now place }
{
    if place < item.len() { item[place] } else { 0 }
}
