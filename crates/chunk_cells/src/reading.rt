//! Items read.

ghost use Rattle.std.specs.Prelude.{◌≡◌, ◌+◌, ◌*◌, ◌<◌, ◌≤◌, ℕ, List, length, min, take, drop, slice_index};
ghost use Rattle.chunk_cells.specs.Prelude.{w64, from_le_bytes, to_le_bytes, Cell, HasItem, content_cells, item_cell, AreOctets, IsItem, CanReadCells, CanReadLast};

use super::CellRead;
use super::extents::{LAST_OCTETS, LINK_PLACE, LINKED_OCTETS, content_cells_for, next_extent};
use packed_node::{Cell, Leaf, Ref};

/// Reads the item of a leaf into the beginning of `out`, and gives its length.
pub fn read_item<C: CellRead>(cells: &mut C, leaf: Leaf, out: &mut [u8]) -> usize
    requires room { leaf.len ≤ length out.old }
    requires there { (item : List ℕ) × IsItem item × HasItem (C.has cells.old) leaf.at leaf.len item }
    ensures same { cells.new ≡ cells.old }
    ensures length { result ≡ leaf.len }
    ensures item { (item : List ℕ) → IsItem item → HasItem (C.has cells.old) leaf.at leaf.len item → take leaf.len out.new ≡ item }
    ensures rest { (i : ℕ) → 16 * content_cells leaf.len ≤ i → slice_index out.new i ≡ slice_index out.old i }
{
    read_extents(cells, leaf.at, leaf.len, out);
    leaf.len as usize
}

/// Reads octets from their extents, the first of which begins here, into the beginning of `out`.
fn read_extents<C: CellRead>(cells: &mut C, at: Ref, len: u16, out: &mut [u8])
    requires room { len ≤ length out.old }
    requires there { (item : List ℕ) × AreOctets item × HasItem (C.has cells.old) at len item }
    ensures same { cells.new ≡ cells.old }
    ensures octets { (item : List ℕ) → AreOctets item → HasItem (C.has cells.old) at len item → (i : ℕ) → i < len → slice_index out.new i ≡ slice_index item i }
    ensures rest { (i : ℕ) → 16 * content_cells len ≤ i → slice_index out.new i ≡ slice_index out.old i }
{
    if len as usize <= LAST_OCTETS {
        return read_last(cells, at, len, out);
    }
    read_cells(cells, at, LINK_PLACE, out);
    let next = next_extent(cells, at);
    read_extents(
        cells,
        next,
        len - LINKED_OCTETS as u16,
        &mut out[LINKED_OCTETS..],
    );
}

/// Reads octets that lie side by side. Where `out` ends before the last cell does, that one is read octet by octet.
fn read_last<C: CellRead>(cells: &mut C, at: Ref, len: u16, out: &mut [u8])
    requires { CanReadLast (C.has cells.old) at len (length out.old) }
    ensures same { cells.new ≡ cells.old }
    ensures octets { (item : List ℕ) → AreOctets item → ((k : ℕ) → k < content_cells len → C.has cells.old (at + k) (item_cell item k))
        → (i : ℕ) → i < len → slice_index out.new i ≡ slice_index item i }
    ensures rest { (i : ℕ) → 16 * content_cells len ≤ i → slice_index out.new i ≡ slice_index out.old i }
{
    let count = content_cells_for(len);
    if 16 * count as usize <= out.len() {
        return read_cells(cells, at, count, out);
    }
    read_cells(cells, at, count - 1, out);
    let cell = cells.cell(at + (count - 1));
    put_front(out, 16 * (count - 1) as usize, cell);
}

/// Reads the first 256 octets of a leaf's item, or all where it has fewer, and gives their number.
pub fn read_front<C: CellRead>(cells: &mut C, leaf: Leaf, out: &mut [u8; 256]) -> usize
    requires there { (item : List ℕ) × HasItem (C.has cells.old) leaf.at leaf.len item }
    ensures same { cells.new ≡ cells.old }
    ensures length { result ≡ min leaf.len 256 }
    ensures front { (item : List ℕ) → AreOctets item → HasItem (C.has cells.old) leaf.at leaf.len item → take result out.new ≡ take 256 item }
{
    let len = leaf.len.min(256);
    read_cells(cells, leaf.at, content_cells_for(len), out);
    len as usize
}

/// Reads the octets of so many cells, from `at` on, into the beginning of `out`.
fn read_cells<C: CellRead>(cells: &mut C, at: Ref, count: u32, out: &mut [u8])
    requires { CanReadCells (C.has cells.old) at count (length out.old) }
    ensures same { cells.new ≡ cells.old }
    ensures octets { (item : List ℕ) → AreOctets item → ((k : ℕ) → k < count → C.has cells.old (at + k) (item_cell item k))
        → (i : ℕ) → i < 16 * count → slice_index out.new i ≡ slice_index item i }
    ensures rest { (i : ℕ) → 16 * count ≤ i → slice_index out.new i ≡ slice_index out.old i }
{
    for k in 0..count {
        let cell = cells.cell(at + k);
        let start = 16 * k as usize;
        put_word(out, start, cell.big);
        put_word(out, start + 8, cell.small);
    }
}

/// Writes the eight octets of a word, the lowest first.
fn put_word(out: &mut [u8], start: usize, word: u64)
    requires { start + 8 ≤ length out.old }
    ensures written { (k : ℕ) → k < 8 → slice_index out.new (start + k) ≡ slice_index (to_le_bytes w64 word) k }
    ensures before { (i : ℕ) → i < start → slice_index out.new i ≡ slice_index out.old i }
    ensures after { (i : ℕ) → start + 8 ≤ i → slice_index out.new i ≡ slice_index out.old i }
{
    out[start..start + 8].copy_from_slice(&word.to_le_bytes());
}

/// Writes the first octets of a cell into `out` from `start` on, as many as it has left there.
fn put_front(out: &mut [u8], start: usize, cell: Cell)
    requires within { start ≤ length out.old }
    requires few { length out.old ≤ start + 16 }
    ensures octets { (item : List ℕ) → AreOctets item → cell.big ≡ from_le_bytes w64 (drop start item) → cell.small ≡ from_le_bytes w64 (drop (start + 8) item)
        → (i : ℕ) → start ≤ i → i < length out.old → slice_index out.new i ≡ slice_index item i }
    ensures before { (i : ℕ) → i < start → slice_index out.new i ≡ slice_index out.old i }
{
    let mut octets = [0; 16];
    put_word(&mut octets, 0, cell.big);
    put_word(&mut octets, 8, cell.small);
    let left = out.len() - start;
    out[start..].copy_from_slice(&octets[..left]);
}
