//! The front of an item, compared where it lies.

ghost use Rattle.std.specs.Prelude.{◌≡◌, ◌+◌, ◌/◌, ◌<◌, ◌≤◌, ◌↔◌, ◌++◌, ℕ, List, IsTrue, length, drop, slice_index};
ghost use Rattle.chunk_cells.specs.Prelude.{w64, from_le_bytes, HasItem, AreOctets};

use super::CellRead;
use super::extents::content_cells_for;
use super::writing::whole_word;
use packed_node::{Cell, Leaf};

/// Whether a leaf's item begins with these octets, at most 256. Nothing is copied.
pub fn begins_with<C: CellRead>(cells: &mut C, leaf: Leaf, octets: &[u8]) -> bool
    requires few { length octets.now ≤ 256 }
    requires there { (item : List ℕ) × HasItem (C.has cells.old) leaf.at leaf.len item }
    ensures same { cells.new ≡ cells.old }
    ensures value { (item : List ℕ) → AreOctets item → HasItem (C.has cells.old) leaf.at leaf.len item → IsTrue result ↔ ((rest : List ℕ) × (item ≡ octets.now ++ rest)) }
{
    if octets.len() > leaf.len as usize {
        return false;
    }
    for k in 0..content_cells_for(octets.len() as u16) {
        let cell = cells.cell(leaf.at + k);
        let start = 16 * k as usize;
        if !cell_says(cell, octets, start) {
            return false;
        }
    }
    true
}

/// Whether a cell of an item, that of its 16 octets from `start` on, has those of the octets that lie there.
#[inline]
fn cell_says(cell: Cell, octets: &[u8], start: usize) -> bool
    requires { start < 4096 }
    ensures { (item : List ℕ) → ((i : ℕ) → slice_index item i < 256) → cell.big ≡ from_le_bytes w64 (drop start item) → cell.small ≡ from_le_bytes w64 (drop (start + 8) item)
        → IsTrue result ↔ ((i : ℕ) → start ≤ i → i < start + 16 → i < length octets.now → slice_index item i ≡ slice_index octets.now i) }
{
    says(cell.big, octets, start) && says(cell.small, octets, start + 8)
}

/// Whether a word of an item, that of its eight octets from `start` on, has those of the octets that lie there.
#[inline]
fn says(word: u64, octets: &[u8], start: usize) -> bool
    requires { start < 8192 }
    ensures { (item : List ℕ) → ((i : ℕ) → slice_index item i < 256) → word ≡ from_le_bytes w64 (drop start item)
        → IsTrue result ↔ ((i : ℕ) → start ≤ i → i < start + 8 → i < length octets.now → slice_index item i ≡ slice_index octets.now i) }
{
    if start + 8 <= octets.len() {
        return word == whole_word(octets, start);
    }
    if octets.len() < 8 {
        return says_each(word, octets, start);
    }
    start >= octets.len() || says_end(word, octets, start)
}

/// The same where the octets are fewer than eight.
fn says_each(word: u64, octets: &[u8], start: usize) -> bool
    requires { length octets.now < start + 8 }
    ensures { (item : List ℕ) → ((i : ℕ) → slice_index item i < 256) → word ≡ from_le_bytes w64 (drop start item)
        → IsTrue result ↔ ((i : ℕ) → start ≤ i → i < start + 8 → i < length octets.now → slice_index item i ≡ slice_index octets.now i) }
{
    let bytes = word.to_le_bytes();
    for i in start..octets.len() {
        if bytes[i - start] != octets[i] {
            return false;
        }
    }
    true
}

/// The same where the octets are more and end within the word. Their last eight are read as a word too.
#[inline]
fn says_end(word: u64, octets: &[u8], start: usize) -> bool
    requires many { 8 ≤ length octets.now }
    requires within { start < length octets.now }
    requires short { length octets.now < start + 8 }
    ensures { (item : List ℕ) → ((i : ℕ) → slice_index item i < 256) → word ≡ from_le_bytes w64 (drop start item)
        → IsTrue result ↔ ((i : ℕ) → start ≤ i → i < start + 8 → i < length octets.now → slice_index item i ≡ slice_index octets.now i) }
{
    let left = octets.len() - start;
    let last = whole_word(octets, octets.len() - 8);
    word % (1 << (8 * left)) == last >> (64 - 8 * left)
}
