//! How an item lies in cells: up to 4,096 octets side by side in one extent, more of them in several that are linked.

ghost use Rattle.std.specs.Prelude.{◌≡◌, ◌+◌, ◌<◌, ◌≤◌, ◌^◌, ℕ, List, length};
ghost use Rattle.chunk_cells.specs.Prelude.{Cell, HasItem, LiesAt, content_cells, links, first_of, link_cell, linked_cells, extents_at, extents_in};

use super::CellRead;
use packed_node::{Cell, Leaf, Ref};

/// The most octets of an extent that has none behind it.
pub const LAST_OCTETS: usize = 4096;

/// How many octets an extent has that has another behind it, in 255 cells.
pub const LINKED_OCTETS: usize = 4080;

/// How many cells such an extent has. The last of them says where the next extent begins.
pub const LINKED_CELLS: u32 = 256;

pub(crate) const LINK_PLACE: u32 = 255;

/// The most extents of an item: 65,535 octets have as many.
pub const MOST_EXTENTS: usize = 17;

/// Where an item lies.
#[derive(Clone, Copy, PartialEq, Eq, Debug)]
pub struct Extents {
    /// How many octets the item has.
    pub len: u16,
    /// The first cell of each of its extents. What stands behind the last one means nothing.
    pub at: [Ref; 17],
}

impl Extents {
    /// The leaf of the item.
    #[inline]
    pub fn leaf(&self) -> Leaf
        ensures len { result.len ≡ self.now.len }
        ensures at { result.at ≡ first_of (extents_in self.now) }
    {
        Leaf {
            len: self.len,
            at: self.at[0],
        }
    }
}

/// How many cells the octets of an item fill.
#[inline]
pub fn content_cells_for(len: u16) -> u32
    ensures { result ≡ content_cells len }
{
    (len as u32 + 15) / 16
}

/// How many link cells an item of so many octets has.
#[inline]
pub fn links_for(len: u16) -> u32
    ensures { result ≡ links len }
{
    (len as u32).saturating_sub(17) / LINKED_OCTETS as u32
}

/// How many cells an extent has that has another behind it.
#[inline]
pub fn linked_extent() -> u32
    ensures { result ≡ linked_cells }
{
    LINKED_CELLS
}

/// How many cells an item of so many octets takes, link cells with them.
#[inline]
pub fn cells_for(len: u16) -> u32
    ensures { result ≡ content_cells len + links len }
{
    content_cells_for(len) + links_for(len)
}

/// Where that cell lies in an extent that begins here: its last cell.
#[inline]
pub fn link_of(at: Ref) -> Ref
    requires { at + 256 ≤ 2 ^ 22 }
    ensures { result ≡ at + 255 }
{
    at + LINK_PLACE
}

/// Where the extent behind one begins that has its first cell here.
#[inline]
pub fn next_extent<C: CellRead>(cells: &mut C, at: Ref) -> Ref
    requires inside { at + LINKED_CELLS ≤ 2 ^ 22 }
    requires there { (next : ℕ) × C.has cells.old (at + LINK_PLACE) (link_cell next) × (next < 2 ^ 22) }
    ensures same { cells.new ≡ cells.old }
    ensures next { (next : ℕ) → C.has cells.old (at + LINK_PLACE) (link_cell next) → next < 2 ^ 22 → result ≡ next }
{
    cells.cell(at + LINK_PLACE).small as Ref
}

/// Where the item of a leaf lies.
pub fn extents_of<C: CellRead>(cells: &mut C, leaf: Leaf) -> Extents
    requires { (item : List ℕ) × HasItem (C.has cells.old) leaf.at leaf.len item }
    ensures same { cells.new ≡ cells.old }
    ensures len { result.len ≡ leaf.len }
    ensures there { (item : List ℕ) (x : _) → LiesAt (C.has cells.old) leaf.at leaf.len item x → extents_in result ≡ x }
{
    let len = leaf.len;
    let mut at = [0; 17];
    follow_links(cells, leaf.at, len, &mut at);
    Extents { len, at }
}

/// Puts down where extents begin, of which the first begins here.
fn follow_links<C: CellRead>(cells: &mut C, at: Ref, len: u16, out: &mut [Ref])
    requires enough { links len < length out.old }
    requires there { (item : List ℕ) × HasItem (C.has cells.old) at len item }
    ensures same { cells.new ≡ cells.old }
    ensures there { (item : List ℕ) (x : _) → LiesAt (C.has cells.old) at len item x → extents_at (links len) out.new ≡ x }
{
    out[0] = at;
    if len as usize > LAST_OCTETS {
        let next = next_extent(cells, at);
        follow_links(cells, next, len - LINKED_OCTETS as u16, &mut out[1..]);
    }
}

/// The cell that says where the next extent begins.
#[inline]
pub fn link_to(next: Ref) -> Cell
    ensures { result ≡ link_cell next }
{
    Cell {
        big: 0,
        small: next as u64,
    }
}
