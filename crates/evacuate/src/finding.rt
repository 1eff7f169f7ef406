//! What finds: guesses on which listed paths something is left. Nothing rests on them, as any path might be gone along, in any order.

ghost use Rattle.std.specs.Prelude.{◌≡◌, ℕ, List};
ghost use Rattle.evacuate.specs.Prelude.{HasItem, node_of, top_cell, Tree, IsTop};

use super::path_walk::descent_on;
use super::sparse::extent_behind;
use chunk_cells::CellRead;
use chunk_usage::{Listed, Path};
use packed_node::{Branch, Node, Ref, chunk_of};

/// So many words have four bits for each path that may be marked.
const PATH_WORDS: usize = 248;

/// So many words have a bit for each chunk.
const CHUNK_WORDS: usize = 64;

/// The paths of so many chunks have numbers of their own.
const MOST_CHUNKS: usize = 64;

/// A path that a chunk lists, and its number among all that may be marked.
#[derive(Clone, Copy)]
pub struct Listing {
    pub chunk: u32,
    pub place: usize,
    pub number: usize,
}

/// Which listed paths are gone along, and how far.
#[derive(Clone, Copy, PartialEq, Eq)]
pub enum Search {
    /// Those of which a chunk seems to have something.
    Likely,
    /// All.
    All,
    /// All without their last steps, and from there all ways: since a path was listed, a branch may have come between.
    Around,
}

impl Search {
    /// That of a round. What the first ones don't find is looked for with more pains.
    pub fn in_round(round: u32) -> Search {
        match round {
            0 | 1 => Search::Likely,
            2 => Search::All,
            _ => Search::Around,
        }
    }

    /// The path that is gone along for a listed one.
    #[inline]
    pub fn along(self, listed: Listed) -> Path {
        match self {
            Search::Around => listed.path().shorter(),
            _ => listed.path(),
        }
    }
}

/// What a path leads to that is left in a sparse chunk.
#[derive(Clone, Copy)]
pub enum Mark {
    /// Something, perhaps an item, and the path doesn't fork.
    Straight { to_item: bool },
    /// Something below where it forks, or above.
    Forked,
}

// The bits of a mark. A path without any has none.
const MARKED: u64 = 1;

const FORKED: u64 = 2;

const TO_ITEM: u64 = 4;

impl Mark {
    fn bits(self) -> u64 {
        match self {
            Mark::Straight { to_item } => MARKED | bit_if(to_item, TO_ITEM),
            Mark::Forked => MARKED | FORKED,
        }
    }

    fn of_bits(bits: u64) -> Option<Mark> {
        if bits & MARKED == 0 {
            return None;
        }
        if bits & FORKED != 0 {
            return Some(Mark::Forked);
        }
        Some(Mark::Straight {
            to_item: bits & TO_ITEM != 0,
        })
    }
}

#[inline]
fn bit_if(value: bool, bit: u64) -> u64 {
    if value { bit } else { 0 }
}

/// Marks of paths, by their numbers. Nothing is proved of them: paths beyond the last number share those of others, and have what either has.
#[derive(Clone, Copy)]
pub struct Marks {
    paths: [u64; PATH_WORDS],
    /// Which are gone along.
    pub search: Search,
    // Of which chunks the paths were gone along.
    chunks: [u64; CHUNK_WORDS],
    // The first of them, each with the number of its first path; how many these are, and the next number.
    begun: [(u32, u32); MOST_CHUNKS],
    count: usize,
    next: u32,
}

impl Marks {
    /// None is marked yet.
    pub fn new(search: Search) -> Marks {
        Marks {
            paths: [0; PATH_WORDS],
            search,
            chunks: [0; CHUNK_WORDS],
            begun: [(0, 0); MOST_CHUNKS],
            count: 0,
            next: 0,
        }
    }

    /// The paths of a chunk, which are so many, are gone along. Tells whether they weren't before.
    pub fn begin(&mut self, chunk: u32, paths: usize) -> bool {
        let word = &mut self.chunks[chunk as usize / 64 % CHUNK_WORDS];
        let bit = 1 << (chunk % 64);
        if *word & bit != 0 {
            return false;
        }
        *word |= bit;
        if let Some(slot) = self.begun.get_mut(self.count) {
            *slot = (chunk, self.next);
            self.count = self.count.wrapping_add(1);
            self.next = self.next.wrapping_add((paths & 1023) as u32);
        }
        true
    }

    /// The number of a chunk's first path. It has none where its paths weren't gone along. Chunks beyond those that are remembered share the first
    /// numbers.
    pub fn first_of(&self, chunk: u32) -> Option<usize> {
        if self.chunks[chunk as usize / 64 % CHUNK_WORDS] & (1 << (chunk % 64)) == 0 {
            return None;
        }
        for (begun, number) in self.begun.iter().take(self.count) {
            if *begun == chunk {
                return Some(*number as usize);
            }
        }
        Some(0)
    }

    /// Marks a path.
    pub fn put(&mut self, listing: Listing, mark: Mark) {
        let number = listing.number;
        self.paths[number / 16 % PATH_WORDS] |= mark.bits() << (number % 16 * 4);
    }

    /// A path's mark, as it seems. It has none where nothing is left.
    pub fn of(&self, listing: Listing) -> Option<Mark> {
        let number = listing.number;
        Mark::of_bits(self.paths[number / 16 % PATH_WORDS] >> (number % 16 * 4))
    }
}

/// The position of a branch's twig: the first from a place on.
pub fn position_from(branch: Branch, place: u8) -> u8 {
    let later = (branch.bitmap >> (place & 63)) << (place & 63);
    (later.trailing_zeros() & 63) as u8
}

/// The position of a branch's last twig.
pub fn last_position(branch: Branch) -> u8 {
    (63 - (branch.bitmap.leading_zeros() & 63)) as u8
}

/// What is left on a path that lies in a chunk, once twigs above it were made mutable.
#[derive(Clone, Copy, PartialEq, Eq)]
pub enum Rest {
    /// Nothing.
    Nothing,
    /// Twigs of a branch.
    Twigs,
    /// An item.
    Item,
}

/// What there is on a path that lies in a chunk.
#[derive(Clone, Copy)]
pub enum Last {
    /// There is nothing.
    None,
    /// There is something. The twigs of branches before an offset are to be made mutable first, and what is left then.
    Below { end: u16, rest: Rest },
    /// The path forks.
    Forks,
}

/// More twigs than these change so often that they are to lie with those above them.
const FEW_TWIGS: u32 = 12;

/// The offset behind the last branch of many twigs, where this is that of the branches above.
#[inline]
fn end_of_many(branch: Branch, above: u16) -> u16 {
    if branch.twig_count() > FEW_TWIGS {
        return branch.offset.saturating_add(1);
    }
    above
}

/// Twigs of a branch are the last on a path that lies in a chunk. All above them is made mutable first, and they are too where they are many.
fn last_at(branch: Branch) -> Last {
    if branch.twig_count() > FEW_TWIGS {
        return Last::Below {
            end: branch.offset.saturating_add(1),
            rest: Rest::Nothing,
        };
    }
    Last::Below {
        end: branch.offset,
        rest: Rest::Twigs,
    }
}

/// Whether some extent of an item lies in a chunk. It begins here, and has so many octets.
fn is_item_in<C: CellRead>(cells: &mut C, chunk: u32, at: Ref, len: u16) -> bool
    requires { (item : List ℕ) × HasItem (C.has cells.old) at len item }
    ensures { cells.new ≡ cells.old }
{
    if chunk_of(at) == chunk {
        return true;
    }
    match extent_behind(cells, at, len) {
        None => false,
        Some(next) => is_item_in(cells, chunk, next.at, next.len),
    }
}

/// Goes down from a node along a path, to find the last on it whose twigs, or some extent of whose item, lie in a chunk. Above an item the
/// twigs down to the last many are made mutable first: the few below them live as long as the item, and are moved with it.
pub fn last_along<C: CellRead>(cells: &mut C, chunk: u32, from: Node, path: Path) -> Last
    requires { (t : Tree) × IsTop (C.has cells.old) 0 (top_cell t) t × (from ≡ node_of t) }
    ensures { cells.new ≡ cells.old }
{
    let mut last = Last::None;
    let mut many = 0;
    let mut on = path;
    let mut node = from;
    while let Some(descent) = descent_on(node, on) {
        many = end_of_many(descent.branch, many);
        if chunk_of(descent.branch.twigs) == chunk {
            last = last_at(descent.branch);
        }
        on = on.rest();
        node = Node::of(cells.cell(descent.branch.twigs + descent.index));
    }
    match node {
        Node::Branch(_) => Last::Forks,
        Node::Leaf(leaf) => {
            if is_item_in(cells, chunk, leaf.at, leaf.len) {
                return Last::Below {
                    end: many,
                    rest: Rest::Item,
                };
            }
            last
        }
    }
}
