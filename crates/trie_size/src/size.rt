//! The size of a trie to whose end items are added.
ghost use Rattle.std.specs.Prelude.{◌≡◌, ◌≤◌, ◌*◌, length, min, take, if◌then◌else◌};

use crate::offsets::split_at_offset;
use chunk_cells::cells_for;
use shift_key::parting_of;

// The most octets of a name.
const NAME_OCTETS: usize = 255;

/// How large the trie of some items is, which came in the rising order of their keys. A further item's leaf comes behind all others: its
/// key parts from the last one, at an offset of which there is a branch above the last leaf, or is one from now on. So the
/// offsets of these branches are all that is known of the trie.
#[derive(Drop)]
pub struct TrieSize {
    names: u64,
    nodes: u64,
    cells: u64,
    /// The first octets of the last item, among them its owner's; what stands behind them means nothing.
    last: [u8; 255],
    last_len: usize,
    /// The offsets of the branches above its leaf, from the top; what stands behind them means nothing.
    offsets: [u16; 504],
    depth: usize,
    ghost last_inside: { last_len ≤ 255 },
    ghost inside: { depth ≤ 504 },
    ghost few_nodes: { nodes ≤ 2 * names },
    ghost few_cells: { cells ≤ 4114 * names },
}

// How many nodes come with a leaf, by whether there is a branch that it hangs on.
fn new_nodes(is_there: bool) -> u64
    ensures nodes { result ≡ (if is_there then 1 else 2) }
    ensures few { result ≤ 2 }
{
    if is_there { 1 } else { 2 }
}

// Copies the first octets of an item, and answers how many these are.
fn keep_front(last: &mut [u8], item: &[u8]) -> usize
    requires { length last.old ≡ 255 }
    ensures front { take result last.new ≡ take 255 item.now }
    ensures inside { result ≤ 255 }
    ensures room { length last.new ≡ 255 }
{
    let len = item.len().min(NAME_OCTETS);
    last[..len].copy_from_slice(&item[..len]);
    len
}

impl TrieSize {
    ghost use Rattle.std.specs.Prelude.{◌≡◌, ◌∷◌, ◌++◌, [], ℕ, List, length};
    ghost use Rattle.trie_model.specs.Keys.{Entry};
    ghost use Rattle.trie_model.specs.Shape.{nodes as nodes_of_keys, keys_of, cells as cells_of};
    ghost use Rattle.trie_size.specs.Ways.{Parts, last_key};
    ghost use Rattle.trie_size.specs.Sizes.{IsSizeOf, Follows};

    /// The size of no items' trie.
    pub fn new() -> TrieSize
        ensures { IsSizeOf result [] }
    {
        TrieSize {
            names: 0,
            nodes: 0,
            cells: 0,
            last: [0; 255],
            last_len: 0,
            offsets: [0; 504],
            depth: 0,
        }
    }

    /// How many items there are.
    pub fn names(&self) -> u64
        ensures { (es : List Entry) → IsSizeOf self.now es → result ≡ length es }
    {
        self.names
    }

    /// How many nodes their trie has.
    pub fn nodes(&self) -> u64
        ensures { (es : List Entry) → IsSizeOf self.now es → result ≡ nodes_of_keys (keys_of es) }
    {
        self.nodes
    }

    /// How many cells it has: one for each node, and those of the items.
    pub fn cells(&self) -> u64
        ensures { (es : List Entry) → IsSizeOf self.now es → result ≡ cells_of es }
    {
        self.cells
    }

    /// With one more item, behind all others.
    pub fn add(&mut self, item: &[u8])
        requires { (es : List Entry) × (e : Entry) × Follows self.old item.now es e }
        ensures { (es : List Entry) (e : Entry) → Follows self.old item.now es e → IsSizeOf self.new (es ++ e ∷ []) }
    {
        if self.names == 0 {
            return self.add_first(item);
        }
        let Some(parting) = parting_of(&self.last[..self.last_len], item) else {
            // No two items have one owner.
            unreachable!();
        };
        self.add_behind(parting.place, item)
    }

    // The first leaf.
    fn add_first(&mut self, item: &[u8])
        requires comes { (es : List Entry) × (e : Entry) × Follows self.old item.now es e }
        requires first { self.old.names ≡ 0 }
        ensures { (es : List Entry) (e : Entry) → Follows self.old item.now es e → IsSizeOf self.new (es ++ e ∷ []) }
    {
        self.cells += 1 + u64::from(cells_for(item.len() as u16));
        self.nodes += 1;
        self.names += 1;
        self.last_len = keep_front(&mut self.last, item);
    }

    // A leaf whose key parts from the last one at this offset.
    fn add_behind(&mut self, offset: u16, item: &[u8])
        requires comes { (es : List Entry) × (e : Entry) × Follows self.old item.now es e × Parts offset (last_key [] es) e.key }
        requires some { self.old.names ≡ 0 → ⊥ }
        ensures { (es : List Entry) (e : Entry) → Follows self.old item.now es e → Parts offset (last_key [] es) e.key → IsSizeOf self.new (es ++ e ∷ []) }
    {
        let (above, is_there) = split_at_offset(&self.offsets[..self.depth], offset);
        let nodes = new_nodes(is_there);
        self.cells += nodes + u64::from(cells_for(item.len() as u16));
        self.nodes += nodes;
        self.names += 1;
        self.last_len = keep_front(&mut self.last, item);
        self.offsets[above] = offset;
        self.depth = above + 1;
    }
}
