//! A node of the trie, packed into a cell of two words.
//!
//! The layout is BIND's (its note `doc/design/qp-trie.md` and header `lib/dns/qp_p.h`) with fields of our own sizes:
//!
//! | Node | `big` | `small` |
//! |---|---|---|
//! | leaf | bits 0 and 1: 0; from bit 2: the item's length in octets | where the item's first cell is |
//! | branch | bits 0 and 1: 1; bits 2 to 48: the bitmap; from bit 49: the offset | where the first twig is |
//!
//! All shifting and masking of the trie is done here. Nothing allocates.
#![tactic(auto)]

ghost use Rattle.std.specs.Prelude.{◌≡◌, ◌≢◌, ◌+◌, ◌*◌, ◌/◌, ◌%◌, ◌^◌, ◌<◌, ◌≤◌, ◌↔◌, ℕ, IsTrue, Some, IfSome, IfNone, IsNone, count_ones, count_by};
ghost use Rattle.std.specs.List.{range_with_len};
ghost use Rattle.std.specs.Int.{bit_at};
ghost use Rattle.packed_node.specs.Bitmaps.{has_position};
ghost use Rattle.packed_node.specs.Nodes.{packed, IsNode, IsNoNode, SaysNode};

pub mod bitmap;

/// Where a cell is: its chunk's number times 1,024, and its place in the chunk. Below 2^22.
pub type Ref = u32;

/// How many cells a chunk has.
pub const CHUNK_CELLS: u32 = 1024;

/// The longest item, in octets.
pub const ITEM_LIMIT: u16 = 65535;

/// The chunk that a cell is in.
#[inline]
pub fn chunk_of(at: Ref) -> u32
    ensures { result ≡ at / CHUNK_CELLS }
{
    at / CHUNK_CELLS
}

/// Two words: a node, or 16 octets of an item.
#[derive(Clone, Copy, PartialEq, Eq, Debug)]
pub struct Cell {
    pub big: u64,
    pub small: u64,
}

/// An item of the trie, by where it lies.
#[derive(Clone, Copy, PartialEq, Eq, Debug)]
pub struct Leaf {
    /// How many octets the item has, 1 to 65,535.
    pub len: u16,
    /// The first of the cells that hold it.
    pub at: Ref,
}

/// A branch, at the first position at which the keys below it differ.
#[derive(Clone, Copy, PartialEq, Eq, Debug)]
pub struct Branch {
    /// Which position of a key chooses the twig, at most 503.
    pub offset: u16,
    /// Bit p is set where a key below has position p there. At least two bits of the low 47.
    pub bitmap: u64,
    /// The first of the twigs, which lie side by side in rising position.
    pub twigs: Ref,
}

/// What a cell of the trie says.
#[derive(Clone, Copy, PartialEq, Eq, Debug)]
pub enum Node {
    Leaf(Leaf),
    Branch(Branch),
}

// The tag's two bits, and the fields above them, as factors.
const LEAF: u64 = 0;

const BRANCH: u64 = 1;

const TAGS: u64 = 4;

const BITMAPS: u64 = 1 << 47;

const REFS: u64 = 1 << 22;

const LAST_OFFSET: u64 = 503;

impl Branch {
    /// Whether there is a twig for the position.
    #[inline]
    pub fn has_twig(self, position: u8) -> bool
        requires { position < 47 }
        ensures { IsTrue result ↔ (bit_at self.bitmap position ≡ 1) }
    {
        bitmap::has(self.bitmap, position)
    }

    /// The place, from 0, of the position's twig among the twigs.
    #[inline]
    pub fn twig_index(self, position: u8) -> u32
        requires { position < 47 }
        ensures by_popcount { result ≡ count_ones (self.bitmap % 2 ^ position) }
        ensures smaller { result ≡ count_by (has_position self.bitmap) (range_with_len 0 position) }
    {
        bitmap::count_below(self.bitmap, position)
    }

    /// The same place, if there is a twig for the position.
    #[inline]
    pub fn twig_at(self, position: u8) -> Option<u32>
        requires { position < 47 }
        ensures there { bit_at self.bitmap position ≡ 1 → result ≡ Some (count_ones (self.bitmap % 2 ^ position)) }
        ensures absent { bit_at self.bitmap position ≢ 1 → IsNone result }
    {
        bitmap::index_of(self.bitmap, position)
    }

    /// How many twigs there are.
    #[inline]
    pub fn twig_count(self) -> u32
        ensures { result ≡ count_ones self.bitmap }
    {
        self.bitmap.count_ones()
    }
}

impl Node {
    /// The node of a cell that is known to say one, as each cell of a trie's nodes does. [`unpack`] tests that.
    #[inline]
    pub fn of(cell: Cell) -> Node
        requires { SaysNode cell }
        ensures node { IsNode result × (packed result ≡ cell) }
        ensures back { (n : Node) → IsNode n → packed n ≡ cell → result ≡ n }
    {
        let at = cell.small as u32;
        let content = cell.big / TAGS;
        if cell.big % TAGS == LEAF {
            let len = content as u16;
            return Node::Leaf(Leaf { len, at });
        }
        let offset = (content / BITMAPS) as u16;
        let bitmap = content % BITMAPS;
        let twigs = at;
        Node::Branch(Branch {
            offset,
            bitmap,
            twigs,
        })
    }

    /// The cell of the node.
    #[inline]
    pub fn pack(self) -> Cell
        requires { IsNode self }
        ensures { result ≡ packed self }
    {
        match self {
            Node::Leaf(leaf) => Cell {
                big: LEAF + TAGS * leaf.len as u64,
                small: leaf.at as u64,
            },
            Node::Branch(branch) => Cell {
                big: BRANCH + TAGS * (branch.bitmap + BITMAPS * branch.offset as u64),
                small: branch.twigs as u64,
            },
        }
    }
}

/// The node that a cell says. `None` means that the words are those of no node.
#[inline]
pub fn unpack(cell: Cell) -> Option<Node>
    ensures node { IfSome result (λ n. IsNode n × (packed n ≡ cell)) }
    ensures none { IfNone result ((n : _) → IsNode n → packed n ≡ cell → ⊥) }
    ensures refused { IsNone result ↔ IsNoNode cell }
    ensures back { (n : _) → IsNode n → packed n ≡ cell → result ≡ Some n }
{
    if cell.small >= REFS {
        return None;
    }
    let at = cell.small as u32;
    let content = cell.big / TAGS;
    match cell.big % TAGS {
        LEAF => {
            if content == 0 || content > ITEM_LIMIT as u64 {
                return None;
            }
            let len = content as u16;
            Some(Node::Leaf(Leaf { len, at }))
        }
        BRANCH => {
            let offset = content / BITMAPS;
            let bitmap = content % BITMAPS;
            if offset > LAST_OFFSET || bitmap.count_ones() < 2 {
                return None;
            }
            let offset = offset as u16;
            let twigs = at;
            Some(Node::Branch(Branch {
                offset,
                bitmap,
                twigs,
            }))
        }
        _ => None,
    }
}
