//! What there is of a name, of the names above it, and the last name that isn't after it.

ghost use Rattle.std.specs.Prelude.{◌≡◌, ◌≤◌, List, Bool, is_some, map, take};
ghost use Rattle.trie_read.specs.Prelude.{Leads, Entry, Stands, IsPredecessor, chain_labels, EachTells, Whichever, IsKind, kind_of, Ancestor};

use super::ancestors::Ancestors;
use super::iter::Iter;
use super::leaf::key_at;
use super::top::Root;
use chunk_cells::CellRead;
use shift_key::Key;

/// Whether a name is there, or else names above it.
#[derive(Clone, Copy, PartialEq, Eq, Debug)]
pub enum Kind {
    /// The name is there.
    Exact,
    /// It isn't, but some name above it is.
    Partial,
    /// Neither it nor a name above it is there.
    Absent,
}

impl Kind {
    /// By whether the name is there, and whether no name is at or above it.
    fn of(there: bool, alone: bool) -> Kind
        ensures { result ≡ kind_of there alone }
    {
        if there {
            return Kind::Exact;
        }
        if alone { Kind::Absent } else { Kind::Partial }
    }
}

/// The names at or above a name that are there, from the top on: how many labels each has.
#[derive(Clone, Copy)]
pub struct Chain {
    pub len: u8,
    /// The first `len` count; the root has 0 labels.
    pub labels: [u8; 128],
    ghost fits: { len ≤ 128 },
}

impl Chain {
    /// How many labels these names have.
    fn of(above: &Ancestors) -> Chain
        ensures { take result.len result.labels ≡ map (λ (a : Ancestor). a.labels) above.now }
    {
        let names = above.as_slice();
        let mut labels = [0; 128];
        for i in 0..names.len() {
            labels[i] = names[i].labels;
        }
        let len = names.len() as u8;
        Chain { len, labels }
    }
}

/// What `find` tells of a key.
#[derive(Drop)]
pub struct Found {
    pub kind: Kind,
    pub chain: Chain,
    /// The last key that isn't after the one that was searched for.
    pub pred: Option<Key>,
}

/// What there is of the key's name, the names above it, and the last name that isn't after it.
pub fn find<C: CellRead>(cells: &mut C, root: Root, key: &Key) -> Found
    requires { (version : List Entry) × Stands (C.has cells.old) root version × EachTells Leads version }
    ensures same { cells.new ≡ cells.old }
    ensures kind { Whichever (C.has cells.old) root (λ version. IsKind key.now version result.kind) }
    ensures chain { Whichever (C.has cells.old) root (λ version. take result.chain.len result.chain.labels ≡ chain_labels key.now version) }
    ensures pred { Whichever (C.has cells.old) root (λ version. IsPredecessor key.now version result.pred) }
{
    let mut place = Iter::start(root);
    let mut above = Ancestors::new();
    let leaf = place.lookup(cells, key, &mut above);
    let alone = above.as_slice().is_empty();
    let pred = match leaf {
        Some(leaf) => Some(key_at(cells, leaf)),
        None => place.prev(cells),
    };
    Found {
        kind: Kind::of(leaf.is_some(), alone),
        chain: Chain::of(&above),
        pred,
    }
}
