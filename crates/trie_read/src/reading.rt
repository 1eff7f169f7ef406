//! One version of the trie, read by whoever holds it.

ghost use Rattle.std.specs.Prelude.{◌≡◌, ℕ, List};
ghost use Rattle.trie_read.specs.Prelude.{Leads, Entry, Stands, EachTells};

use super::ancestors::Ancestors;
use super::found::{Found, find};
use super::iter::{Iter, Met};
use super::leaf::name_at;
use super::look_up::get;
use super::size::{count, nodes};
use super::top::Root;
use chunk_cells::{CellRead, read_item};
use dns_name::Name;
use packed_node::{Cell, Leaf, Ref};
use shift_key::Key;

/// A version of the trie: what it has under which number. All calls are of that one version, and change nothing.
pub trait Reading {
    ghost use Rattle.std.specs.Prelude.{◌≡◌, ◌≤◌, [], ℕ, List, length, take, Some, None, IsSomeAnd};
    ghost use Rattle.zone_model.specs.Names.{IsName};
    ghost use Rattle.zone_model.specs.Keys.{key_of, most_item_octets};
    ghost use Rattle.trie_model.specs.Keys.{Entry};
    ghost use Rattle.trie_model.specs.Order.{IsPredecessor, chain, chain_labels};
    ghost use Rattle.trie_model.specs.Shape.{nodes as nodes_of_keys, keys_of};
    ghost use Rattle.packed_node.specs.declared.Leaf.{Leaf};
    ghost use Rattle.trie_read.specs.declared.iter.Iter.{Iter};
    ghost use Rattle.trie_read.specs.Reads.{FindsLeaf};
    ghost use Rattle.trie_read.specs.Finds.{IsKind};
    ghost use Rattle.trie_read.specs.Above.{AreAncestors};
    ghost use Rattle.trie_read.specs.Readings.{Fetched, IsHeld, IsStanding, AtSplit, MeetsNearest};
    ghost use Rattle.trie_read.specs.Readings.{Everywhere, OfVersion, TellsNext, TellsLast, GoesNext, GoesBack};

    // The version's number.
    ghost number: { Self → ℕ };

    // The version has these entries, in the order of their keys.
    ghost holds: { Self → List Entry → Type 0 };

    // The iterator is of this version, and stands between these entries.
    ghost stands: { Self → Iter → List Entry → List Entry → Type 0 };

    // The leaf says where the entry's item lies.
    ghost lies: { Self → Leaf → Entry → Type 0 };

    /// The version's number.
    fn version(&mut self) -> u64
        ensures same { self.new ≡ self.old }
        ensures number { result ≡ number self.old };

    /// Reads the item of a key into the beginning of `out`, and gives its length; `None` where the key is not there.
    fn fetch(&mut self, key: &Key, out: &mut [u8]) -> Option<usize>
        requires held { IsHeld (holds self.old) }
        requires room { most_item_octets ≤ length out.old }
        ensures same { self.new ≡ self.old }
        ensures item { (version : List Entry) → holds self.old version → Fetched key.now version out.old out.new result };

    /// What there is of the key's name, the names above it, and the last name that isn't after it.
    fn find(&mut self, key: &Key) -> Found
        requires { IsHeld (holds self.old) }
        ensures same { self.new ≡ self.old }
        ensures kind { (version : List Entry) → holds self.old version → IsKind key.now version result.kind }
        ensures chain { (version : List Entry) → holds self.old version → take result.chain.len result.chain.labels ≡ chain_labels key.now version }
        ensures pred { (version : List Entry) → holds self.old version → IsPredecessor key.now version result.pred };

    /// An iterator before the first name.
    fn iter(&mut self) -> Iter
        ensures same { self.new ≡ self.old }
        ensures start { (version : List Entry) → holds self.old version → stands self.old result [] version };

    /// Stands an iterator before the first name, from wherever in whatever version it stood. It may take less than another iterator.
    fn restart(&mut self, iter: &mut Iter)
        ensures same { self.new ≡ self.old }
        ensures start { (version : List Entry) → holds self.old version → stands self.old iter.new [] version }
    {
        *iter = self.iter();
    }

    /// Stands the iterator before the first name at or after the key's.
    fn seek(&mut self, iter: &mut Iter, key: &Key)
        requires { IsStanding (stands self.old iter.old) }
        ensures same { self.new ≡ self.old }
        ensures split { OfVersion (stands self.old iter.old) (λ version. AtSplit (stands self.old iter.new) key.now version) };

    /// The next name's key; the iterator is then after it. `None` exactly at the end, and the iterator stays.
    fn next(&mut self, iter: &mut Iter) -> Option<Key>
        requires { IsStanding (stands self.old iter.old) }
        ensures same { self.new ≡ self.old }
        ensures step { GoesNext (stands self.old iter.old) (stands self.old iter.new) (λ e. result ≡ Some e.key) (result ≡ None) };

    /// The previous name's key; the iterator is then before it. `None` exactly at the beginning, and the iterator stays.
    fn prev(&mut self, iter: &mut Iter) -> Option<Key>
        requires { IsStanding (stands self.old iter.old) }
        ensures same { self.new ≡ self.old }
        ensures step { GoesBack (stands self.old iter.old) (stands self.old iter.new) (λ e. result ≡ Some e.key) (result ≡ None) };

    /// Stands the iterator before the first name at or after the key's, and gives the leaf of the key if it is there. The names at or above the key's that
    /// are there are written into `above`.
    fn lookup(&mut self, iter: &mut Iter, key: &Key, above: &mut Ancestors) -> Option<Leaf>
        requires { IsStanding (stands self.old iter.old) }
        ensures same { self.new ≡ self.old }
        ensures split { OfVersion (stands self.old iter.old) (λ version. AtSplit (stands self.old iter.new) key.now version) }
        ensures leaf { OfVersion (stands self.old iter.old) (λ version. FindsLeaf (lies self.old) key.now version result) }
        ensures above { OfVersion (stands self.old iter.old) (λ version. AreAncestors (lies self.old) (chain key.now version) above.new) };

    /// The leaf that the key is nearest to: its own, or else one whose key has the longest beginning in common with it; `None` exactly where there is no
    /// name. The names at or above the key's that are there are written into `above`. The iterator stands before the first name then.
    fn reach(&mut self, iter: &mut Iter, key: &Key, above: &mut Ancestors) -> Option<Met>
        requires { IsStanding (stands self.old iter.old) }
        ensures same { self.new ≡ self.old }
        ensures start { OfVersion (stands self.old iter.old) (λ version. stands self.old iter.new [] version) }
        ensures nearest { OfVersion (stands self.old iter.old) (λ version. MeetsNearest (lies self.old) key.now version result) }
        ensures above { OfVersion (stands self.old iter.old) (λ version. AreAncestors (lies self.old) (chain key.now version) above.new) };

    /// The leaf of the next name; the iterator is then after it. `None` exactly at the end, and the iterator stays.
    fn next_leaf(&mut self, iter: &mut Iter) -> Option<Leaf>
        requires { IsStanding (stands self.old iter.old) }
        ensures same { self.new ≡ self.old }
        ensures step { GoesNext (stands self.old iter.old) (stands self.old iter.new) (λ e. IsSomeAnd result (λ leaf. lies self.old leaf e)) (result ≡ None) };

    /// The leaf of the previous name; the iterator is then before it. `None` exactly at the beginning, and the iterator stays.
    fn prev_leaf(&mut self, iter: &mut Iter) -> Option<Leaf>
        requires { IsStanding (stands self.old iter.old) }
        ensures same { self.new ≡ self.old }
        ensures step { GoesBack (stands self.old iter.old) (stands self.old iter.new) (λ e. IsSomeAnd result (λ leaf. lies self.old leaf e)) (result ≡ None) };

    /// The leaf of the next name; the iterator stays. `None` exactly at the end.
    fn ahead(&mut self, iter: &mut Iter) -> Option<Leaf>
        requires { IsStanding (stands self.old iter.old) }
        ensures same { self.new ≡ self.old }
        ensures next { TellsNext (stands self.old iter.old) (λ e. IsSomeAnd result (λ leaf. lies self.old leaf e)) }
        ensures end { (before : List Entry) → stands self.old iter.old before [] → result ≡ None }
        ensures stays { Everywhere (stands self.old iter.old) (stands self.old iter.new) };

    /// The leaf of the previous name; the iterator stays. `None` exactly at the beginning.
    fn behind(&mut self, iter: &mut Iter) -> Option<Leaf>
        requires { IsStanding (stands self.old iter.old) }
        ensures same { self.new ≡ self.old }
        ensures prev { TellsLast (stands self.old iter.old) (λ e. IsSomeAnd result (λ leaf. lies self.old leaf e)) }
        ensures beginning { (after : List Entry) → stands self.old iter.old [] after → result ≡ None }
        ensures stays { Everywhere (stands self.old iter.old) (stands self.old iter.new) };

    /// Reads the item of a leaf into the beginning of `out`, and gives its length.
    fn read(&mut self, leaf: Leaf, out: &mut [u8]) -> usize
        requires there { (e : Entry) × lies self.old leaf e }
        requires room { most_item_octets ≤ length out.old }
        ensures same { self.new ≡ self.old }
        ensures item { (e : Entry) → lies self.old leaf e → (result ≡ length e.item) × (take result out.new ≡ e.item) };

    /// The name that the item of a leaf says.
    fn name(&mut self, leaf: Leaf) -> Name
        requires { (e : Entry) × lies self.old leaf e }
        ensures same { self.new ≡ self.old }
        ensures name { IsName result }
        ensures key { (e : Entry) → lies self.old leaf e → key_of result ≡ e.key };

    /// How many names there are.
    fn count(&mut self) -> u64
        requires { IsHeld (holds self.old) }
        ensures same { self.new ≡ self.old }
        ensures count { (version : List Entry) → holds self.old version → result ≡ length version };

    /// How many nodes the trie has.
    fn nodes(&mut self) -> u64
        requires { IsHeld (holds self.old) }
        ensures same { self.new ≡ self.old }
        ensures nodes { (version : List Entry) → holds self.old version → result ≡ nodes_of_keys (keys_of version) };
}

/// Cells in which one version of the trie stands. Whoever has its root reads it (`Reading`).
pub trait Rooted: CellRead {
    ghost use Rattle.std.specs.Prelude.{◌≡◌, ◌≤◌, ℕ, List, Option, length};
    ghost use Rattle.zone_model.specs.Keys.{most_item_octets};
    ghost use Rattle.trie_model.specs.Keys.{Entry};
    ghost use Rattle.trie_read.specs.Readings.{Fetched, IsHeld, Told};

    // The version's root, and its number.
    ghost root: { Self → Option ℕ };

    ghost number: { Self → ℕ };

    /// The version's root.
    fn root(&mut self) -> Root
        ensures same { self.new ≡ self.old }
        ensures root { result ≡ root self.old };

    /// The version's number.
    fn number(&mut self) -> u64
        ensures same { self.new ≡ self.old }
        ensures number { result ≡ number self.old };

    /// Reads the item of a key into the beginning of `out`, and gives its length; `None` where the key is not there.
    fn fetch_item(&mut self, key: &Key, out: &mut [u8]) -> Option<usize>
        requires held { IsHeld (Told (Self.has self.old) (root self.old)) }
        requires room { most_item_octets ≤ length out.old }
        ensures same { self.new ≡ self.old }
        ensures item { (version : List Entry) → Told (Self.has self.old) (root self.old) version → Fetched key.now version out.old out.new result };
}

impl<V: Rooted> Reading for V {
    ghost use Rattle.trie_read.specs.Reads.{IsNamed};
    ghost use Rattle.trie_read.specs.Readings.{Told};
    ghost use Rattle.trie_read.specs.Walks.{StandsBetween};

    ghost number = { λ v. V.number v };

    ghost holds = { λ v. Told (V.has v) (V.root v) };

    ghost stands = { λ v. StandsBetween (V.has v) (V.root v) };

    ghost lies = { λ v. IsNamed (V.has v) };

    fn version(&mut self) -> u64 {
        self.number()
    }

    fn fetch(&mut self, key: &Key, out: &mut [u8]) -> Option<usize> {
        self.fetch_item(key, out)
    }

    fn find(&mut self, key: &Key) -> Found {
        let root = self.root();
        find(self, root, key)
    }

    fn iter(&mut self) -> Iter {
        Iter::start(self.root())
    }

    fn restart(&mut self, iter: &mut Iter) {
        iter.restart(self.root());
    }

    fn seek(&mut self, iter: &mut Iter, key: &Key) {
        iter.seek(self, key);
    }

    fn next(&mut self, iter: &mut Iter) -> Option<Key> {
        iter.next(self)
    }

    fn prev(&mut self, iter: &mut Iter) -> Option<Key> {
        iter.prev(self)
    }

    fn lookup(&mut self, iter: &mut Iter, key: &Key, above: &mut Ancestors) -> Option<Leaf> {
        iter.lookup(self, key, above)
    }

    fn reach(&mut self, iter: &mut Iter, key: &Key, above: &mut Ancestors) -> Option<Met> {
        iter.reach(self, key, above)
    }

    fn next_leaf(&mut self, iter: &mut Iter) -> Option<Leaf> {
        iter.next_leaf(self)
    }

    fn prev_leaf(&mut self, iter: &mut Iter) -> Option<Leaf> {
        iter.prev_leaf(self)
    }

    fn ahead(&mut self, iter: &mut Iter) -> Option<Leaf> {
        iter.ahead(self)
    }

    fn behind(&mut self, iter: &mut Iter) -> Option<Leaf> {
        iter.behind(self)
    }

    fn read(&mut self, leaf: Leaf, out: &mut [u8]) -> usize {
        read_item(self, leaf, out)
    }

    fn name(&mut self, leaf: Leaf) -> Name {
        name_at(self, leaf)
    }

    fn count(&mut self) -> u64 {
        let root = self.root();
        count(self, root)
    }

    fn nodes(&mut self) -> u64 {
        let root = self.root();
        nodes(self, root)
    }
}

/// A version of the trie in some cells, by its root.
#[derive(Drop)]
pub struct CellReading<C> {
    pub cells: C,
    pub root: Root,
    pub number: u64,
}

impl<C: CellRead + Drop> CellReading<C> {
    /// The version with this root.
    pub fn new(cells: C, root: Root, number: u64) -> CellReading<C>
        ensures number { ⟦<CellReading<C> as Reading>⟧.number result ≡ number }
        ensures holds { (version : List Entry) → Stands (C.has cells) root version → EachTells Leads version
            → ⟦<CellReading<C> as Reading>⟧.holds result version }
    {
        CellReading {
            cells,
            root,
            number,
        }
    }
}

impl<C: CellRead + Drop> CellRead for CellReading<C> {
    ghost has = { λ s. C.has s.cells };

    fn cell(&mut self, at: Ref) -> Cell {
        self.cells.cell(at)
    }
}

impl<C: CellRead + Drop> Rooted for CellReading<C> {
    ghost root = { λ s. s.root };

    ghost number = { λ s. s.number };

    fn root(&mut self) -> Root {
        self.root
    }

    fn number(&mut self) -> u64 {
        self.number
    }

    fn fetch_item(&mut self, key: &Key, out: &mut [u8]) -> Option<usize> {
        match get(&mut self.cells, self.root, key) {
            None => None,
            Some(leaf) => Some(read_item(&mut self.cells, leaf, out)),
        }
    }
}
