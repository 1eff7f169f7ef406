//! Walks through the names of a trie, in order.

ghost use Rattle.std.specs.Prelude.{◌≡◌, ◌<◌, ◌++◌, ◌∷◌, [], List, Some, None, IsSomeAnd, length};
ghost use Rattle.trie_read.specs.Prelude.{Entry, chain, IsNamed, FindsLeaf, AreAncestors, IsAtOrAbove, labels_of_met, Ancestor, Facing, Past, AtSplit};
ghost use Rattle.trie_read.specs.Prelude.{CanMeet, HasNode, Meets, MeetsNearest, IsStart, StandsBetween, StandsSomewhere, InVersion, Wherever};
ghost use Rattle.trie_read.specs.Prelude.{FacesFirst, FacesNext, HasPassedLast, PassesLast, StepsBack, StepsNext};

use super::ancestors::{Ancestor, Ancestors};
use super::labels::{ends_at, labels_of, labels_to};
use super::leaf::{difference_at, key_at};
use super::path::Path;
use super::top::Root;
use chunk_cells::CellRead;
use packed_node::{Leaf, Ref};
use shift_key::{Difference, Key};

/// Where an iterator stands.
#[derive(Clone, Copy)]
pub enum Cursor {
    /// Before the first name.
    Start,
    /// Right before the name of the leaf that its path leads to.
    Facing(Leaf),
    /// Right after it.
    Past(Leaf),
}

/// A place between two names of a trie, or before the first or after the last. It keeps the path from the root in place, so
/// that a walk takes a few steps for each name: it takes 4 KiB.
#[derive(Clone, Copy)]
pub struct Iter {
    root: Root,
    path: Path,
    place: Cursor,
}

impl Iter {
    /// Before the first name.
    pub fn start(root: Root) -> Iter
        ensures { IsStart root result }
    {
        Iter {
            root,
            path: Path::new(),
            place: Cursor::Start,
        }
    }

    /// Before the first name of a trie, from wherever in whatever trie it stood. It clears nothing, so one iterator serves many walks.
    pub fn restart(&mut self, root: Root)
        ensures { IsStart root self.new }
    {
        self.root = root;
        self.path.depth = 0;
        self.place = Cursor::Start;
    }

    /// The next name's key; the place is then after it. `None` exactly at the end, and the place stays.
    pub fn next<C: CellRead>(&mut self, cells: &mut C) -> Option<Key>
        requires { StandsSomewhere (C.has cells.old) self.old }
        ensures same { cells.new ≡ cells.old }
        ensures step { StepsNext (C.has cells.old) self.old self.new (λ e. result ≡ Some e.key) (result ≡ None) }
    {
        match self.next_leaf(cells) {
            None => None,
            Some(leaf) => Some(key_at(cells, leaf)),
        }
    }

    /// The leaf of the next name; the place is then after it. `None` exactly at the end, and the place stays.
    pub fn next_leaf<C: CellRead>(&mut self, cells: &mut C) -> Option<Leaf>
        requires { StandsSomewhere (C.has cells.old) self.old }
        ensures same { cells.new ≡ cells.old }
        ensures step { StepsNext (C.has cells.old) self.old self.new (λ e. IsSomeAnd result (λ leaf. IsNamed (C.has cells.old) leaf e)) (result ≡ None) }
    {
        let leaf = self.ahead(cells)?;
        self.place = Cursor::Past(leaf);
        Some(leaf)
    }

    /// The leaf of the next name. The place stays: right before it. `None` exactly at the end.
    pub fn ahead<C: CellRead>(&mut self, cells: &mut C) -> Option<Leaf>
        requires { StandsSomewhere (C.has cells.old) self.old }
        ensures same { cells.new ≡ cells.old }
        ensures stays { Wherever (C.has cells.old) self.old (λ root. StandsBetween (C.has cells.old) root self.new) }
        ensures faces { Wherever (C.has cells.old) self.old (FacesNext (C.has cells.old) self.new.path result) }
    {
        match self.root {
            None => None,
            Some(root) => match self.place {
                Cursor::Start => Some(self.face_first(cells, root)),
                Cursor::Facing(leaf) => Some(leaf),
                Cursor::Past(_) => {
                    if self.path.turn_next() {
                        Some(self.face_first(cells, root))
                    } else {
                        None
                    }
                }
            },
        }
    }

    /// Stands right before the first leaf below the node that the path leads to.
    fn face_first<C: CellRead>(&mut self, cells: &mut C, root: Ref) -> Leaf
        requires { HasNode (C.has cells.old) self.old.path root self.old.path.depth }
        ensures same { cells.new ≡ cells.old }
        ensures root { self.new.root ≡ self.old.root }
        ensures place { self.new.place ≡ Facing result }
        ensures faces { FacesFirst (C.has cells.old) root self.old.path self.new.path result }
    {
        let cell = self.path.node(cells, root, self.path.depth);
        let leaf = self.path.enter_first(cells, cell);
        self.place = Cursor::Facing(leaf);
        leaf
    }

    /// The previous name's key; the place is then before it. `None` exactly at the beginning, and the place stays.
    pub fn prev<C: CellRead>(&mut self, cells: &mut C) -> Option<Key>
        requires { StandsSomewhere (C.has cells.old) self.old }
        ensures same { cells.new ≡ cells.old }
        ensures step { StepsBack (C.has cells.old) self.old self.new (λ e. result ≡ Some e.key) (result ≡ None) }
    {
        match self.prev_leaf(cells) {
            None => None,
            Some(leaf) => Some(key_at(cells, leaf)),
        }
    }

    /// The leaf of the previous name; the place is then before it. `None` exactly at the beginning, and the place stays.
    pub fn prev_leaf<C: CellRead>(&mut self, cells: &mut C) -> Option<Leaf>
        requires { StandsSomewhere (C.has cells.old) self.old }
        ensures same { cells.new ≡ cells.old }
        ensures step { StepsBack (C.has cells.old) self.old self.new (λ e. IsSomeAnd result (λ leaf. IsNamed (C.has cells.old) leaf e)) (result ≡ None) }
    {
        let leaf = self.behind(cells)?;
        self.place = Cursor::Facing(leaf);
        Some(leaf)
    }

    /// The leaf of the previous name. The place stays: right after it. `None` exactly at the beginning.
    pub fn behind<C: CellRead>(&mut self, cells: &mut C) -> Option<Leaf>
        requires { StandsSomewhere (C.has cells.old) self.old }
        ensures same { cells.new ≡ cells.old }
        ensures stays { Wherever (C.has cells.old) self.old (λ root. StandsBetween (C.has cells.old) root self.new) }
        ensures passed { Wherever (C.has cells.old) self.old (HasPassedLast (C.has cells.old) self.new.path result) }
    {
        match self.root {
            None => None,
            Some(root) => match self.place {
                Cursor::Start => None,
                Cursor::Past(leaf) => Some(leaf),
                Cursor::Facing(_) => {
                    if self.path.turn_back() {
                        Some(self.pass_last(cells, root))
                    } else {
                        None
                    }
                }
            },
        }
    }

    /// Stands right after the last leaf below the node that the path leads to.
    fn pass_last<C: CellRead>(&mut self, cells: &mut C, root: Ref) -> Leaf
        requires { HasNode (C.has cells.old) self.old.path root self.old.path.depth }
        ensures same { cells.new ≡ cells.old }
        ensures root { self.new.root ≡ self.old.root }
        ensures place { self.new.place ≡ Past result }
        ensures passed { PassesLast (C.has cells.old) root self.old.path self.new.path result }
    {
        let cell = self.path.node(cells, root, self.path.depth);
        let leaf = self.path.enter_last(cells, cell);
        self.place = Cursor::Past(leaf);
        leaf
    }

    /// Stands before the first name at or after the key's, from wherever it stood.
    pub fn seek<C: CellRead>(&mut self, cells: &mut C, key: &Key)
        requires { StandsSomewhere (C.has cells.old) self.old }
        ensures same { cells.new ≡ cells.old }
        ensures split { InVersion (C.has cells.old) self.old (λ root version. AtSplit (StandsBetween (C.has cells.old) root self.new) key.now version) }
    {
        match self.root {
            None => {}
            Some(root) => {
                let met = self.meet(cells, root, key);
                self.stand(cells, root, key, met);
            }
        }
    }

    /// Stands before the first name at or after the key's, from wherever it stood, and gives the leaf of the key if it is there. The names at or above the
    /// key's that are there are written into `above`.
    pub fn lookup<C: CellRead>(
        &mut self,
        cells: &mut C,
        key: &Key,
        above: &mut Ancestors,
    ) -> Option<Leaf>
        requires { StandsSomewhere (C.has cells.old) self.old }
        ensures same { cells.new ≡ cells.old }
        ensures split { InVersion (C.has cells.old) self.old (λ root version. AtSplit (StandsBetween (C.has cells.old) root self.new) key.now version) }
        ensures leaf { InVersion (C.has cells.old) self.old (λ root version. FindsLeaf (IsNamed (C.has cells.old)) key.now version result) }
        ensures above { InVersion (C.has cells.old) self.old (λ root version. AreAncestors (IsNamed (C.has cells.old)) (chain key.now version) above.new) }
    {
        above.clear();
        match self.root {
            None => None,
            Some(root) => {
                let met = self.meet_below(cells, root, key, above);
                self.stand(cells, root, key, met);
                match met.difference {
                    None => Some(met.leaf),
                    Some(_) => None,
                }
            }
        }
    }

    /// The leaf that the key is nearest to: its own, or else one whose key has the longest beginning in common with it; `None` exactly where there is no
    /// name. The names at or above the key's that are there are written into `above`. The iterator stands before the first name then.
    pub fn reach<C: CellRead>(
        &mut self,
        cells: &mut C,
        key: &Key,
        above: &mut Ancestors,
    ) -> Option<Met>
        requires { StandsSomewhere (C.has cells.old) self.old }
        ensures same { cells.new ≡ cells.old }
        ensures start { InVersion (C.has cells.old) self.old (λ root version. StandsBetween (C.has cells.old) root self.new [] version) }
        ensures nearest { InVersion (C.has cells.old) self.old (λ root version. MeetsNearest (IsNamed (C.has cells.old)) key.now version result) }
        ensures above { InVersion (C.has cells.old) self.old (λ root version. AreAncestors (IsNamed (C.has cells.old)) (chain key.now version) above.new) }
    {
        above.clear();
        match self.root {
            None => {
                self.restart(None);
                None
            }
            Some(root) => {
                let met = self.meet_below(cells, root, key, above);
                self.restart(Some(root));
                Some(met)
            }
        }
    }

    /// Meets the leaf that the key is nearest to, and puts in the names at or above the key's that are there, the top first.
    fn meet_below<C: CellRead>(
        &mut self,
        cells: &mut C,
        root: Ref,
        key: &Key,
        above: &mut Ancestors,
    ) -> Met
        requires { CanMeet (C.has cells.old) root self.old above.old }
        ensures same { cells.new ≡ cells.old }
        ensures root { self.new.root ≡ Some root }
        ensures meets { InVersion (C.has cells.old) self.old (λ any version. Meets (C.has cells.old) key.now root self.new.path result version) }
        ensures above { InVersion (C.has cells.old) self.old (λ any version. AreAncestors (IsNamed (C.has cells.old)) (chain key.now version) above.new) }
    {
        let met = self.meet(cells, root, key);
        self.path.gather(cells, root, key, above);
        add_met(key, met, above);
        met
    }

    /// Goes down by the key's positions to a leaf whose key has the longest beginning in common with it, and back up to where all branches that are passed
    /// lie before their first difference.
    fn meet<C: CellRead>(&mut self, cells: &mut C, root: Ref, key: &Key) -> Met
        requires stands { StandsSomewhere (C.has cells.old) self.old }
        requires root { self.old.root ≡ Some root }
        ensures same { cells.new ≡ cells.old }
        ensures root { self.new.root ≡ Some root }
        ensures meets { InVersion (C.has cells.old) self.old (λ any version. Meets (C.has cells.old) key.now root self.new.path result version) }
    {
        self.path.depth = 0;
        let cell = cells.cell(root);
        let leaf = self.path.approach(cells, cell, key);
        let difference = difference_at(cells, leaf, key);
        if let Some(first) = difference {
            self.path.cut(first.place);
        }
        Met { leaf, difference }
    }

    /// Stands before the first name at or after the key's, once its nearest leaf was met.
    fn stand<C: CellRead>(&mut self, cells: &mut C, root: Ref, key: &Key, met: Met)
        requires root { self.old.root ≡ Some root }
        requires meets { (version : List Entry) × Meets (C.has cells.old) key.now root self.old.path met version }
        ensures same { cells.new ≡ cells.old }
        ensures split { (version : List Entry) → Meets (C.has cells.old) key.now root self.old.path met version
            → AtSplit (StandsBetween (C.has cells.old) (Some root) self.new) key.now version }
    {
        match met.difference {
            None => self.place = Cursor::Facing(met.leaf),
            Some(first) => {
                if first.position < key.at(first.place) {
                    self.pass_last(cells, root);
                } else {
                    self.face_first(cells, root);
                }
            }
        }
    }
}

/// The leaf that a key's way ends at, whose key has the longest beginning in common with it.
#[derive(Clone, Copy)]
pub struct Met {
    pub leaf: Leaf,
    /// Where the key first differs from the leaf's.
    pub difference: Option<Difference>,
}

/// Adds the leaf that was met to the names above, where it is one of them: it is the key's own, or ends where a label of the key does.
fn add_met(key: &Key, met: Met, above: &mut Ancestors)
    requires { IsAtOrAbove key.now met.difference → length above.old < 128 }
    ensures above { IsAtOrAbove key.now met.difference
        → (a : Ancestor) × (a.leaf ≡ met.leaf) × (a.labels ≡ labels_of_met key.now met.difference) × (above.new ≡ above.old ++ a ∷ []) }
    ensures apart { ¬ IsAtOrAbove key.now met.difference → above.new ≡ above.old }
{
    match met.difference {
        None => {
            let labels = labels_of(key);
            above.push(Ancestor {
                leaf: met.leaf,
                labels,
            });
        }
        Some(first) => {
            if first.position == 0 && ends_at(key, first.place) {
                let labels = labels_to(key, first.place);
                above.push(Ancestor {
                    leaf: met.leaf,
                    labels,
                });
            }
        }
    }
}
