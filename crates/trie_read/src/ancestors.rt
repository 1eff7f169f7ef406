//! The names at or above a name.

ghost use Rattle.std.specs.Prelude.{◌≡◌, ◌<◌, ◌≤◌, ◌++◌, ◌∷◌, [], length};

use packed_node::Leaf;
use std::marker::Model;

/// A name at or above another one.
#[derive(Clone, Copy, PartialEq, Eq, Debug)]
pub struct Ancestor {
    pub leaf: Leaf,
    /// How many labels it has; the root has none.
    pub labels: u8,
}

/// The names at or above a name that are there, the top first: at most 128. A look-up writes them; one value can be used for many.
#[derive(Drop)]
pub struct Ancestors {
    names: [Ancestor; 128],
    len: u8,
}

impl Model for Ancestors {
    ghost use Rattle.std.specs.Prelude.{List, ◌≤◌, take};
    ghost use Rattle.trie_read.specs.declared.ancestors.Ancestor.{Ancestor};

    ghost Value = { List Ancestor };

    ghost view = { λ a. take a.len a.names };

    ghost invariant = { λ a. a.len ≤ 128 };
}

impl Ancestors {
    /// None.
    pub fn new() -> Ancestors
        ensures { result ≡ [] }
    {
        let leaf = Leaf { len: 0, at: 0 };
        Ancestors {
            names: [Ancestor { leaf, labels: 0 }; 128],
            len: 0,
        }
    }

    /// They, the top first.
    pub fn as_slice(&self) -> &[Ancestor]
        ensures names { result.now ≡ self.now }
        ensures few { length self.now ≤ 128 }
    {
        &self.names[..self.len as usize]
    }

    /// Takes all out.
    pub fn clear(&mut self)
        ensures { self.new ≡ [] }
    {
        self.len = 0;
    }

    /// Puts one more at the end.
    pub fn push(&mut self, ancestor: Ancestor)
        requires { length self.old < 128 }
        ensures { self.new ≡ self.old ++ ancestor ∷ [] }
    {
        let at = self.len as usize;
        self.names[at].leaf = ancestor.leaf;
        self.names[at].labels = ancestor.labels;
        self.len += 1;
    }
}
