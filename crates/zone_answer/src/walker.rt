//! What a question goes through a version with.

ghost use Rattle.std.specs.Prelude.{◌≡◌, [], None};
ghost use Rattle.trie_read.specs.Walks.{IsStart};

use dns_name::Name;
use shift_key::Key;
use trie_read::{Ancestors, Iter};

/// The key of the name that is asked for, an iterator, the names at or above one, and the target of an alias. One value serves many questions, of any
/// versions: it takes longer to clear than a name to find.
#[derive(Drop)]
pub struct Walker {
    pub key: Key,
    pub iter: Iter,
    pub above: Ancestors,
    pub target: Option<Name>,
}

impl Walker {
    /// Nothing was asked for: the root's key, an iterator before the first name of no trie, no names, and no target.
    pub fn new() -> Walker
        ensures key { result.key ≡ [] }
        ensures iter { IsStart None result.iter }
        ensures above { result.above ≡ [] }
        ensures target { result.target ≡ None }
    {
        Walker {
            key: Key::root(),
            iter: Iter::start(None),
            above: Ancestors::new(),
            target: None,
        }
    }
}
