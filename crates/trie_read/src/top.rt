//! What stands for a trie.

use packed_node::Ref;

/// A trie's top node, by its reference; `None` for the empty trie.
pub type Root = Option<Ref>;
