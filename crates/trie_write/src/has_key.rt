//! Whether a key is there.

ghost use Rattle.std.specs.Prelude.{◌≡◌, List, Some, IfSome, None};
ghost use Rattle.trie_write.specs.Prelude.{Leads, Entry, InList, Stands, IsThere, EachTells};

use chunk_cells::CellRead;
use packed_node::Ref;
use shift_key::Key;
use trie_read::{Root, get};

/// The root, where the key is below it.
pub fn root_with<C: CellRead>(cells: &mut C, root: Root, key: &Key) -> Option<Ref>
    requires stands { (version : List Entry) × Stands (C.has cells.old) root version × EachTells Leads version }
    ensures same { cells.new ≡ cells.old }
    ensures root { IfSome result (λ at. root ≡ Some at) }
    ensures there { IfSome result (λ _. (version : List Entry) → Stands (C.has cells.old) root version → EachTells Leads version → IsThere key.now version) }
    ensures absent { result ≡ None → (version : List Entry) → Stands (C.has cells.old) root version → EachTells Leads version
        → (x : Entry) → InList x version → x.key ≡ key.now → ⊥ }
{
    let at = root?;
    match get(cells, root, key) {
        Some(_) => Some(at),
        None => None,
    }
}
