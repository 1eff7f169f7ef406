//! A name put in.

ghost use Rattle.std.specs.Prelude.{◌≡◌, ◌+◌, ◌≤◌, ◌∷◌, ◌++◌, [], ℕ, List, Contains, IfOk, IfErr, Err, Some, ◌↔◌, length};
ghost use Rattle.trie_write.specs.Prelude.{Leads, Inserted, cells_in, Entry, InList, IsEntry, Tree, EachTells, HasTrie, CanPut, ChangesTree};
ghost use Rattle.trie_write.specs.Prelude.{ChangesTrie, MayAsk, StaysAsItWas, CanInsert, IsNewLeaf, LacksKey, MayAskForName, CanLay, extent_sizes};
ghost use Rattle.trie_write.specs.Prelude.{insert_asks, twigs_on_path, LacksRoom, TakesCells};

use super::add_leaf::with_leaf;
use super::alloc::room_for;
use super::change::{CellChange, put_change};
use super::descend::end_node;
use super::laying::{lay_item, release_item};
use super::nearest::compare;
use super::paths::Trace;
use super::refusal::NotDone;
use chunk_cells::CellWrite;
use chunk_usage::{Shortage, Space};
use packed_node::{Node, Ref};
use shift_key::{Difference, Key};
use trie_read::Root;

/// The root of the trie of one name.
fn insert_first<C: CellWrite, U: Space>(
    cells: &mut C,
    usage: &mut U,
    item: &[u8],
) -> Result<Ref, Shortage>
    requires can { CanLay C.kept C.given U.account cells.old usage.old (length item.now) }
    requires uncounted { (k : ℕ) → (U.account usage.old).live k ≡ 0 }
    ensures stands { IfOk result (λ root. (e : Entry) → IsEntry e → e.item ≡ item.now → HasTrie C.has U.account cells.new usage.new (Some root) (e ∷ [])) }
    ensures lacks { IfErr result (λ f. LacksRoom C.has U.account U.lacks cells.old usage.old cells.new usage.new
        (Contains (extent_sizes (length item.now) ++ (1 ∷ []))) f) }
    ensures takes { TakesCells C.has C.kept C.given U.account cells.old usage.old cells.new usage.new (cells_in item.now + 1) }
{
    let there = lay_item(cells, usage, item)?;
    match room_for(cells, usage, 1) {
        Err(full) => {
            release_item(usage, &there);
            Err(full)
        }
        Ok(root) => {
            cells.put(root, Node::Leaf(there.leaf()).pack());
            Ok(root)
        }
    }
}

/// What puts a name in that isn't there, at the first node along its key whose offset isn't before the first difference.
fn new_leaf<C: CellWrite, U: Space>(
    cells: &mut C,
    usage: &mut U,
    root: Ref,
    key: &Key,
    first: Difference,
    item: &[u8],
    trace: &mut Trace,
) -> Result<CellChange, Shortage>
    requires { CanInsert C.has C.kept C.given U.account cells.old usage.old root key.now first item.now }
    ensures new { IfOk result (λ change. IsNewLeaf C.has U.account cells.old usage.old cells.new usage.new root key.now first item.now change) }
    ensures consumes { (t : Tree) (version : List Entry) (h : LacksKey C.has U.account cells.old usage.old root key.now first t version)
        → (U.account usage.new).consumed ≤ (U.account usage.old).consumed + (cells_in item.now + (2 + twigs_on_path key.now h.end)) }
    ensures lacks { IfErr result (λ f. LacksRoom C.has U.account U.lacks cells.old usage.old cells.new usage.new
        (MayAskForName C.has U.account cells.old usage.old root key.now first item.now) f) }
    ensures takes { TakesCells C.has C.kept C.given U.account cells.old usage.old cells.new usage.new (cells_in item.now + 47) }
{
    let top = cells.cell(root);
    let node = end_node(cells, key, first.place, 0, top, trace);
    let there = lay_item(cells, usage, item)?;
    match with_leaf(cells, usage, key, first, node, &there) {
        Err(full) => {
            release_item(usage, &there);
            Err(full)
        }
        Ok(change) => Ok(change),
    }
}

/// The root of the trie with a name put in that isn't there, whose key first differs there from the others.
fn insert_further<C: CellWrite, U: Space>(
    cells: &mut C,
    usage: &mut U,
    root: Ref,
    key: &Key,
    first: Difference,
    item: &[u8],
) -> Result<Ref, Shortage>
    requires { CanInsert C.has C.kept C.given U.account cells.old usage.old root key.now first item.now }
    ensures stands { IfOk result (λ new. (t : Tree) (version : List Entry) → LacksKey C.has U.account cells.old usage.old root key.now first t version
        → (next : List Entry) × Inserted (record { key = key.now; item = item.now }) version next
        × HasTrie C.has U.account cells.new usage.new (Some new) next) }
    ensures lacks { IfErr result (λ f. LacksRoom C.has U.account U.lacks cells.old usage.old cells.new usage.new
        (MayAsk key.now (LacksKey C.has U.account cells.old usage.old root key.now first) (insert_asks item.now)) f) }
    ensures changes { ChangesTree C.has C.kept C.given U.account cells.old usage.old cells.new usage.new root key.now
        (LacksKey C.has U.account cells.old usage.old root key.now first) (3 + cells_in item.now) (47 + cells_in item.now) }
{
    let mut trace = Trace::new();
    let change = new_leaf(cells, usage, root, key, first, item, &mut trace)?;
    let path = trace.along(key, first.place);
    put_change(cells, usage, root, key, first.place, change, path)
}

/// The root of the trie with a name put in. The item begins with the name's wire form. After a refusal the root stands as
/// before.
pub fn insert<C: CellWrite, U: Space>(
    cells: &mut C,
    usage: &mut U,
    root: Root,
    key: &Key,
    item: &[u8],
) -> Result<Root, NotDone>
    requires { CanPut C.has C.kept C.given U.account cells.old usage.old root key.now item.now }
    ensures inserted { IfOk result (λ new. (version : List Entry) → HasTrie C.has U.account cells.old usage.old root version → EachTells Leads version
        → (next : List Entry) × Inserted (record { key = key.now; item = item.now }) version next × HasTrie C.has U.account cells.new usage.new new next) }
    ensures exists { (version : List Entry) → HasTrie C.has U.account cells.old usage.old root version → EachTells Leads version
        → (result ≡ Err NotDone.Refused) ↔ ((x : Entry) × InList x version × (x.key ≡ key.now)) }
    ensures stays { IfErr result (λ why. StaysAsItWas C.has U.account U.lacks cells.old usage.old cells.new usage.new root key.now (insert_asks item.now) why) }
    ensures changes { ChangesTrie C.has C.kept C.given U.account cells.old usage.old cells.new usage.new
        root key.now (3 + cells_in item.now) (47 + cells_in item.now) }
{
    let Some(at) = root else {
        return Ok(Some(insert_first(cells, usage, item)?));
    };
    let node = cells.cell(at);
    match compare(cells, node, key) {
        None => Err(NotDone::Refused),
        Some(first) => Ok(Some(insert_further(cells, usage, at, key, first, item)?)),
    }
}
