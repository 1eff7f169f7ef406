//! An item exchanged for another of the same name.

ghost use Rattle.std.specs.Prelude.{◌≡◌, ◌+◌, List, Contains, IfOk, IfErr, Err, Some, ◌↔◌, length};
ghost use Rattle.trie_write.specs.Prelude.{Leads, cells_in, Entry, InList, Tree, EachTells, HasTrie, HasKey, CanPut, ChangesTree, ChangesTrie, MayAsk};
ghost use Rattle.trie_write.specs.Prelude.{StaysAsItWas, CanReplace, Exchanged, IsOtherLeaf, extent_sizes, replace_asks, LacksRoom, TakesCells};

use super::change::{CellChange, NO_CELLS, item_below, put_change};
use super::descend::end_node;
use super::has_key::root_with;
use super::laying::lay_item;
use super::paths::Trace;
use super::refusal::NotDone;
use chunk_cells::CellWrite;
use chunk_usage::{Shortage, Space};
use packed_node::{Node, Ref};
use shift_key::Key;
use trie_read::Root;

/// What exchanges the item of a name that is there: the leaf of the new item, which is written, in place of the old one.
fn other_leaf<C: CellWrite, U: Space>(
    cells: &mut C,
    usage: &mut U,
    root: Ref,
    key: &Key,
    item: &[u8],
    trace: &mut Trace,
) -> Result<CellChange, Shortage>
    requires { CanReplace C.has C.kept C.given U.account cells.old usage.old root key.now item.now }
    ensures other { IfOk result (λ change. IsOtherLeaf C.has U.account cells.old usage.old cells.new usage.new root key.now item.now change) }
    ensures lacks { IfErr result (λ f. LacksRoom C.has U.account U.lacks cells.old usage.old cells.new usage.new
        (Contains (extent_sizes (length item.now))) f) }
    ensures takes { TakesCells C.has C.kept C.given U.account cells.old usage.old cells.new usage.new (cells_in item.now) }
{
    let node = cells.cell(root);
    let old = end_node(cells, key, u16::MAX, 0, node, trace);
    let old_item = item_below(cells, old);
    let new_item = lay_item(cells, usage, item)?;
    Ok(CellChange {
        cell: Node::Leaf(new_item.leaf()).pack(),
        new_twigs: NO_CELLS,
        new_item,
        old_twigs: NO_CELLS,
        old_item,
    })
}

/// The root of the trie with the item of a name that is there exchanged.
fn replace_item<C: CellWrite, U: Space>(
    cells: &mut C,
    usage: &mut U,
    root: Ref,
    key: &Key,
    item: &[u8],
) -> Result<Ref, Shortage>
    requires { CanReplace C.has C.kept C.given U.account cells.old usage.old root key.now item.now }
    ensures stands { IfOk result (λ new. (t : Tree) (version : List Entry) → HasKey C.has U.account cells.old usage.old root key.now t version
        → (next : List Entry) × Exchanged (record { key = key.now; item = item.now }) version next
        × HasTrie C.has U.account cells.new usage.new (Some new) next) }
    ensures lacks { IfErr result (λ f. LacksRoom C.has U.account U.lacks cells.old usage.old cells.new usage.new
        (MayAsk key.now (HasKey C.has U.account cells.old usage.old root key.now) (replace_asks item.now)) f) }
    ensures changes { ChangesTree C.has C.kept C.given U.account cells.old usage.old cells.new usage.new root key.now
        (HasKey C.has U.account cells.old usage.old root key.now) (3 + cells_in item.now) (cells_in item.now) }
{
    let mut trace = Trace::new();
    let change = other_leaf(cells, usage, root, key, item, &mut trace)?;
    let path = trace.along(key, u16::MAX);
    put_change(cells, usage, root, key, u16::MAX, change, path)
}

/// The root of the trie with a name's item exchanged. The item begins with the name's wire form. After a refusal the root
/// stands as before.
pub fn replace<C: CellWrite, U: Space>(
    cells: &mut C,
    usage: &mut U,
    root: Root,
    key: &Key,
    item: &[u8],
) -> Result<Root, NotDone>
    requires { CanPut C.has C.kept C.given U.account cells.old usage.old root key.now item.now }
    ensures replaced { IfOk result (λ new. (version : List Entry) → HasTrie C.has U.account cells.old usage.old root version → EachTells Leads version
        → (next : List Entry) × Exchanged (record { key = key.now; item = item.now }) version next × HasTrie C.has U.account cells.new usage.new new next) }
    ensures absent { (version : List Entry) → HasTrie C.has U.account cells.old usage.old root version → EachTells Leads version
        → (result ≡ Err NotDone.Refused) ↔ ((x : Entry) → InList x version → x.key ≡ key.now → ⊥) }
    ensures stays { IfErr result (λ why. StaysAsItWas C.has U.account U.lacks cells.old usage.old cells.new usage.new
        root key.now (replace_asks item.now) why) }
    ensures changes { ChangesTrie C.has C.kept C.given U.account cells.old usage.old cells.new usage.new
        root key.now (3 + cells_in item.now) (cells_in item.now) }
{
    match root_with(cells, root, key) {
        None => Err(NotDone::Refused),
        Some(at) => Ok(Some(replace_item(cells, usage, at, key, item)?)),
    }
}
