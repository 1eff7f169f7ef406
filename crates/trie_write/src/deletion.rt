//! A name taken out.

ghost use Rattle.std.specs.Prelude.{◌≡◌, List, IfOk, IfErr, Err, Some, ◌↔◌};
ghost use Rattle.trie_write.specs.Prelude.{Leads, Entry, InList, Tree, EachTells, Ready, HasTrie, HasKey, KeyIsThere, CanChange, ChangesTree};
ghost use Rattle.trie_write.specs.Prelude.{ChangesTrie, MayAsk, StaysAsItWas, Deleted, DropAsked, DropAsks, delete_asks, LacksRoom};

use super::change::{Span, item_below, let_go, put_change};
use super::descend::{Descent, last_descent};
use super::has_key::root_with;
use super::paths::Trace;
use super::refusal::NotDone;
use super::remove_leaf::without_leaf;
use chunk_cells::CellWrite;
use chunk_usage::{Path, Shortage, Space};
use packed_node::Ref;
use shift_key::Key;
use trie_read::Root;

/// The root of the trie with a name taken out that is not the only one: the descent is the last one on the way to its leaf.
fn drop_leaf<C: CellWrite, U: Space>(
    cells: &mut C,
    usage: &mut U,
    root: Ref,
    key: &Key,
    descent: Descent,
    path: Path,
) -> Result<Ref, Shortage>
    requires there { DropAsked C.has U.account cells.old usage.old root key.now descent }
    requires ready { Ready C.kept C.given U.account cells.old usage.old }
    ensures stands { IfOk result (λ new. (t : Tree) (version : List Entry) → DropAsks C.has U.account cells.old usage.old root key.now descent t version
        → (next : List Entry) × Deleted key.now version next × HasTrie C.has U.account cells.new usage.new (Some new) next) }
    ensures lacks { IfErr result (λ f. LacksRoom C.has U.account U.lacks cells.old usage.old cells.new usage.new
        (MayAsk key.now (DropAsks C.has U.account cells.old usage.old root key.now descent) delete_asks) f) }
    ensures changes { ChangesTree C.has C.kept C.given U.account cells.old usage.old cells.new usage.new root key.now
        (DropAsks C.has U.account cells.old usage.old root key.now descent) 0 46 }
{
    let change = without_leaf(cells, usage, key, descent)?;
    put_change(cells, usage, root, key, descent.branch.offset, change, path)
}

/// The root of the trie with a name that is there taken out; none for the last one.
fn delete_item<C: CellWrite, U: Space>(
    cells: &mut C,
    usage: &mut U,
    root: Ref,
    key: &Key,
) -> Result<Root, Shortage>
    requires there { KeyIsThere C.has U.account cells.old usage.old root key.now }
    requires ready { Ready C.kept C.given U.account cells.old usage.old }
    ensures stands { IfOk result (λ new. (t : Tree) (version : List Entry) → HasKey C.has U.account cells.old usage.old root key.now t version
        → (next : List Entry) × Deleted key.now version next × HasTrie C.has U.account cells.new usage.new new next) }
    ensures lacks { IfErr result (λ f. LacksRoom C.has U.account U.lacks cells.old usage.old cells.new usage.new
        (MayAsk key.now (HasKey C.has U.account cells.old usage.old root key.now) delete_asks) f) }
    ensures changes { ChangesTree C.has C.kept C.given U.account cells.old usage.old cells.new usage.new root key.now
        (HasKey C.has U.account cells.old usage.old root key.now) 0 46 }
{
    let node = cells.cell(root);
    let mut trace = Trace::new();
    match last_descent(cells, key, 0, node, &mut trace) {
        None => {
            let item = item_below(cells, node);
            let_go(usage, Span { at: root, n: 1 }, &item);
            Ok(None)
        }
        Some(descent) => {
            let path = trace.beside(descent.branch);
            match drop_leaf(cells, usage, root, key, descent, path) {
                Ok(new) => Ok(Some(new)),
                Err(full) => Err(full),
            }
        }
    }
}

/// The root of the trie with a name taken out; none where it was the last one. After a refusal the root stands as before.
pub fn delete<C: CellWrite, U: Space>(
    cells: &mut C,
    usage: &mut U,
    root: Root,
    key: &Key,
) -> Result<Root, NotDone>
    requires { CanChange C.has C.kept C.given U.account cells.old usage.old root }
    ensures deleted { IfOk result (λ new. (version : List Entry) → HasTrie C.has U.account cells.old usage.old root version → EachTells Leads version
        → (next : List Entry) × Deleted key.now version next × HasTrie C.has U.account cells.new usage.new new next) }
    ensures absent { (version : List Entry) → HasTrie C.has U.account cells.old usage.old root version → EachTells Leads version
        → (result ≡ Err NotDone.Refused) ↔ ((x : Entry) → InList x version → x.key ≡ key.now → ⊥) }
    ensures stays { IfErr result (λ why. StaysAsItWas C.has U.account U.lacks cells.old usage.old cells.new usage.new root key.now delete_asks why) }
    ensures changes { ChangesTrie C.has C.kept C.given U.account cells.old usage.old cells.new usage.new root key.now 1 46 }
{
    match root_with(cells, root, key) {
        None => Err(NotDone::Refused),
        Some(at) => Ok(delete_item(cells, usage, at, key)?),
    }
}
