//! Tries of which most names have gone, and what an evacuation makes of them.

ghost use Rattle.std.specs.Prelude.{◌<◌, None, IfSome};
ghost use Rattle.trie_tests.specs.Tries.{IsTrie};

use crate::tries::{Change, built, changed, sizes};
use chunk_cells::CellWrite;
use chunk_usage::{Space, Usage};
use evacuate::{EvacuationEnd, evacuate, find_spans};
use packed_node::Ref;
use trie_write::Item;

/// The root once all items are put in or taken out.
pub(crate) fn changed_all<C: CellWrite, U: Space>(
    cells: &mut C,
    usage: &mut U,
    root: Option<Ref>,
    items: &[Item],
    change: Change,
) -> Option<Option<Ref>>
    requires { IsTrie C.has C.kept C.given U.account cells.old usage.old root }
    ensures { IfSome result (IsTrie C.has C.kept C.given U.account cells.new usage.new) }
{
    let mut root = root;
    for item in items {
        root = changed(cells, usage, root, change, item).ok()?;
    }
    Some(root)
}

/// The root once all items but one of so many are put in or taken out.
pub(crate) fn changed_but<C: CellWrite, U: Space>(
    cells: &mut C,
    usage: &mut U,
    root: Option<Ref>,
    items: &[Item],
    so_many: usize,
    change: Change,
) -> Option<Option<Ref>>
    requires some { 0 < so_many }
    requires trie { IsTrie C.has C.kept C.given U.account cells.old usage.old root }
    ensures trie { IfSome result (IsTrie C.has C.kept C.given U.account cells.new usage.new) }
{
    let mut root = root;
    for i in 0..items.len() {
        if i % so_many == 0 {
            continue;
        }
        root = changed(cells, usage, root, change, &items[i]).ok()?;
    }
    Some(root)
}

/// The root of the trie of the items, once all but one of so many are taken out.
pub(crate) fn thinned<C: CellWrite, U: Space>(
    cells: &mut C,
    usage: &mut U,
    items: &[Item],
    so_many: usize,
) -> Option<Option<Ref>>
    requires some { 0 < so_many }
    requires trie { IsTrie C.has C.kept C.given U.account cells.old usage.old None }
    ensures trie { IfSome result (IsTrie C.has C.kept C.given U.account cells.new usage.new) }
{
    let (root, _) = built(cells, usage, items)?;
    changed_but(cells, usage, root, items, so_many, Change::Delete)
}

/// The same, where it is found after the making in which part of the trie each chunk has its cells.
pub(crate) fn opened<C: CellWrite>(
    cells: &mut C,
    usage: &mut Usage,
    items: &[Item],
    so_many: usize,
) -> Option<Option<Ref>>
    requires some { 0 < so_many }
    requires trie { IsTrie C.has C.kept C.given ⟦<Usage as Space>⟧.account cells.old usage.old None }
    ensures trie { IfSome result (IsTrie C.has C.kept C.given ⟦<Usage as Space>⟧.account cells.new usage.new) }
{
    let (root, _) = built(cells, usage, items)?;
    find_spans(cells, usage, root);
    changed_but(cells, usage, root, items, so_many, Change::Delete)
}

/// The root of a trie of n211, n22, and so many others that a chunk is full, and then of n215 and the last ones, which are taken out and put in
/// again. Once n22 is taken out too, the path on which n215 was put in leads to n211, which lies elsewhere.
pub(crate) fn misled<C: CellWrite, U: Space>(
    cells: &mut C,
    usage: &mut U,
    items: &[Item],
    first: &[Item],
    last: &[Item],
) -> Option<Option<Ref>>
    requires trie { IsTrie C.has C.kept C.given U.account cells.old usage.old None }
    ensures trie { IfSome result (IsTrie C.has C.kept C.given U.account cells.new usage.new) }
{
    let (n211, n215, n22) = (
        items.get(126..127)?,
        items.get(130..131)?,
        items.get(135..136)?,
    );
    let root = changed_all(cells, usage, None, n211, Change::Insert)?;
    let root = changed_all(cells, usage, root, n22, Change::Insert)?;
    let root = changed_all(cells, usage, root, first, Change::Insert)?;
    let root = changed_all(cells, usage, root, n215, Change::Insert)?;
    let root = changed_all(cells, usage, root, last, Change::Insert)?;
    let root = changed_all(cells, usage, root, last, Change::Delete)?;
    let root = changed_all(cells, usage, root, last, Change::Insert)?;
    changed_all(cells, usage, root, n22, Change::Delete)
}

/// What an evacuation did.
#[derive(Clone, Copy, PartialEq, Eq, Debug)]
pub(crate) struct Outcome {
    /// How many chunks were sparse before.
    pub(crate) sparse: u32,
    pub(crate) done: EvacuationEnd,
    /// How many names and nodes there are afterwards.
    pub(crate) names: u64,
    pub(crate) nodes: u64,
    /// How many walks over all were needed.
    pub(crate) walks: u64,
}

/// The root once what lies in sparse chunks is moved.
pub(crate) fn evacuated<C: CellWrite>(
    cells: &mut C,
    usage: &mut Usage,
    root: Option<Ref>,
) -> (Option<Ref>, Outcome)
    requires trie { IsTrie C.has C.kept C.given ⟦<Usage as Space>⟧.account cells.old usage.old root }
    ensures trie { IsTrie C.has C.kept C.given ⟦<Usage as Space>⟧.account cells.new usage.new result.0 }
{
    let sparse = usage.sparse();
    let (new, done) = evacuate(cells, usage, root);
    let (names, nodes) = sizes(cells, usage, new);
    let walks = usage.walks();
    let outcome = Outcome {
        sparse,
        done,
        names,
        nodes,
        walks,
    };
    (new, outcome)
}

/// How many cells count.
pub(crate) fn live_cells(usage: &Usage) -> u64 {
    (0..usage.chunks()).fold(
        0,
        |cells, chunk| cells.saturating_add(u64::from(usage.live(chunk))),
    )
}

/// How many chunks have such.
pub(crate) fn counted_chunks(usage: &Usage) -> usize {
    (0..usage.chunks())
        .filter(|chunk| usage.live(*chunk) > 0)
        .count()
}
