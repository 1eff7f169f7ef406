//! Evacuation: sparse chunks are emptied.

ghost use Rattle.std.specs.Prelude.{◌≡◌, ◌/◌, List, Option, true, false, IfOk, IfErr, IfSome};
ghost use Rattle.evacuate.specs.Prelude.{Entry, is_unmixed, is_mutable, is_used, Grows, account_of, reserve_account_of, Ready, HasTrie};
ghost use Rattle.evacuate.specs.Prelude.{CarriesTrie, EmptiesChunks, Ended, HasSparse, IsCleared, ListsEnd, begun, filled_on};
ghost use Rattle.evacuate.specs.Prelude.{is_filled_on, IsStood, LeavesRest, Unmoved, CanBegin, CanRearrange, Emptied, Rearranged};
ghost use Rattle.evacuate.specs.Prelude.{RootCopied};

use super::descent::move_found;
use super::finding::Search;
use super::moves::move_root;
use super::path_list::move_listed;
use super::sparse::is_any_sparse;
use super::stack::{Stack, next_sparse};
use super::surveys::{is_still_lacking, survey};
use chunk_cells::CellWrite;
use chunk_usage::{Shortage, Usage};
use packed_node::{Ref, chunk_of};
use trie_read::Root;

// How often the lists of sparse chunks are gone through before they are made anew.
const ROUNDS: u32 = 6;

/// How an evacuation ended.
#[derive(Clone, Copy, PartialEq, Eq, Debug)]
pub enum EvacuationEnd {
    /// No cell of a sparse chunk counts any more.
    Whole,
    /// No chunk was free.
    Stopped,
}

/// Moves what a root reaches out of the sparse chunks, and may take the reserve for it. The same trie stands at the root that is answered,
/// and what was moved stays so where no chunk was free for the rest.
pub fn evacuate<C: CellWrite>(cells: &mut C, usage: &mut Usage, root: Root) -> (Root, EvacuationEnd)
    requires stands { (version : List Entry) × HasTrie C.has account_of cells.old usage.old root version }
    requires ready { Ready C.kept C.given account_of cells.old usage.old }
    ensures trie { CarriesTrie C.has cells.old usage.old root cells.new usage.new result.0 result.1 }
    ensures chunks { EmptiesChunks usage.old usage.new result.1 }
    ensures rest { LeavesRest C.has C.kept C.given account_of cells.old usage.old cells.new usage.new }
{
    usage.known(); // for the proof
    match root {
        None => (None, EvacuationEnd::Whole),
        Some(at) => {
            if is_any_sparse(usage) {
                let (new, done) = empty_sparse(cells, usage, at);
                usage.known(); // for the proof
                return (Some(new), done);
            }
            (Some(at), EvacuationEnd::Whole)
        }
    }
}

/// Moves all that lies in sparse chunks to chunks that are free now, or to the bump chunk where that may be filled on. It ends where none of
/// them has a cell that counts: once something was moved that was the last of its chunk, or at the end of a walk. The first walk goes where
/// chunks that were sparse at first seem to be reached. One that came to the end begins again, over all, where some chunk still is sparse.
fn empty_sparse<C: CellWrite>(cells: &mut C, usage: &mut Usage, root: Ref) -> (Ref, EvacuationEnd)
    requires stood { IsStood C.has cells.old usage.old root }
    requires sparse { HasSparse usage.old }
    requires ready { Ready C.kept C.given reserve_account_of cells.old usage.old }
    ensures emptied { Emptied C.has C.kept C.given root cells.old usage.old result.0 cells.new usage.new }
    ensures ended { Ended usage.new result.1 }
{
    usage.known(); // for the proof
    let chunk = begin(usage);
    let at = match copy_root(cells, usage, root, chunk) {
        Err(_) => return (root, EvacuationEnd::Stopped),
        Ok(at) => at,
    };
    if let Some(done) = empty_listed(cells, usage, at) {
        return (at, done);
    }
    let mut stack = Stack::new();
    let mut resumed = false;
    let mut before = usage.first_sparse();
    'passes: loop {
        let node = cells.cell(at);
        if next_sparse(cells, usage, &mut stack, node, 0, resumed, before) {
            match move_found(cells, usage, at, &stack) {
                Err(_) => return (at, EvacuationEnd::Stopped),
                Ok(from) if was_last(usage, from) => return (at, EvacuationEnd::Whole),
                Ok(_) => resumed = true,
            }
        } else if begins_again(usage, resumed || before > 0) {
            resumed = false;
            before = 0;
        } else {
            return (at, EvacuationEnd::Whole);
        }
    }
}

/// Moves what the lists of sparse chunks lead to. Tells how that ended, unless some is left: once the lists were made anew, that may be
/// where they had no room for all.
fn empty_listed<C: CellWrite>(cells: &mut C, usage: &mut Usage, root: Ref) -> Option<EvacuationEnd>
    requires { CanRearrange C.has C.kept C.given root cells.old usage.old }
    ensures rearranged { Rearranged C.has C.kept C.given root cells.old usage.old cells.new usage.new }
    ensures ended { ListsEnd usage.old usage.new result }
{
    match known_lists(cells, usage, root) {
        None => {
            survey(cells, usage, root);
            try_lists(cells, usage, root)
        }
        done => done,
    }
}

/// The same with the lists that there are, unless they are known to lack something that no span tells.
fn known_lists<C: CellWrite>(cells: &mut C, usage: &mut Usage, root: Ref) -> Option<EvacuationEnd>
    requires { CanRearrange C.has C.kept C.given root cells.old usage.old }
    ensures rearranged { Rearranged C.has C.kept C.given root cells.old usage.old cells.new usage.new }
    ensures ended { ListsEnd usage.old usage.new result }
{
    if is_still_lacking(cells, usage, root) {
        return None;
    }
    try_lists(cells, usage, root)
}

/// The same with the lists that there are. What is moved away may leave further chunks sparse, so there are some rounds.
///
/// Lists are guesses: what a path led to may have moved, or a branch have come between. So rounds go from likely paths to all ways. Counts alone
/// end them, so a wrong list costs time and loses nothing.
fn try_lists<C: CellWrite>(cells: &mut C, usage: &mut Usage, root: Ref) -> Option<EvacuationEnd>
    requires { CanRearrange C.has C.kept C.given root cells.old usage.old }
    ensures rearranged { Rearranged C.has C.kept C.given root cells.old usage.old cells.new usage.new }
    ensures ended { ListsEnd usage.old usage.new result }
{
    for round in 0..ROUNDS {
        let moved = move_listed(cells, usage, root, Search::in_round(round));
        if !is_any_sparse(usage) {
            return Some(EvacuationEnd::Whole);
        }
        if moved.is_err() {
            return Some(EvacuationEnd::Stopped);
        }
    }
    None
}

/// Whether what was moved was the last of its chunk, and of all sparse chunks.
fn was_last(usage: &Usage, from: Ref) -> bool
    ensures { result ≡ true → IsCleared usage.now }
{
    usage.live(chunk_of(from)) == 0 && !is_any_sparse(usage)
}

/// Whether a walk that came to the end has to begin again. One that left out nothing hasn't.
fn begins_again(usage: &Usage, partial: bool) -> bool
    ensures partial { result ≡ true → partial ≡ true }
    ensures dense { result ≡ false → partial ≡ true → IsCleared usage.now }
{
    if partial {
        return is_any_sparse(usage);
    }
    false
}

/// The bump chunk is filled on, and told, where its transaction has it to itself and nothing in it has ceased to count. Else what is
/// moved goes to chunks that are free now.
fn begin(usage: &mut Usage) -> Option<u32>
    ensures value { result ≡ filled_on usage.old }
    ensures unmixed { IfSome result (λ chunk. is_unmixed usage.old chunk ≡ true) }
    ensures after { usage.new ≡ begun usage.old result }
    ensures grows { Grows (is_used usage.old) (is_used usage.new) (is_mutable usage.old) (is_mutable usage.new) }
{
    if let Some(chunk) = usage.unmixed_bump() {
        return Some(chunk);
    }
    usage.fresh();
    None
}

/// Whether a cell lies in the chunk that is filled on.
fn is_there(at: Ref, chunk: Option<u32>) -> bool
    ensures { result ≡ is_filled_on chunk (at / 1024) }
{
    chunk.is_some_and(|chunk| chunk == chunk_of(at))
}

/// Moves the root's cell, unless it lies in the chunk that is filled on.
fn copy_root<C: CellWrite>(
    cells: &mut C,
    usage: &mut Usage,
    root: Ref,
    chunk: Option<u32>,
) -> Result<Ref, Shortage>
    requires { CanBegin C.has C.kept C.given root chunk cells.old usage.old }
    ensures copied { IfOk result (λ at. RootCopied C.has C.given root chunk cells.old usage.old cells.new usage.new at) }
    ensures unmoved { IfErr result (λ _. Unmoved cells.old usage.old cells.new usage.new) }
    ensures rest { LeavesRest C.has C.kept C.given reserve_account_of cells.old usage.old cells.new usage.new }
{
    usage.known(); // for the proof
    if is_there(root, chunk) {
        return Ok(root);
    }
    move_root(cells, usage, root)
}
