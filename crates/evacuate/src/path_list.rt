//! What lies in sparse chunks, found along the paths that these were written on, and moved.

ghost use Rattle.std.specs.Prelude.{IfErr};
ghost use Rattle.evacuate.specs.Prelude.{IsUsedUp, CanRearrange, Rearranged};

use super::descent::{copy_forked, move_forked};
use super::finding::{Last, Listing, Mark, Marks, Rest, Search, last_along};
use super::path_walk::{descend, empty_along, go_on};
use chunk_cells::CellWrite;
use chunk_usage::{Path, Shortage, Usage};
use packed_node::Ref;

// How often sparse chunks are looked for whose paths weren't gone along.
const ROUNDS: u32 = 8;

/// What is done along paths.
#[derive(Clone, Copy, PartialEq, Eq)]
enum Step {
    /// The twigs above what lies in a sparse chunk are made mutable. They change often, so they are to lie together.
    Copy,
    /// What lies in sparse chunks is moved.
    Move,
}

/// Moves what lies in a sparse chunk along a path that doesn't fork, perhaps down to the item. If there was anything, the bump chunk lists the path.
fn move_along<C: CellWrite>(
    cells: &mut C,
    usage: &mut Usage,
    root: Ref,
    chunk: u32,
    path: Path,
    to_item: bool,
) -> Result<(), Shortage>
    requires { CanRearrange C.has C.kept C.given root cells.old usage.old }
    ensures rearranged { Rearranged C.has C.kept C.given root cells.old usage.old cells.new usage.new }
    ensures full { IfErr result (λ _. IsUsedUp usage.new) }
{
    let moved = empty_along(cells, usage, root, path, chunk, to_item)?;
    if moved {
        usage.note(path);
    }
    Ok(())
}

/// The mark of a path on which twigs were made mutable, where something is left then.
fn mark_of(rest: Rest) -> Option<Mark> {
    if rest == Rest::Nothing {
        return None;
    }
    Some(Mark::Straight {
        to_item: rest == Rest::Item,
    })
}

/// Makes twigs mutable that are above the last on a path that lies in a chunk, and the bump chunk lists the path if any was moved for that.
/// Tells what is left there then.
fn copy_along<C: CellWrite>(
    cells: &mut C,
    usage: &mut Usage,
    root: Ref,
    chunk: u32,
    path: Path,
) -> Result<Option<Mark>, Shortage>
    requires { CanRearrange C.has C.kept C.given root cells.old usage.old }
    ensures rearranged { Rearranged C.has C.kept C.given root cells.old usage.old cells.new usage.new }
    ensures full { IfErr result (λ _. IsUsedUp usage.new) }
{
    let from = descend(cells, usage, root, path, chunk);
    match last_along(cells, chunk, from.node, from.on) {
        Last::None => Ok(None),
        Last::Below { end, rest } => {
            let way = go_on(cells, usage, root, from, chunk, end, true)?;
            if let Some(steps) = way.moved {
                usage.note_row(path, steps);
            }
            Ok(mark_of(rest))
        }
        Last::Forks => {
            let found = copy_forked(cells, usage, root, path)?;
            Ok(if found { Some(Mark::Forked) } else { None })
        }
    }
}

/// Makes twigs mutable along a listed path, and marks it where something is left then.
fn copy_step<C: CellWrite>(
    cells: &mut C,
    usage: &mut Usage,
    root: Ref,
    marks: &mut Marks,
    listing: Listing,
) -> Result<(), Shortage>
    requires { CanRearrange C.has C.kept C.given root cells.old usage.old }
    ensures rearranged { Rearranged C.has C.kept C.given root cells.old usage.old cells.new usage.new }
    ensures full { IfErr result (λ _. IsUsedUp usage.new) }
{
    let listed = usage.path(listing.chunk, listing.place);
    if marks.search == Search::Likely && usage.is_gone(listing.chunk, listed) {
        return Ok(());
    }
    let path = marks.search.along(listed);
    if let Some(mark) = copy_along(cells, usage, root, listing.chunk, path)? {
        marks.put(listing, mark);
    }
    Ok(())
}

/// Moves what is left along a listed path. Nothing is moved along one on which nothing was found.
fn move_step<C: CellWrite>(
    cells: &mut C,
    usage: &mut Usage,
    root: Ref,
    marks: &Marks,
    listing: Listing,
) -> Result<(), Shortage>
    requires { CanRearrange C.has C.kept C.given root cells.old usage.old }
    ensures rearranged { Rearranged C.has C.kept C.given root cells.old usage.old cells.new usage.new }
    ensures full { IfErr result (λ _. IsUsedUp usage.new) }
{
    let Some(mark) = marks.of(listing) else {
        return Ok(());
    };
    let path = marks.search.along(usage.path(listing.chunk, listing.place));
    match mark {
        Mark::Straight { to_item } => {
            move_along(cells, usage, root, listing.chunk, path, to_item)
        }
        Mark::Forked => move_forked(cells, usage, root, path),
    }
}

/// Does a step along a listed path.
fn step_along<C: CellWrite>(
    cells: &mut C,
    usage: &mut Usage,
    root: Ref,
    step: Step,
    marks: &mut Marks,
    listing: Listing,
) -> Result<(), Shortage>
    requires { CanRearrange C.has C.kept C.given root cells.old usage.old }
    ensures rearranged { Rearranged C.has C.kept C.given root cells.old usage.old cells.new usage.new }
    ensures full { IfErr result (λ _. IsUsedUp usage.new) }
{
    match step {
        Step::Copy => copy_step(cells, usage, root, marks, listing),
        Step::Move => move_step(cells, usage, root, marks, listing),
    }
}

/// Does it along each path that a chunk lists. Twigs are made mutable once, and what is left is moved where that was done.
fn step_in_chunk<C: CellWrite>(
    cells: &mut C,
    usage: &mut Usage,
    root: Ref,
    chunk: u32,
    step: Step,
    marks: &mut Marks,
) -> Result<(), Shortage>
    requires { CanRearrange C.has C.kept C.given root cells.old usage.old }
    ensures rearranged { Rearranged C.has C.kept C.given root cells.old usage.old cells.new usage.new }
    ensures full { IfErr result (λ _. IsUsedUp usage.new) }
{
    if step == Step::Copy && !marks.begin(chunk, usage.listed(chunk)) {
        return Ok(());
    }
    let Some(first) = marks.first_of(chunk) else {
        return Ok(());
    };
    for place in 0..usage.listed(chunk) {
        if usage.live(chunk) == 0 {
            return Ok(());
        }
        let listing = Listing {
            chunk,
            place,
            number: first.wrapping_add(place),
        };
        step_along(cells, usage, root, step, marks, listing)?;
    }
    Ok(())
}

/// The same for each sparse chunk.
fn step_in_all<C: CellWrite>(
    cells: &mut C,
    usage: &mut Usage,
    root: Ref,
    step: Step,
    marks: &mut Marks,
) -> Result<(), Shortage>
    requires { CanRearrange C.has C.kept C.given root cells.old usage.old }
    ensures rearranged { Rearranged C.has C.kept C.given root cells.old usage.old cells.new usage.new }
    ensures full { IfErr result (λ _. IsUsedUp usage.new) }
{
    let mut from = 0;
    while let Some(chunk) = usage.sparse_from(from) {
        usage.known(); // for the proof
        step_in_chunk(cells, usage, root, chunk, step, marks)?;
        from = chunk + 1;
    }
    Ok(())
}

/// Makes twigs mutable above what the lists of sparse chunks lead to. What is moved away may leave further chunks sparse, whose lists are gone
/// along too before anything else is moved: so what changes often doesn't come to lie behind what doesn't.
fn copy_all<C: CellWrite>(
    cells: &mut C,
    usage: &mut Usage,
    root: Ref,
    marks: &mut Marks,
) -> Result<(), Shortage>
    requires { CanRearrange C.has C.kept C.given root cells.old usage.old }
    ensures rearranged { Rearranged C.has C.kept C.given root cells.old usage.old cells.new usage.new }
    ensures full { IfErr result (λ _. IsUsedUp usage.new) }
{
    for _ in 0..ROUNDS {
        let sparse = usage.sparse();
        step_in_all(cells, usage, root, Step::Copy, marks)?;
        if usage.sparse() == sparse {
            return Ok(());
        }
    }
    Ok(())
}

/// Moves what the lists of sparse chunks lead to. What lies above it is made mutable first, for all of them.
pub fn move_listed<C: CellWrite>(
    cells: &mut C,
    usage: &mut Usage,
    root: Ref,
    search: Search,
) -> Result<(), Shortage>
    requires { CanRearrange C.has C.kept C.given root cells.old usage.old }
    ensures rearranged { Rearranged C.has C.kept C.given root cells.old usage.old cells.new usage.new }
    ensures full { IfErr result (λ _. IsUsedUp usage.new) }
{
    let mut marks = Marks::new(search);
    copy_all(cells, usage, root, &mut marks)?;
    step_in_all(cells, usage, root, Step::Move, &mut marks)
}
