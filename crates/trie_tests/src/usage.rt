//! A small usage from its first cells to chunks that are given back.

ghost use Rattle.std.specs.Prelude.{◌≡◌, ◌<◌, ◌≤◌, ◌^◌};
ghost use Rattle.chunk_usage.specs.Ledger.{frozen_part};

use crate::room::unused_room;
use chunk_cells::{CellWrite, PlainCells};
use chunk_usage::capacity::{least, roomy};
use chunk_usage::{Grant, Shortage, Space, Usage};
use packed_node::Ref;
use std::alloc::{AllocError, Global};
use std::test::Fail;

/// Whether the cells of these chunks are handed out in fours of 256, the first of which comes with the chunk.
fn fills(usage: &mut Usage, from: u32, to: u32, reserve: bool) -> bool {
    for at in from..to.min(16) {
        for quarter in 0..4 {
            let given = (quarter == 0).then_some(at);
            let at = at * 1024 + quarter * 256;
            if granted(usage, 256, reserve) != Ok(Grant { at, given }) {
                return false;
            }
        }
    }
    true
}

/// So many cells, with or without the reserve.
fn granted(usage: &mut Usage, n: u32, reserve: bool) -> Result<Grant, Shortage>
    requires some { 0 < n }
    requires few { n ≤ 256 }
{
    if reserve {
        return usage.alloc_reserve(n);
    }
    usage.alloc(n)
}

/// Releases the third quarter of a chunk, if so many of its cells count.
fn release_quarter(usage: &mut Usage, chunk: u32)
    requires { chunk < 4096 }
{
    if usage.live(chunk) >= 256 {
        usage.release(chunk * 1024 + 512, 256);
    }
}

/// Whether there is no room for a cell, with the reserve or without it, and so many chunks are free.
fn is_full(usage: &mut Usage, reserve: bool, free: u32) -> bool {
    granted(usage, 1, reserve).is_err_and(|full| {
        full.needed == 1 && full.left == 0 && full.free == free && full.reserve == 4
    })
}

/// Hands out 12 of the 16 chunks.
fn leaves_the_reserve(usage: &mut Usage) -> bool {
    fills(usage, 0, 12, false)
        && is_full(usage, false, 4)
        && !usage.is_free(11)
        && usage.is_free(12)
}

/// The reserve is four chunks.
fn hands_out_the_reserve(usage: &mut Usage) -> bool {
    release_quarter(usage, 11);
    usage.live(10) == 1024
        && usage.live(11) == 768
        && fills(usage, 12, 16, true)
        && is_full(usage, true, 0)
        && usage.sparse() == 0
}

/// All chunks are sparse but the last, which cells are handed out from.
fn releases_all(usage: &mut Usage) -> bool {
    usage.release_all();
    usage.live(10) == 0 && usage.sparse() == 15 && usage.is_sparse(14) && !usage.is_sparse(15)
}

fn hands_out_all(usage: Usage) -> bool {
    let mut usage = usage;
    usage.chunks() == 16
        && usage.free() == 16
        && usage.reserve() == 4
        && leaves_the_reserve(&mut usage)
        && hands_out_the_reserve(&mut usage)
        && releases_all(&mut usage)
}

#[test]
fn cells_are_handed_out_until_the_reserve_is_left(rt: HostRuntime) -> Result<(), Fail> {
    let (_, usage) = unused_room(rt.alloc(), 16)?;
    assert!(rt; hands_out_all(usage));
    Ok(())
}

/// A call, or a question.
#[derive(Clone, Copy)]
enum Call {
    /// The first of so many cells that are handed out.
    Take(u32),
    /// No cell counts any more.
    ReleaseAll,
    Fresh,
    Restore,
    /// How many chunks are given back.
    FreeUnreached,
    /// How many cells of a chunk count.
    Live(u32),
    /// How many chunks are free.
    Left,
    IsFree(u32),
    IsMutable(Ref),
}

/// What it answers: 1 for yes, 0 for no and for nothing.
fn answer(usage: &mut Usage, cells: &mut PlainCells, call: Call) -> u32
    requires same { ⟦<PlainCells as CellWrite>⟧.given cells.old ≡ usage.old.given }
    ensures same { ⟦<PlainCells as CellWrite>⟧.given cells.new ≡ usage.new.given }
    ensures rows { usage.new.rows ≡ usage.old.rows }
    ensures passes { usage.new.passes ≡ usage.old.passes }
{
    match call {
        Call::Take(n) => return take(usage, cells, n),
        Call::ReleaseAll => usage.release_all(),
        Call::Fresh => usage.fresh(),
        Call::Restore => usage.restore(),
        Call::FreeUnreached => return usage.free_unreached(cells),
        Call::Live(chunk) => return usage.live(chunk),
        Call::Left => return usage.free(),
        Call::IsFree(chunk) => return yes(usage.is_free(chunk)),
        Call::IsMutable(at) => return yes(usage.is_mutable(at)),
    }
    0
}

fn yes(holds: bool) -> u32 {
    if holds { 1 } else { 0 }
}

/// The first of n cells that are handed out. Their chunk is given where it is a new one.
fn take(usage: &mut Usage, cells: &mut PlainCells, n: u32) -> Ref
    requires same { ⟦<PlainCells as CellWrite>⟧.given cells.old ≡ usage.old.given }
    ensures same { ⟦<PlainCells as CellWrite>⟧.given cells.new ≡ usage.new.given }
    ensures frozen { frozen_part usage.new ≡ frozen_part usage.old }
{
    if n == 0 || n > 256 {
        return 0;
    }
    match Space::alloc(usage, n) {
        Err(_) => 0,
        Ok(grant) => {
            if let Some(chunk) = grant.given {
                cells.give(chunk);
            }
            grant.at
        }
    }
}

/// Whether the calls answer the numbers beside them.
fn answers(usage: &mut Usage, cells: &mut PlainCells, calls: &[(Call, u32)]) -> bool
    requires same { ⟦<PlainCells as CellWrite>⟧.given cells.old ≡ usage.old.given }
    ensures same { ⟦<PlainCells as CellWrite>⟧.given cells.new ≡ usage.new.given }
    ensures rows { usage.new.rows ≡ usage.old.rows }
    ensures passes { usage.new.passes ≡ usage.old.passes }
{
    for i in 0..calls.len() {
        let (call, due) = calls[i];
        if answer(usage, cells, call) != due {
            return false;
        }
    }
    true
}

const FIRST_VERSION: &[(Call, u32)] = &[(Call::Take(100), 0)];

const SECOND_VERSION: &[(Call, u32)] = &[
    (Call::IsMutable(99), 0),
    (Call::IsMutable(100), 1),
    (Call::IsMutable(1024), 0),
    // A version that is given up: its chunk holds nothing.
    (Call::Take(50), 100),
    (Call::Fresh, 0),
    (Call::Take(5), 1024),
    (Call::IsMutable(99), 0),
    (Call::IsMutable(100), 1),
    (Call::IsMutable(1024), 1),
    (Call::Restore, 0),
    (Call::Live(0), 100),
    (Call::Live(1), 0),
    (Call::Left, 14),
    (Call::FreeUnreached, 1),
    (Call::Left, 15),
    (Call::IsFree(1), 1),
    // The cells behind the last version's are handed out again.
    (Call::Take(7), 100),
    // A new version has nothing in the first chunk, and the old one goes.
    (Call::ReleaseAll, 0),
    (Call::Fresh, 0),
    (Call::Take(9), 1024),
];

const WITH_BOTH: &[(Call, u32)] = &[(Call::FreeUnreached, 0)];

const WITHOUT_FIRST: &[(Call, u32)] = &[
    (Call::FreeUnreached, 1),
    (Call::IsFree(0), 1),
    (Call::Live(0), 0),
    (Call::Live(1), 9),
    (Call::Left, 15),
];

/// Whether chunks are given back when no version has them.
fn gives_back(alloc: Global) -> Result<bool, AllocError> {
    let (mut cells, mut usage) = unused_room(alloc, 16)?;
    let first = answers(&mut usage, &mut cells, FIRST_VERSION);
    usage.freeze(0);
    let second = answers(&mut usage, &mut cells, SECOND_VERSION);
    usage.freeze(1);
    let both = answers(&mut usage, &mut cells, WITH_BOTH);
    usage.drop_version(0);
    Ok(first && second && both && answers(&mut usage, &mut cells, WITHOUT_FIRST))
}

#[test]
fn chunks_are_given_back_when_no_version_has_them(rt: HostRuntime) -> Result<(), Fail> {
    assert!(rt; gives_back(rt.alloc())?);
    Ok(())
}

/// Whether so many chunks are the fewest that are enough.
fn is_least(passes: u32, cells: u64, operations: u32, chunks: u32) -> bool
    requires cells { cells < 2 ^ 40 }
    requires some { 1 ≤ chunks }
{
    roomy(passes, cells, operations, chunks)
        && !roomy(passes, cells, operations, chunks - 1)
        && least(passes, cells, operations) == Some(chunks)
}

// Of the first, half are four versions of 12 chunks, 40 for an operation, one for what is moved, and four that are begun. Of the second they
// are three versions of nine, and four that are begun.
#[test]
fn chunks_are_enough_from_the_least_on(rt: HostRuntime) {
    assert!(rt; is_least(2, 1_000, 1, 186));
    assert!(rt; is_least(1, 0, 0, 62));
}
