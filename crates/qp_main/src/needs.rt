//! How many chunks a job needs.
ghost use Rattle.std.specs.Prelude.{◌≡◌, ◌<◌, ◌≤◌, ◌+◌, ◌^◌, length, IfOk, IfErr};
ghost use Rattle.qp_main.specs.Prelude.{IsSizeOf, WholeJob, job_of, AreNeedsOf};
ghost use Rattle.qp_main.specs.Prelude.{trie_entries, Sized, Sizes, IsAnswerDue, IsStop};

use crate::input::Input;
use crate::refusing::Stop;
use crate::size_lines::needs_line;
use crate::status::Status;
use chunk_usage::capacity::least;
use command_line::Invocation;
use index_items::zone_size;
use job_report::Pieces;
use job_script::{Needs, needs_of};
use std::alloc::{AllocError, Global};
use trie_size::TrieSize;

// More cells than memory holds the names and operations for.
const MANY_CELLS: u64 = 1 << 40;

// The cells of a zone and those of all that is added to it.
fn all_cells(zone: u64, added: u64) -> Result<u64, AllocError>
    ensures sum { IfOk result (λ n. n ≡ zone + added) }
    ensures few { IfOk result (λ n. n < 2 ^ 40) }
{
    match zone.checked_add(added) {
        Some(cells) if cells < MANY_CELLS => Ok(cells),
        _ => Err(AllocError),
    }
}

// The status and the text for a job of so many workers, whose zone's trie has this size.
fn report_needs(
    alloc: Global,
    workers: usize,
    size: &TrieSize,
    needs: Needs,
) -> Result<(Status, Pieces), AllocError>
    requires { workers ≤ 16 }
    ensures { (job : WholeJob) → IsSizeOf size.now (trie_entries job.zone) → length job.workers ≡ workers → AreNeedsOf job.workers needs
        → IfOk result (IsAnswerDue (Sized job)) }
{
    let cells = all_cells(size.cells(), needs.cells)?;
    let Ok(operations) = u32::try_from(needs.operations) else {
        // No memory holds so many.
        return Err(AllocError);
    };
    let passes = 2 * workers as u32 + 1;
    let chunks = least(passes, cells, operations);
    let line = needs_line(alloc, chunks, cells, operations)?;
    Ok((Status::Done, line))
}

/// The status and the text for an input: what its job needs.
pub fn size_job(
    alloc: Global,
    invocation: &Invocation,
    input: Input,
) -> Result<(Status, Pieces), Stop>
    ensures told { IfOk result (IsAnswerDue (Sizes (job_of invocation.now.origin input))) }
    ensures stops { IfErr result (IsStop (Sizes (job_of invocation.now.origin input))) }
{
    let job = input.job(alloc, &invocation.origin)?;
    let zone = input.zone(alloc, &invocation.origin)?;
    drop(input);
    let needs = needs_of(&job)?;
    let size = zone_size(alloc, &zone)?;
    let answer = report_needs(alloc, job.workers.len(), &size, needs)?;
    Ok(answer)
}
