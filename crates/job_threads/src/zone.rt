//! A job on the index of its zone.
ghost use Rattle.std.specs.Prelude.{◌≡◌, ◌≤◌, IfOk, length, Some, slice_get};
ghost use Rattle.job_threads.specs.Prelude.{Version, entries_of_items, passes_for, job_view};
ghost use Rattle.job_threads.specs.Prelude.{StandsAs, HeardOn, RanOn, CanRunOn};

use crate::job::{Finished, run_job};
use dns_name::Name;
use job_commands::{Gate, ZoneLaw};
use job_script::Job;
use qp_multi::{Blank, Index, Named, OpenRefusal};
use std::alloc::{AllocError, Global};
use std::marker::Brand;
use std::sync::Wait;
use std::thread::Threads;
use trie_write::Item;

/// What became of a job, if its zone fits into the chunks.
#[derive(Drop)]
pub enum Ran {
    Finished(Finished),
    /// Version 0 has so many cells, over the limit.
    DoesNotFit { cells: u64, limit: u64 },
}

// The same, on a table that is named.
fn run_named<R: Threads + Wait + Sync, N: Named + Send + Sync, G: Gate>(
    rt: &R,
    alloc: Global,
    blank: Blank<ZoneLaw>,
    origin: &Name,
    items: &[Item],
    job: &Job,
    gate: &G,
) -> Result<Ran, AllocError>
    requires named { slice_get N.tables 0 ≡ Some blank.shared.table.shared.table_id }
    requires can { CanRunOn origin.now (entries_of_items items.now) blank.shared.table.shared.key.passes (length job.now.workers.items) (job_view job.now) }
    ensures ran { (zone : Version) → StandsAs (entries_of_items items.now) zone
        → IfOk result (RanOn blank.shared.table.shared.key.chunks origin.now zone (job_view job.now)) }
    // Each worker is told by its own number, from 1.
    ensures heard { IfOk result (HeardOn (G.hears gate.now) (job_view job.now)) }
{
    match Index::<ZoneLaw, N>::open(alloc, blank, 0, items) {
        Ok((index, passes)) => {
            let finished = run_job(rt, alloc, origin, index, passes, job, gate)?;
            Ok(Ran::Finished(finished))
        }
        Err(OpenRefusal::Full { cells, limit }) => Ok(Ran::DoesNotFit { cells, limit }),
        Err(OpenRefusal::Memory) => Err(AllocError),
    }
}

/// The table of an index of so many chunks, for the passes of so many workers.
pub fn table_for(alloc: Global, chunks: u32, workers: usize) -> Result<Blank<ZoneLaw>, AllocError>
    requires enough { 16 ≤ chunks }
    requires few { chunks ≤ 4096 }
    requires few_workers { workers ≤ 16 }
    ensures chunks { IfOk result (λ blank. blank.shared.table.shared.key.chunks ≡ chunks) }
    ensures passes { IfOk result (λ blank. blank.shared.table.shared.key.passes ≡ passes_for workers) }
{
    Blank::new(alloc, chunks, 2 * workers as u32 + 1)
}

/// Opens an index on a zone of the origin that stands as these items, by a table for the job's workers, and runs these on it. What they
/// ask for is as scripts of octets say it.
pub fn run_zone<R: Threads + Wait + Sync, G: Gate>(
    rt: &R,
    alloc: Global,
    blank: Blank<ZoneLaw>,
    origin: &Name,
    items: &[Item],
    job: &Job,
    gate: &G,
) -> Result<Ran, AllocError>
    requires can { CanRunOn origin.now (entries_of_items items.now) blank.shared.table.shared.key.passes (length job.now.workers.items) (job_view job.now) }
    ensures ran { (zone : Version) → StandsAs (entries_of_items items.now) zone
        → IfOk result (RanOn blank.shared.table.shared.key.chunks origin.now zone (job_view job.now)) }
    // Each worker is told by its own number, from 1.
    ensures heard { IfOk result (HeardOn (G.hears gate.now) (job_view job.now)) }
{
    run_named::<R, Brand, G>(rt, alloc, blank, origin, items, job, gate)
}
