//! One list of commands on the index of its zone.
ghost use Rattle.std.specs.Prelude.{◌≡◌, ◌≤◌, IfOk, length, map, Some, slice_get};
ghost use Rattle.feed_threads.specs.Prelude.{Version, passes_fed, command_view};
ghost use Rattle.feed_threads.specs.Prelude.{entries_of_items, StandsAs, FedHeardOn, FedRanOn, CanFeedOn};

use crate::feeding::{FedFinished, run_feed};
use dns_name::Name;
use job_commands::{Gate, ZoneLaw};
use job_script::Command;
use qp_multi::{Blank, Index, Named, OpenRefusal};
use std::alloc::{AllocError, Global};
use std::marker::Brand;
use std::sync::Wait;
use std::thread::Threads;
use trie_write::Item;

/// What became of one list of commands, if its zone fits into the chunks.
#[derive(Drop)]
pub enum FedRan {
    Finished(FedFinished),
    /// Version 0 has so many cells, over the limit.
    DoesNotFit { cells: u64, limit: u64 },
}

// The same, on a table that is named.
fn run_list_named<R: Threads + Wait + Sync, N: Named + Send + Sync, G: Gate>(
    rt: &R,
    alloc: Global,
    blank: Blank<ZoneLaw>,
    origin: &Name,
    items: &[Item],
    commands: &[Command],
    workers: u32,
    gate: &G,
) -> Result<FedRan, AllocError>
    requires named { slice_get N.tables 0 ≡ Some blank.shared.table.shared.table_id }
    requires can { CanFeedOn origin.now (entries_of_items items.now) blank.shared.table.shared.key.passes workers (length commands.now)
        (map command_view commands.now) }
    ensures ran { (zone : Version) → StandsAs (entries_of_items items.now) zone
        → IfOk result (FedRanOn blank.shared.table.shared.key.chunks workers origin.now zone (map command_view commands.now)) }
    // Each command is told by the number of the worker that ran it, and its own.
    ensures heard { IfOk result (FedHeardOn (G.hears gate.now) workers (length commands.now)) }
{
    match Index::<ZoneLaw, N>::open(alloc, blank, 0, items) {
        Ok((index, passes)) => {
            let finished = run_feed(rt, alloc, origin, index, passes, commands, workers, gate)?;
            Ok(FedRan::Finished(finished))
        }
        Err(OpenRefusal::Full { cells, limit }) => Ok(FedRan::DoesNotFit { cells, limit }),
        Err(OpenRefusal::Memory) => Err(AllocError),
    }
}

/// The table of an index of so many chunks, for so many workers that run one list.
pub fn table_for_list(
    alloc: Global,
    chunks: u32,
    workers: u32,
) -> Result<Blank<ZoneLaw>, AllocError>
    requires enough { 16 ≤ chunks }
    requires few { chunks ≤ 4096 }
    requires few_workers { workers ≤ 16 }
    ensures chunks { IfOk result (λ blank. blank.shared.table.shared.key.chunks ≡ chunks) }
    ensures passes { IfOk result (λ blank. blank.shared.table.shared.key.passes ≡ passes_fed workers) }
{
    Blank::new(alloc, chunks, workers + 1)
}

/// Opens an index on a zone of the origin that stands as these items, by a table for so many workers, and hands the commands out to
/// these. What they ask for is as scripts of octets say it.
pub fn run_list<R: Threads + Wait + Sync, G: Gate>(
    rt: &R,
    alloc: Global,
    blank: Blank<ZoneLaw>,
    origin: &Name,
    items: &[Item],
    commands: &[Command],
    workers: u32,
    gate: &G,
) -> Result<FedRan, AllocError>
    requires can { CanFeedOn origin.now (entries_of_items items.now) blank.shared.table.shared.key.passes workers (length commands.now)
        (map command_view commands.now) }
    ensures ran { (zone : Version) → StandsAs (entries_of_items items.now) zone
        → IfOk result (FedRanOn blank.shared.table.shared.key.chunks workers origin.now zone (map command_view commands.now)) }
    // Each command is told by the number of the worker that ran it, and its own.
    ensures heard { IfOk result (FedHeardOn (G.hears gate.now) workers (length commands.now)) }
{
    run_list_named::<R, Brand, G>(rt, alloc, blank, origin, items, commands, workers, gate)
}
