//! Zones that are opened and run.
ghost use Rattle.std.specs.Prelude.{◌≡◌, ◌+◌, ℕ, List, All, IfOk, Some, length, slice_get};
ghost use Rattle.zones_threads.specs.Prelude.{CanRunZones, HeardOn, StandFor, Zone, ZonesRanOn, places_of, sizes_of, workers_view};

use crate::job::run_zones;
use job_commands::{Gate, ZoneLaw};
use qp_multi::{Blank, Named};
use std::alloc::{AllocError, Global};
use std::marker::Brand;
use std::sync::Wait;
use std::thread::Threads;
use zone_table::{TableLaw, ZoneItems, Zones, ZonesRefusal};
use zones_report::ZonesFinished;
use zones_script::Worker;

/// What became of zones, if each fits into its chunks.
#[derive(Drop)]
pub enum ZonesRan {
    Finished(ZonesFinished),
    /// Version 0 of the zone of this number has so many cells, over the limit. Of several such zones it is the one whose origin comes first in
    /// canonical order.
    DoesNotFit { zone: u32, cells: u64, limit: u64 },
}

// The same, on tables that are named.
fn run_named<R: Threads + Wait + Sync, N: Named + Send + Sync, G: Gate>(
    rt: &R,
    alloc: Global,
    table: Blank<TableLaw>,
    blanks: Vec<Blank<ZoneLaw>>,
    zones: &[ZoneItems],
    workers: &[Worker],
    gate: &G,
) -> Result<ZonesRan, AllocError>
    requires table_named { slice_get N.tables 0 ≡ Some table.shared.table.shared.table_id }
    requires named { (k : ℕ) (b : _) → slice_get blanks.items k ≡ Some b → slice_get N.tables (k + 1) ≡ Some b.shared.table.shared.table_id }
    requires can { CanRunZones table.shared.table.shared.key (sizes_of blanks.items) zones.now (length workers.now) (workers_view workers.now) }
    ensures ran { (chunks : ℕ) (list : List Zone) → All (λ s. s.chunks ≡ chunks) (sizes_of blanks.items) → StandFor zones.now list
        → IfOk result (ZonesRanOn (places_of zones.now (sizes_of blanks.items)) chunks list (workers_view workers.now)) }
    // Each worker is told by its own number, from 1.
    ensures heard { IfOk result (HeardOn (G.hears gate.now) (workers_view workers.now)) }
{
    match Zones::<ZoneLaw, N>::open(alloc, table, blanks, zones) {
        Ok((opened, passes)) => {
            let finished = run_zones(rt, alloc, opened, passes, workers, gate)?;
            Ok(ZonesRan::Finished(finished))
        }
        Err(ZonesRefusal::Full { zone, cells, limit }) => Ok(ZonesRan::DoesNotFit {
            zone,
            cells,
            limit,
        }),
        Err(ZonesRefusal::Memory) => Err(AllocError),
    }
}

/// Opens indexes on zones that stand as these items, each by a table of its own, and the table of their origins by one more, and runs workers on
/// them.
pub fn run_zone_items<R: Threads + Wait + Sync, G: Gate>(
    rt: &R,
    alloc: Global,
    table: Blank<TableLaw>,
    blanks: Vec<Blank<ZoneLaw>>,
    zones: &[ZoneItems],
    workers: &[Worker],
    gate: &G,
) -> Result<ZonesRan, AllocError>
    requires can { CanRunZones table.shared.table.shared.key (sizes_of blanks.items) zones.now (length workers.now) (workers_view workers.now) }
    ensures ran { (chunks : ℕ) (list : List Zone) → All (λ s. s.chunks ≡ chunks) (sizes_of blanks.items) → StandFor zones.now list
        → IfOk result (ZonesRanOn (places_of zones.now (sizes_of blanks.items)) chunks list (workers_view workers.now)) }
    // Each worker is told by its own number, from 1.
    ensures heard { IfOk result (HeardOn (G.hears gate.now) (workers_view workers.now)) }
{
    run_named::<R, Brand, G>(rt, alloc, table, blanks, zones, workers, gate)
}
