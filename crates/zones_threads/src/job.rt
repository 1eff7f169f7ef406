//! All workers, each in a thread of its own where one can be started.
ghost use Rattle.std.specs.Prelude.{◌≡◌, ◌<◌, ℕ, List, All, IfOk, Some, length, slice_get};
ghost use Rattle.zones_threads.specs.Prelude.{Zone, origins_of, IsSync, Learnt, AreHeard, IsPassOf};
ghost use Rattle.zones_threads.specs.Prelude.{table_known, zone_known, AllHeard, table_views, zone_views, AreGathered};
ghost use Rattle.zones_threads.specs.Prelude.{HasWorked, MayRun, MayWork, last_of, IsZonesRun, TableBegins, ZoneBegins};
ghost use Rattle.zones_threads.specs.Prelude.{IsSite, Site, worker_view, workers_view, AreApart, CanStart, StandsInFront};

use crate::ending::close_zones;
use crate::worker::{Ended, run_worker};
use crew::Turnstile;
use job_commands::{Gate, ZoneLaw};
use qp_multi::Named;
use std::alloc::{AllocError, Global};
use std::sync::Wait;
use std::thread::{Threads, join};
use zone_table::{Zones, ZonesPass};
use zones_report::{CommandEnds, ZonesFinished};
use zones_script::Worker;

// What became of workers. All passes are back; main's has learnt what they have seen.
#[derive(Drop)]
struct Gathered<N: Named> {
    done: Vec<CommandEnds>,
    passes: Vec<ZonesPass<N>>,
    main: ZonesPass<N>,
}

// A worker is done beside others.
fn with_ended<N: Named>(
    alloc: Global,
    zones: &Zones<ZoneLaw, N>,
    ended: Ended<N>,
    others: Gathered<N>,
) -> Result<Gathered<N>, AllocError>
    requires passes { (IsPassOf zones.now.origins.items ended.pass) × (IsPassOf zones.now.origins.items others.main)
        × (All (IsPassOf zones.now.origins.items) others.passes.items) }
    ensures passes { IfOk result (λ g. (IsPassOf zones.now.origins.items g.main) × (All (IsPassOf zones.now.origins.items) g.passes.items)) }
    ensures gathers { IfOk result (StandsInFront ended others) }
    ensures learnt { IfOk result (λ g. Learnt (table_known others.main) (table_known g.main) (table_known ended.pass).seen) }
    ensures zone_learnt { (zone : ℕ) → zone < length zones.now.origins.items
        → IfOk result (λ g. Learnt (zone_known others.main zone) (zone_known g.main zone) (zone_known ended.pass zone).seen) }
{
    let Ended {
        done: list,
        mut pass,
    } = ended;
    let Gathered {
        mut done,
        mut passes,
        mut main,
    } = others;
    let seen = pass.note(alloc, zones)?;
    main.learn(zones, seen);
    passes.insert(0, pass)?;
    done.insert(0, list)?;
    Ok(Gathered { done, passes, main })
}

// Runs the workers beside each other, from the one of a number on. Each has the next of the passes, and main the last.
#[cycle(workers)]
fn run_workers<R: Threads + Wait + Sync, N: Named + Send + Sync, G: Gate>(
    rt: &R,
    alloc: Global,
    zones: &Zones<ZoneLaw, N>,
    workers: &[Worker],
    number: u32,
    mut passes: Vec<ZonesPass<N>>,
    gate: &G,
) -> Result<Gathered<N>, AllocError>
    requires { MayRun zones.now passes.items (workers_view workers.now) }
    ensures gathered { IfOk result (λ g. AreGathered zones.now passes.items (workers_view workers.now) g.done.items g.passes.items g.main) }
    ensures heard { IfOk result (λ _. AllHeard (G.hears gate.now) number (workers_view workers.now)) }
{
    let pass = passes.remove(0);
    let Some((worker, others)) = workers.split_first() else {
        return Ok(Gathered {
            done: Vec::new(alloc),
            passes,
            main: pass,
        });
    };
    let next = number.saturating_add(1);
    let first = move || -> Result<Ended<N>, AllocError>
        requires { MayWork zones.now pass (worker_view worker.now) }
        ensures done { IfOk result (λ e. HasWorked zones.entry.now pass e.pass (worker_view worker.entry.now) e.done.list.items) }
        ensures heard { IfOk result (λ _. AreHeard (G.hears gate.entry.now) number (length (worker_view worker.entry.now))) }
    {
        let mut turnstile = Turnstile::new(rt, gate, number, &worker.commands);
        run_worker(alloc, zones, &mut turnstile, pass)
    };
    let rest = move || -> Result<Gathered<N>, AllocError>
        requires sync { IsSync R.row }
        requires run { MayRun zones.now passes.items (workers_view others.now) }
        ensures gathered { IfOk result (λ g. AreGathered zones.entry.now passes.items (workers_view others.entry.now) g.done.items g.passes.items g.main) }
        ensures heard { IfOk result (λ _. AllHeard (G.hears gate.entry.now) next (workers_view others.entry.now)) }
    { run_workers(rt, alloc, zones, others, next, passes, gate) };
    let (ended, others) = join(rt, first, rest);
    with_ended(alloc, zones, ended?, others?)
}

/// Runs workers on zones that were opened, from their versions 0 on. What they ask for is as scripts of octets say it. The gate is told of each
/// command.
pub fn run_zones<R: Threads + Wait + Sync, N: Named + Send + Sync, G: Gate>(
    rt: &R,
    alloc: Global,
    zones: Zones<ZoneLaw, N>,
    passes: Vec<ZonesPass<N>>,
    workers: &[Worker],
    gate: &G,
) -> Result<ZonesFinished, AllocError>
    requires can { CanStart zones passes.items (length workers.now) (workers_view workers.now) }
    ensures ran { (chunks : ℕ) (list : List Zone) → origins_of list ≡ zones.origins.items → AreApart zones.origins.items
        → TableBegins zones.origins.items (length passes.items) (table_views passes.items)
        → ((site : Site) (zone : Zone) → IsSite zones site → slice_get list site.number ≡ Some zone
        → ZoneBegins chunks (length passes.items) site zone (zone_views site.number passes.items))
        → IfOk result (λ f. IsZonesRun chunks list (workers_view workers.now) f.done.items (last_of f) f.attached f.names.items) }
    // Each worker is told by its own number, from 1.
    ensures heard { IfOk result (λ _. AllHeard (G.hears gate.now) 1 (workers_view workers.now)) }
{
    let Gathered { done, passes, main } = run_workers(rt, alloc, &zones, workers, 1, passes, gate)?;
    let last = close_zones(alloc, zones, main, passes)?;
    Ok(ZonesFinished {
        done,
        table: last.table,
        attached: last.attached,
        versions: last.versions,
        names: last.names,
    })
}
