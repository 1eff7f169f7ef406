//! All workers of a job, each in a thread of its own where one can be started.
ghost use Rattle.std.specs.Prelude.{◌≡◌, ◌+◌, ◌*◌, ◌∷◌, IfOk, length};
ghost use Rattle.job_threads.specs.Prelude.{IsSync, Version, passes_for, job_view, worker_view};
ghost use Rattle.job_threads.specs.Prelude.{workers_view, known_at, Learnt, AreAll, OpenedWith, StandsAs, AreNew, Begins, Numbers};
ghost use Rattle.job_threads.specs.Prelude.{AllHeard, AreHeard, IsIndex, IsOpenedWith, IsRun, table_size, known_in, WorkerEndRan, AreGathered};
ghost use Rattle.job_threads.specs.Prelude.{IsBack, AreBack, CanStart, AreReady, CanBeRun};

use crate::worker::{WorkerEnd, run_worker};
use crew::Turnstile;
use dns_name::Name;
use job_commands::{Gate, ZoneLaw, close_index};
use job_report::Outcomes;
use job_script::{Job, Worker};
use qp_multi::{Index, Named, Pass};
use std::alloc::{AllocError, Global};
use std::sync::Wait;
use std::thread::{Threads, join};

/// What became of a job: the outcomes of each worker, the last version, and how many names and nodes that has.
#[derive(Drop)]
pub struct Finished {
    pub outcomes: Vec<Outcomes>,
    pub version: u64,
    pub names: u64,
    pub nodes: u64,
}

// What became of workers. All passes are back; main's has learnt what they have seen.
#[derive(Drop)]
struct Gathered<N: Named> {
    outcomes: Vec<Outcomes>,
    passes: Vec<Pass<N>>,
    main: Pass<N>,
}

// A worker is done beside others.
fn with_done<N: Named>(
    index: &Index<ZoneLaw, N>,
    done: WorkerEnd<N>,
    others: Gathered<N>,
) -> Result<Gathered<N>, AllocError>
    requires done { IsBack index.now.place done }
    requires others { AreBack index.now.place others }
    ensures back { IfOk result (AreBack index.now.place) }
    ensures gathers { IfOk result (λ g. (g.outcomes.items ≡ done.outcomes ∷ others.outcomes.items)
        × (known_in g.passes.items ≡ known_at done.asks.seat ∷ known_at done.spare.seat ∷ known_in others.passes.items)) }
    ensures learnt { IfOk result (λ g. Learnt (known_at others.main.seat) (known_at g.main.seat) (known_at done.asks.seat).seen) }
{
    let WorkerEnd {
        outcomes: list,
        mut asks,
        spare,
    } = done;
    let Gathered {
        mut outcomes,
        mut passes,
        mut main,
    } = others;
    let seen = asks.note(index);
    main.learn(index, seen);
    passes.insert(0, spare)?;
    passes.insert(0, asks)?;
    outcomes.insert(0, list)?;
    Ok(Gathered {
        outcomes,
        passes,
        main,
    })
}

// Runs the workers beside each other, from the one of a number on. Each has the next two of the passes, and main the last.
#[cycle(workers)]
fn run_workers<R: Threads + Wait + Sync, N: Named + Send + Sync, G: Gate>(
    rt: &R,
    alloc: Global,
    origin: &Name,
    index: &Index<ZoneLaw, N>,
    workers: &[Worker],
    number: u32,
    mut passes: Vec<Pass<N>>,
    gate: &G,
) -> Result<Gathered<N>, AllocError>
    requires can { CanStart origin.now index.now.place (2 * length workers.now + 1) (workers_view workers.now) passes.items }
    ensures back { IfOk result (AreBack index.now.place) }
    ensures ran { (s : OpenedWith) → IsIndex s origin.now (table_size index.now) → AreNew s.opening (known_in passes.items)
        → IfOk result (AreGathered s (known_in passes.items) (workers_view workers.now)) }
    ensures heard { IfOk result (λ _. AllHeard (G.hears gate.now) number (workers_view workers.now)) }
{
    let asks = passes.remove(0);
    let Some((worker, others)) = workers.split_first() else {
        return Ok(Gathered {
            outcomes: Vec::new(alloc),
            passes,
            main: asks,
        });
    };
    let spare = passes.remove(0);
    let next = number.saturating_add(1);
    let first = move || -> Result<WorkerEnd<N>, AllocError>
        requires ready { AreReady origin.now index.now.place asks spare }
        requires commands { CanBeRun origin.now (worker_view worker.now) }
        ensures back { IfOk result (IsBack index.entry.now.place) }
        ensures ran { (s : OpenedWith) (numbers : Numbers) → IsOpenedWith s origin.entry.now (table_size index.entry.now) (known_at asks.seat)
            → Begins s numbers (known_at asks.seat) (known_at spare.seat)
            → IfOk result (WorkerEndRan s numbers (worker_view worker.entry.now)) }
        ensures heard { IfOk result (λ _. AreHeard (G.hears gate.entry.now) number (length (worker_view worker.entry.now))) }
    {
        let mut turnstile = Turnstile::new(rt, gate, number, &worker.commands);
        run_worker(alloc, origin, index, &mut turnstile, asks, spare)
    };
    let rest = move || -> Result<Gathered<N>, AllocError>
        requires sync { IsSync R.row }
        requires can { CanStart origin.now index.now.place (2 * length others.now + 1) (workers_view others.now) passes.items }
        ensures back { IfOk result (AreBack index.entry.now.place) }
        ensures ran { (s : OpenedWith) → IsIndex s origin.entry.now (table_size index.entry.now) → AreNew s.opening (known_in passes.items)
            → IfOk result (AreGathered s (known_in passes.items) (workers_view others.entry.now)) }
        ensures heard { IfOk result (λ _. AllHeard (G.hears gate.entry.now) next (workers_view others.entry.now)) }
    { run_workers(rt, alloc, origin, index, others, next, passes, gate) };
    let (done, others) = join(rt, first, rest);
    with_done(index, done?, others?)
}

/// Runs a job's workers from version 0 on. The gate is told of each command.
pub fn run_job<R: Threads + Wait + Sync, N: Named + Send + Sync, G: Gate>(
    rt: &R,
    alloc: Global,
    origin: &Name,
    index: Index<ZoneLaw, N>,
    passes: Vec<Pass<N>>,
    job: &Job,
    gate: &G,
) -> Result<Finished, AllocError>
    requires can { CanStart origin.now index.place (passes_for (length job.now.workers.items)) (job_view job.now) passes.items }
    requires size { index.shared.table.shared.key.passes ≡ length passes.items }
    requires all { AreAll (length passes.items) (known_in passes.items) }
    ensures ran { (s : OpenedWith) (zone : Version) → IsIndex s origin.now (table_size index) → StandsAs s.opening zone
        → AreNew s.opening (known_in passes.items)
        → IfOk result (λ f. IsRun s.chunks s.passes origin.now zone (job_view job.now) f.outcomes.items f.version f.names f.nodes) }
    // Each worker is told by its own number, from 1.
    ensures heard { IfOk result (λ _. AllHeard (G.hears gate.now) 1 (job_view job.now)) }
{
    let Gathered {
        outcomes,
        passes,
        main,
    } = run_workers(rt, alloc, origin, &index, &job.workers, 1, passes, gate)?;
    let last = close_index(index, main, passes)?;
    Ok(Finished {
        outcomes,
        version: last.version,
        names: last.names,
        nodes: last.nodes,
    })
}
