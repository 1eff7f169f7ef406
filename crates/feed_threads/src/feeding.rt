//! One list of commands, of which each worker takes the next one when it comes free.
ghost use Rattle.std.specs.Prelude.{◌≡◌, ◌+◌, ◌<◌, ◌∷◌, ℕ, IsSome, IfOk, length, map, Some, None};
ghost use Rattle.feed_threads.specs.Prelude.{AllByRecursion, IsSync, Version, command_view};
ghost use Rattle.feed_threads.specs.Prelude.{known_at, Learnt, AreAll, OpenedWith, StandsAs, AreNew, IsNew, table_size, known_in};
ghost use Rattle.feed_threads.specs.Prelude.{IsHeard, IsIndex, IsOpenedWith, AreGathered, WorkerEndRan, FedHeard, IsFedRun};
ghost use Rattle.feed_threads.specs.Prelude.{AllFedHeard, AreBack, AreFed, CanFeed, CanServe, IsBack, IsReady, PassesAreBack};

use crate::ordering::{Served, in_order};
use crew::Turnstile;
use dns_name::Name;
use feed_core::{Feed, FeedSeat};
use job_commands::{Gate, WorkerScratch, ZoneLaw, close_index, run_alone};
use job_report::{FedOutcome, Outcomes};
use job_script::Command;
use qp_multi::{Index, Named, Pass};
use std::alloc::{AllocError, Global};
use std::sync::Wait;
use std::thread::{Threads, join};

/// What became of one list: an outcome of each command, in order, the last version, and how many names that has.
#[derive(Drop)]
pub struct FedFinished {
    pub outcomes: Vec<FedOutcome>,
    pub version: u64,
    pub names: u64,
}

// What a worker did. Its pass and its seat are back.
#[derive(Drop)]
struct FedWorkerEnd<N: Named> {
    served: Served,
    pass: Pass<N>,
    seat: FeedSeat,
}

// What workers did. All passes and seats are back; main's pass has learnt what they have seen.
#[derive(Drop)]
struct FedGathered<N: Named> {
    served: Vec<Served>,
    seats: Vec<FeedSeat>,
    passes: Vec<Pass<N>>,
    main: Pass<N>,
}

// Runs commands of a worker's turnstile until none is left, each between the gate's two calls. It goes through once for each.
fn serve<R: Wait, N: Named, G: Gate>(
    rt: &R,
    alloc: Global,
    origin: &Name,
    index: &Index<ZoneLaw, N>,
    feed: &Feed,
    turnstile: &mut Turnstile<'_, R, Command, G>,
    mut pass: Pass<N>,
    mut seat: FeedSeat,
) -> Result<FedWorkerEnd<N>, AllocError>
    requires fresh { (turnstile.old.entered ≡ None) × (turnstile.old.told ≡ 0)
        × AreFed origin.now feed.now (length turnstile.old.commands.now) (map command_view turnstile.old.commands.now) }
    requires ready { IsReady origin.now index.now.place feed.now pass seat }
    ensures back { IfOk result (IsBack index.now.place feed.now) }
    ensures ran { (s : OpenedWith) (number : ℕ) → IsOpenedWith s origin.now (table_size index.now) (known_at pass.seat)
        → IsNew number s.opening (known_at pass.seat)
        → IfOk result (WorkerEndRan s number (known_at pass.seat) (map command_view turnstile.old.commands.now)) }
    // It has left the turnstile, which has told of all that it took.
    ensures heard { IfOk result (λ d. AllByRecursion (IsHeard (G.hears turnstile.old.gate.now) turnstile.old.worker) d.served.numbers.items
        × (turnstile.new.entered ≡ None) × (turnstile.new.told ≡ length d.served.numbers.items)) }
{
    let mut room = WorkerScratch::new(alloc)?;
    let mut numbers = Vec::new(alloc);
    let mut list = Vec::new(alloc);
    while let Some(number) = seat.take(rt, feed) {
        let entered = turnstile.enter(number as usize - 1);
        let outcome = run_alone(alloc, origin, index, &mut pass, entered, &mut room)?;
        numbers.push(number)?;
        list.push(outcome)?;
        turnstile.leave(&list);
    }
    let outcomes = Outcomes { list };
    Ok(FedWorkerEnd {
        served: Served { numbers, outcomes },
        pass,
        seat,
    })
}

// A worker is done beside others.
fn with_served<N: Named>(
    index: &Index<ZoneLaw, N>,
    done: FedWorkerEnd<N>,
    others: FedGathered<N>,
) -> Result<FedGathered<N>, AllocError>
    requires done { (IsSome done.pass.seat) × (done.pass.place ≡ index.now.place) }
    requires others { PassesAreBack index.now.place others }
    ensures back { IfOk result (PassesAreBack index.now.place) }
    ensures gathers { IfOk result (λ g. (g.served.items ≡ done.served ∷ others.served.items) × (g.seats.items ≡ done.seat ∷ others.seats.items)
        × (known_in g.passes.items ≡ known_at done.pass.seat ∷ known_in others.passes.items)) }
    ensures learnt { IfOk result (λ g. Learnt (known_at others.main.seat) (known_at g.main.seat) (known_at done.pass.seat).seen) }
{
    let FedWorkerEnd {
        served: one,
        mut pass,
        seat,
    } = done;
    let FedGathered {
        mut served,
        mut seats,
        mut passes,
        mut main,
    } = others;
    let seen = pass.note(index);
    main.learn(index, seen);
    passes.insert(0, pass)?;
    seats.insert(0, seat)?;
    served.insert(0, one)?;
    Ok(FedGathered {
        served,
        seats,
        passes,
        main,
    })
}

// Runs the workers beside each other, from the one of a number on, one for each seat. Each has the next of the passes, and main the
// last. The first of them runs in the thread that calls.
#[cycle(serving)]
fn serve_all<R: Threads + Wait + Sync, N: Named + Send + Sync, G: Gate>(
    rt: &R,
    alloc: Global,
    origin: &Name,
    index: &Index<ZoneLaw, N>,
    commands: &[Command],
    feed: &Feed,
    worker: u32,
    mut passes: Vec<Pass<N>>,
    mut seats: Vec<FeedSeat>,
    gate: &G,
) -> Result<FedGathered<N>, AllocError>
    requires can { CanServe origin.now index.now.place feed.now (length commands.now) (map command_view commands.now) passes.items seats.items }
    ensures back { IfOk result (AreBack index.now.place feed.now (length seats.items)) }
    ensures ran { (s : OpenedWith) → IsIndex s origin.now (table_size index.now) → AreNew s.opening (known_in passes.items)
        → IfOk result (AreGathered s (known_in passes.items) (map command_view commands.now)) }
    ensures heard { IfOk result (λ g. FedHeard (G.hears gate.now) worker g.served.items) }
{
    let pass = passes.remove(0);
    let Some(seat) = seats.pop() else {
        return Ok(FedGathered {
            served: Vec::new(alloc),
            seats,
            passes,
            main: pass,
        });
    };
    let next = worker.saturating_add(1);
    let first = move || -> Result<FedWorkerEnd<N>, AllocError>
        requires ready { IsReady origin.now index.now.place feed.now pass seat }
        requires commands { AreFed origin.now feed.now (length commands.now) (map command_view commands.now) }
        ensures back { IfOk result (IsBack index.entry.now.place feed.entry.now) }
        ensures ran { (s : OpenedWith) (number : ℕ) → IsOpenedWith s origin.entry.now (table_size index.entry.now) (known_at pass.seat)
            → IsNew number s.opening (known_at pass.seat) → IfOk result (WorkerEndRan s number (known_at pass.seat) (map command_view commands.entry.now)) }
        ensures heard { IfOk result (λ d. AllByRecursion (IsHeard (G.hears gate.entry.now) worker) d.served.numbers.items) }
    {
        let mut turnstile = Turnstile::new(rt, gate, worker, commands);
        serve(rt, alloc, origin, index, feed, &mut turnstile, pass, seat)
    };
    let rest = move || -> Result<FedGathered<N>, AllocError>
        requires sync { IsSync R.row }
        requires can { CanServe origin.now index.now.place feed.now (length commands.now) (map command_view commands.now) passes.items seats.items }
        ensures back { IfOk result (AreBack index.entry.now.place feed.entry.now (length seats.items)) }
        ensures ran { (s : OpenedWith) → IsIndex s origin.entry.now (table_size index.entry.now) → AreNew s.opening (known_in passes.items)
            → IfOk result (AreGathered s (known_in passes.items) (map command_view commands.entry.now)) }
        ensures heard { IfOk result (λ g. FedHeard (G.hears gate.entry.now) next g.served.items) }
    {
        serve_all(
            rt, alloc, origin, index, commands, feed, next, passes, seats, gate,
        )
    };
    let (done, others) = join(rt, first, rest);
    with_served(index, done?, others?)
}

/// Runs one list of commands from version 0 on, by a worker for each pass but main's. The gate is told of each command.
pub fn run_feed<R: Threads + Wait + Sync, N: Named + Send + Sync, G: Gate>(
    rt: &R,
    alloc: Global,
    origin: &Name,
    index: Index<ZoneLaw, N>,
    passes: Vec<Pass<N>>,
    commands: &[Command],
    workers: u32,
    gate: &G,
) -> Result<FedFinished, AllocError>
    requires can { CanFeed origin.now index.place workers (length commands.now) (map command_view commands.now) passes.items }
    requires size { index.shared.table.shared.key.passes ≡ length passes.items }
    requires all { AreAll (length passes.items) (known_in passes.items) }
    ensures ran { (s : OpenedWith) (zone : Version) → IsIndex s origin.now (table_size index) → StandsAs s.opening zone
        → AreNew s.opening (known_in passes.items)
        → IfOk result (λ f. IsFedRun s.chunks workers origin.now zone (map command_view commands.now) f.outcomes.items f.version f.names) }
    // Each command is told by the number of the worker that ran it, and its own.
    ensures heard { IfOk result (λ f. AllFedHeard (G.hears gate.now) workers (length commands.now) f.outcomes.items) }
{
    let (feed, seats) = Feed::of(rt, alloc, commands.len() as u32, workers)?;
    let FedGathered {
        served,
        seats,
        passes,
        main,
    } = serve_all(
        rt, alloc, origin, &index, commands, &feed, 1, passes, seats, gate,
    )?;
    let end = feed.close(rt, seats);
    let last = close_index(index, main, passes)?;
    Ok(FedFinished {
        outcomes: in_order(alloc, end, served)?,
        version: last.version,
        names: last.names,
    })
}
