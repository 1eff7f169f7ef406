//! A worker's two passes: one asks and writes, and the other is with the snapshot while one is held.
ghost use Rattle.std.specs.Prelude.{◌≡◌, IsSome, IfOk, None, true, false};
ghost use Rattle.job_threads.specs.Prelude.{Hold, AskHeld, Release, IsPartOf, known_at, first_version, OpenedWith};
ghost use Rattle.job_threads.specs.Prelude.{IsUnder, Step, ArePlaced, holder_of, holds_one, worker_passes_of, StandAt, AreAt, IsSecond};

use crate::holding::{ask_held, hold, release};
use dns_name::Name;
use job_commands::{WorkerScratch, ZoneLaw};
use job_model::Question;
use job_report::Outcome;
use qp_multi::{Index, Named, Pass, Snapshot};
use std::alloc::{AllocError, Global};

/// A worker's passes. The second is spare while no snapshot is held.
#[derive(Drop)]
pub struct Passes<'i, N: Named> {
    pub asks: Pass<N>,
    pub spare: Option<Pass<N>>,
    pub held: Option<Snapshot<'i, ZoneLaw, N>>,
}

/// Takes a snapshot of the current version.
pub fn take_snapshot<'i, N: Named>(
    index: &'i Index<ZoneLaw, N>,
    passes: &mut Passes<'i, N>,
) -> Outcome
    requires free { StandAt index.now.place false passes.old }
    ensures taken { StandAt index.now.place true passes.new }
    ensures grows { IsPartOf (known_at passes.new.asks.seat).seen (known_at passes.old.asks.seat).seen }
    ensures steps { (s : OpenedWith) → first_version (known_at passes.old.asks.seat).seen ≡ s.opening
        → IsUnder (known_at passes.old.asks.seat) (holder_of passes.old) → Step s Hold result (worker_passes_of passes.old) (worker_passes_of passes.new) }
{
    let Some(second) = passes.spare.take() else {
        // Nothing is held.
        unreachable!();
    };
    let (snapshot, outcome) = hold(index, &mut passes.asks, second);
    passes.held = Some(snapshot);
    outcome
}

/// Asks the snapshot.
pub fn ask_snapshot<N: Named>(
    alloc: Global,
    origin: &Name,
    passes: &mut Passes<'_, N>,
    question: &Question,
    room: &mut WorkerScratch,
) -> Result<Outcome, AllocError>
    requires here { IsSome passes.old.asks.seat }
    requires placed { ArePlaced passes.old }
    requires taken { holds_one passes.old ≡ true }
    ensures same { IfOk result (λ _. passes.new ≡ passes.old) }
    ensures steps { (s : OpenedWith) → s.origin ≡ origin.now → first_version (known_at passes.old.asks.seat).seen ≡ s.opening
        → IsUnder (known_at passes.old.asks.seat) (holder_of passes.old)
        → IfOk result (λ o. Step s (AskHeld question.now) o (worker_passes_of passes.old) (worker_passes_of passes.old)) }
{
    let Some(mut snapshot) = passes.held.take() else {
        // A script asks a snapshot only while one is held.
        unreachable!();
    };
    let outcome = ask_held(alloc, origin, &mut snapshot, question, room)?;
    passes.held = Some(snapshot);
    Ok(outcome)
}

/// Gives the snapshot back.
pub fn give_back<N: Named>(passes: &mut Passes<'_, N>) -> Outcome
    requires taken { StandAt passes.old.asks.place true passes.old }
    ensures same { passes.new.asks ≡ passes.old.asks }
    ensures free { StandAt passes.old.asks.place false passes.new }
    ensures steps { (s : OpenedWith) → first_version (known_at passes.old.asks.seat).seen ≡ s.opening
        → IsUnder (known_at passes.old.asks.seat) (holder_of passes.old) → Step s Release result (worker_passes_of passes.old) (worker_passes_of passes.new) }
{
    let Some(snapshot) = passes.held.take() else {
        // A script gives a snapshot back only while one is held.
        unreachable!();
    };
    let (second, outcome) = release(snapshot);
    passes.spare = Some(second);
    outcome
}

/// Takes the second pass, wherever it is. A snapshot that is held is given back.
pub fn take_second<N: Named>(passes: &mut Passes<'_, N>) -> Pass<N>
    requires { AreAt passes.old.asks.place passes.old }
    ensures same { passes.new.asks ≡ passes.old.asks }
    ensures free { (passes.new.spare ≡ None) × (passes.new.held ≡ None) }
    ensures second { IsSecond passes.old result }
{
    if let Some(snapshot) = passes.held.take() {
        let (second, _) = release(snapshot);
        return second;
    }
    let Some(second) = passes.spare.take() else {
        // The second pass is spare unless it is held.
        unreachable!();
    };
    second
}

/// Both passes. A snapshot that is still held is given back.
pub fn second_pass<N: Named>(passes: Passes<'_, N>) -> (Pass<N>, Pass<N>)
    requires { AreAt passes.asks.place passes }
    ensures same { result.0 ≡ passes.entry.asks }
    ensures second { IsSecond passes.entry result.1 }
{
    let mut passes = passes;
    let second = take_second(&mut passes);
    let Passes { asks, .. } = passes;
    (asks, second)
}
