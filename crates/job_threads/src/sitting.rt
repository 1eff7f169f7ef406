//! One worker alone at an index that has its two passes and no others. What its commands have come to is known at any moment, while
//! the index is open, and while a snapshot is held.
ghost use Rattle.std.specs.Prelude.{◌≡◌, ◌≤◌, ◌++◌, ◌∷◌, [], IfOk, IfErr, length, Some, slice_get, false};
ghost use Rattle.job_threads.specs.Prelude.{Version, MayCome, held_after, passes_fed, command_view, AllAsked, known_at, known_in};
ghost use Rattle.job_threads.specs.Prelude.{entries_of_items, Refuses, OpenedWith, IsIndex, IsZone, StandsAs, AreVersions, AreNew};
ghost use Rattle.job_threads.specs.Prelude.{Sits, ComesTo, EndsAt, versions_by, table_size, AreAt, holder_of, holds_one, worker_passes_of};
ghost use Rattle.job_threads.specs.Prelude.{OpensForOne, AreOfOne, CanRun, StandAt, AccountsBeside};

use crate::passes::{Passes, take_second};
use crate::worker::run_command;
use dns_name::Name;
use job_commands::{Entered, Last, WorkerScratch, ZoneLaw, measure};
use job_report::Outcome;
use job_script::Command;
use qp_multi::{Blank, Index, Named, Note, OpenRefusal, Pass};
use std::alloc::{AllocError, Global};
use std::sync::Wait;
use trie_write::Item;

/// The table of an index of so many chunks, for a worker that is alone.
pub fn table_for_one(alloc: Global, chunks: u32) -> Result<Blank<ZoneLaw>, AllocError>
    requires enough { 16 ≤ chunks }
    requires few { chunks ≤ 4096 }
    ensures chunks { IfOk result (λ blank. blank.shared.table.shared.key.chunks ≡ chunks) }
    ensures passes { IfOk result (λ blank. blank.shared.table.shared.key.passes ≡ passes_fed 1) }
{
    Blank::new(alloc, chunks, 2)
}

/// Opens an index on a zone of the origin that stands as these items, by a table that is named.
pub fn open_for_one<N: Named>(
    alloc: Global,
    blank: Blank<ZoneLaw>,
    _origin: &Name,
    items: &[Item],
) -> Result<(Index<ZoneLaw, N>, Vec<Pass<N>>), OpenRefusal>
    requires named { slice_get N.tables 0 ≡ Some blank.shared.table.shared.table_id }
    requires passes { blank.shared.table.shared.key.passes ≡ passes_fed 1 }
    requires zone { IsZone _origin.now (entries_of_items items.now) }
    ensures opens { IfOk result (λ made. OpensForOne _origin.now blank.shared.table.shared.key (table_size made.0) (entries_of_items items.now)
        made.0.place made.1.items) }
    ensures full { IfErr result (λ refusal. Refuses blank.shared.table.shared.key.chunks (entries_of_items items.now) refusal) }
{
    Index::<ZoneLaw, N>::open(alloc, blank, 0, items)
}

/// The worker with both passes. It has run no command yet.
pub fn seat_worker<'i, N: Named>(
    index: &'i Index<ZoneLaw, N>,
    origin: &Name,
    passes: Vec<Pass<N>>,
) -> Passes<'i, N>
    requires passes { AreOfOne origin.now index.now.place passes.items }
    ensures can { CanRun origin.now index.now.place false result }
    ensures sits { (s : OpenedWith) → s.passes ≡ 2 → AreNew s.opening (known_in passes.items) → Sits s (worker_passes_of result) [] [] }
{
    let mut passes = passes;
    let (Some(asks), Some(spare)) = (passes.pop(), passes.pop()) else {
        // There are two.
        unreachable!();
    };
    Passes {
        asks,
        spare: Some(spare),
        held: None,
    }
}

/// Runs the worker's next command.
pub fn run_next<'i, R: Wait, N: Named>(
    rt: &R,
    alloc: Global,
    origin: &Name,
    index: &'i Index<ZoneLaw, N>,
    passes: &mut Passes<'i, N>,
    command: &Command,
    room: &mut WorkerScratch,
) -> Result<Outcome, AllocError>
    requires can { CanRun origin.now index.now.place (holds_one passes.old) passes.old }
    requires may { MayCome (holds_one passes.old) (command_view command.now) }
    requires said { AllAsked origin.now (command_view command.now) }
    ensures can { IfOk result (λ _. CanRun origin.now index.now.place (held_after (holds_one passes.old) (command_view command.now)) passes.new) }
    ensures sits { (s : OpenedWith) (commands : _) (os : _) → IsIndex s origin.now (table_size index.now) → Sits s (worker_passes_of passes.old) commands os
        → IfOk result (λ o. Sits s (worker_passes_of passes.new) (commands ++ command_view command.now ∷ []) (os ++ o ∷ [])) }
{
    let entered = Entered::new(rt, command);
    run_command(alloc, origin, index, passes, entered, room)
}

// Accounts for the second pass, wherever it is, at a moment behind the note's.
fn account_second<N: Named>(index: &Index<ZoneLaw, N>, passes: &mut Passes<'_, N>, seen: Note<N>)
    requires at { AreAt index.now.place passes.old }
    requires note { seen.place ≡ index.now.place }
    ensures stands { StandAt index.now.place (holds_one passes.old) passes.new }
    ensures same { passes.new.asks ≡ passes.old.asks }
    ensures accounted { AccountsBeside (table_size index.now).passes (holder_of passes.old) (holder_of passes.new) seen.told.place.me.0 }
{
    if let Some(mut snapshot) = passes.held.take() {
        snapshot.account(index, seen);
        passes.held = Some(snapshot);
        return;
    }
    let Some(mut second) = passes.spare.take() else {
        // The second pass is spare unless it is held.
        unreachable!();
    };
    second.account_beside(index, seen);
    passes.spare = Some(second);
}

/// Accounts for both passes, which shows that what the worker's commands have come to is all that has become of the index: each version up
/// to the last that it has seen was made by one of them, and they tell what is so of these. It takes no memory and waits for nobody.
pub fn tell_all<N: Named>(index: &Index<ZoneLaw, N>, passes: &mut Passes<'_, N>)
    requires at { AreAt index.now.place passes.old }
    ensures stands { StandAt index.now.place (holds_one passes.old) passes.new }
    ensures same { known_at passes.new.asks.seat ≡ known_at passes.old.asks.seat }
    ensures sits { (s : OpenedWith) (commands : _) (os : _) → Sits s (worker_passes_of passes.old) commands os
        → Sits s (worker_passes_of passes.new) commands os }
    ensures told { (s : OpenedWith) (zone : Version) (commands : _) (os : _) → IsIndex s s.origin (table_size index.now) → StandsAs s.opening zone
        → Sits s (worker_passes_of passes.old) commands os
        → ComesTo s zone commands os (length (known_at passes.new.asks.seat).seen.history)
        × AreVersions s (known_at passes.new.asks.seat).seen.history (versions_by s zone commands os) }
{
    passes.asks.account(index);
    let seen = passes.asks.note(index);
    account_second(index, passes, seen);
}

/// Measures the last version, and accounts for both passes. A snapshot that is held is given back.
pub fn measure_last<N: Named>(index: &Index<ZoneLaw, N>, passes: &mut Passes<'_, N>) -> Last
    requires { AreAt index.now.place passes.old }
    ensures free { holds_one passes.new ≡ false }
    ensures ends { (s : OpenedWith) (zone : Version) (commands : _) (os : _) → IsIndex s s.origin (table_size index.now) → StandsAs s.opening zone
        → Sits s (worker_passes_of passes.old) commands os → EndsAt s zone commands os result }
{
    let mut spare = take_second(passes);
    let last = measure(index, &mut passes.asks);
    passes.asks.account(index);
    let seen = passes.asks.note(index);
    spare.account_beside(index, seen);
    passes.spare = Some(spare);
    last
}
