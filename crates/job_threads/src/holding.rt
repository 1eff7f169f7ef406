//! Snapshots of a worker. While it holds one its second pass is away.
ghost use Rattle.std.specs.Prelude.{◌≡◌, IsSome, IfOk};
ghost use Rattle.job_threads.specs.Prelude.{known_at, IsHeld, Held, AskedHeld, Released};

use dns_name::Name;
use job_commands::{WorkerScratch, ZoneLaw, reply_text};
use job_model::Question;
use job_report::{Outcome, Told};
use qp_multi::{Index, Named, Pass, Snapshot};
use std::alloc::{AllocError, Global};
use trie_read::Reading;

/// Takes a snapshot of the current version by the second pass, which is no older than what the first has seen. The first pass has
/// then seen it.
pub fn hold<'i, N: Named>(
    index: &'i Index<ZoneLaw, N>,
    pass: &mut Pass<N>,
    second: Pass<N>,
) -> (Snapshot<'i, ZoneLaw, N>, Outcome)
    requires here { (IsSome pass.old.seat) × (IsSome second.seat) }
    requires places { (pass.old.place ≡ index.now.place) × (second.place ≡ index.now.place) }
    ensures places { (IsSome pass.new.seat) × (pass.new.place ≡ pass.old.place) × (result.0.place ≡ index.now.place) }
    ensures held { IsHeld result.0.seat }
    ensures told { Held (known_at pass.old.seat) (known_at second.seat) (known_at pass.new.seat) result.0.seat result.1 }
{
    let mut second = second;
    let seen = pass.note(index);
    second.learn(index, seen);
    let mut snapshot = second.hold(index);
    let seen = snapshot.note(index);
    pass.learn(index, seen);
    let version = snapshot.version();
    let outcome = Outcome {
        version,
        told: Told::Held,
    };
    (snapshot, outcome)
}

/// Asks the snapshot.
pub fn ask_held<N: Named>(
    alloc: Global,
    origin: &Name,
    snapshot: &mut Snapshot<'_, ZoneLaw, N>,
    question: &Question,
    room: &mut WorkerScratch,
) -> Result<Outcome, AllocError>
    requires { IsHeld snapshot.old.seat }
    ensures same { snapshot.new ≡ snapshot.old }
    ensures asked { IfOk result (AskedHeld origin.now question.now snapshot.old.seat) }
{
    let version = snapshot.version();
    let text = reply_text(alloc, origin, snapshot, question, room)?;
    Ok(Outcome {
        version,
        told: Told::Reply(text),
    })
}

/// Gives the snapshot back.
pub fn release<N: Named>(snapshot: Snapshot<'_, ZoneLaw, N>) -> (Pass<N>, Outcome)
    requires { IsHeld snapshot.seat }
    ensures here { IsSome result.0.seat }
    ensures place { result.0.place ≡ snapshot.entry.place }
    ensures released { Released snapshot.entry.seat (known_at result.0.seat) result.1 }
{
    let mut snapshot = snapshot;
    let version = snapshot.version();
    let outcome = Outcome {
        version,
        told: Told::Released,
    };
    (snapshot.release(), outcome)
}
