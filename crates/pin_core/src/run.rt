//! Whole runs of the machine.
ghost use Rattle.std.specs.Prelude.{◌≡◌, IfOk};
ghost use Rattle.pin_core.specs.Prelude.{size_of, started, IsWithinLimits, answers, EveryRunHolds};

use crate::event::{Event, Step};
use crate::state::State;
use std::alloc::{AllocError, Global};

/// What the events answer, one after another, from the state in which version 0 is empty.
///
/// The last clause is of every run, from each opening and whatever the events are.
pub fn drive(
    alloc: Global,
    passes: u32,
    chunks: u32,
    events: &[Event],
) -> Result<Vec<Step>, AllocError>
    requires { IsWithinLimits (size_of passes chunks) }
    ensures answers { IfOk result (λ steps. steps.items ≡ answers (started (size_of passes chunks)) events.now) }
    ensures every_run { EveryRunHolds }
{
    let mut state = State::start(alloc, passes, chunks)?;
    state.play(alloc, events)
}
