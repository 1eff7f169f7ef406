//! The reads of a session.
ghost use Rattle.std.specs.Prelude.{IsErrOf, OnOk};
ghost use Rattle.session_talk.specs.Prelude.{BlamesEach, NextIsShort};
ghost use Rattle.session_talk.specs.Talking.{CanReadAll, HasRead, ServesOn};

use crate::answering::Answering;
use crate::serving::{Stop, turn};
use crate::worker::Worker;
use outer_io::{Sink, Talk};
use session_lines::Intake;

// The most reads. Each but the last gives something, so there are no more lines than a counter of 64 bits can count.
const READS: u64 = 70368744177664;

/// Takes and answers lines to the end of input, or to the 2^46th read. What is due for all lines that are whole is written before more is
/// asked for.
pub fn serve_lines<W: Worker, K: Sink, T: Talk<K>>(
    answering: &mut Answering<'_, W>,
    intake: &mut Intake,
    talk: &mut T,
    sink: &mut K,
) -> Result<(), Stop>
    requires { CanReadAll W.is_ready W.origin W.holds W.has_run T.is_settled answering.old (T.given talk.old) (T.ended talk.old) (K.held sink.old) intake.old }
    ensures goes_on { OnOk result (HasRead W.is_ready W.origin W.holds answering.old answering.new intake.new (T.given talk.new) (T.ended talk.new)) }
    ensures faults { BlamesEach result Stop.Sink Stop.Fault (K.faults sink.old) (K.faults sink.new) (T.faults talk.old) (T.faults talk.new) }
    ensures memory { IsErrOf result Stop.Memory → NextIsShort intake.new.bytes }
    ensures serves { ServesOn W.has_run T.given K.held result answering.old answering.new talk.old talk.new sink.old sink.new intake.old intake.new }
{
    'reads: for _ in 0..READS {
        let goes_on = turn(answering, intake, talk, sink)?;
        if !goes_on {
            return Ok(());
        }
    }
    Ok(())
}
