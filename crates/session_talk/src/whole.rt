//! A session from its first line to its last.
ghost use Rattle.std.specs.Prelude.{◌≡◌, ◌⊎◌, IsErrOf};
ghost use Rattle.session_talk.specs.Prelude.{Blames, BlamesEach, NextIsShort};
ghost use Rattle.session_talk.specs.Steps.{CanAnswerLines, EndsBehind};
ghost use Rattle.session_talk.specs.Talking.{CanReadOn, CanServe, ReadsToEnd, Serves, ServesToEnd};

use crate::answering::{Answering, begin};
use crate::reads::serve_lines;
use crate::serving::{Stop, answer_due, finish};
use crate::worker::Worker;
use dns_name::Name;
use outer_io::{Sink, Talk};
use session_lines::Intake;
use std::alloc::Global;

// Answers the lines that were taken, where no more come, and ends.
fn end_session<W: Worker, K: Sink>(
    answering: Answering<'_, W>,
    intake: &mut Intake,
    sink: &mut K,
) -> Result<bool, Stop>
    requires { CanAnswerLines W.is_ready W.origin W.holds answering intake.old }
    ensures sink { Blames result Stop.Sink (K.faults sink.old) (K.faults sink.new) }
    ensures others { IsErrOf result Stop.Fault → ⊥ }
    ensures memory { IsErrOf result Stop.Memory → NextIsShort intake.new.bytes }
    ensures ends { EndsBehind W.has_run result answering.entry (K.held sink.old) (K.held sink.new) intake.old }
{
    let mut answering = answering;
    answer_due(&mut answering, intake, sink)?;
    finish(answering, intake, sink)
}

// Answers all lines, to the end of input or to the 2^46th read, and ends.
fn serve_begun<W: Worker, K: Sink, T: Talk<K>>(
    answering: Answering<'_, W>,
    intake: &mut Intake,
    talk: &mut T,
    sink: &mut K,
) -> Result<bool, Stop>
    requires { CanReadOn W.is_ready W.origin W.holds W.has_run T.is_settled answering (T.given talk.old) (K.held sink.old) intake.old }
    ensures faults { BlamesEach result Stop.Sink Stop.Fault (K.faults sink.old) (K.faults sink.new) (T.faults talk.old) (T.faults talk.new) }
    ensures memory { IsErrOf result Stop.Memory → NextIsShort intake.new.bytes }
    ensures reads { ReadsToEnd result Stop.Fault intake.old.ended talk.old talk.new (T.given talk.new) (T.ended talk.new) }
    ensures serves { ServesToEnd W.has_run T.given K.held result answering.entry talk.old talk.new sink.old sink.new intake.old }
{
    if intake.has_ended() {
        return end_session(answering, intake, sink);
    }
    let mut answering = answering;
    serve_lines(&mut answering, intake, talk, sink)?;
    end_session(answering, intake, sink)
}

/// Serves a session over a worker who has run nothing yet: says that the zone stands, answers all lines, to the end of input or to the 2^46th
/// read, and ends. What is due for all lines that are whole is written before more is asked for. The first line has a number, and version 0 so
/// many names. Tells whether anything was refused.
pub fn serve<W: Worker, K: Sink, T: Talk<K>>(
    alloc: Global,
    origin: &Name,
    worker: W,
    first: u64,
    names: u64,
    intake: &mut Intake,
    talk: &mut T,
    sink: &mut K,
) -> Result<bool, Stop>
    requires { CanServe W.is_ready W.origin W.holds W.has_run T.is_settled worker origin.now first names (T.given talk.old) (K.held sink.old) intake.old }
    ensures faults { BlamesEach result Stop.Sink Stop.Fault (K.faults sink.old) (K.faults sink.new) (T.faults talk.old) (T.faults talk.new) }
    ensures memory { IsErrOf result Stop.Memory → NextIsShort intake.new.bytes ⊎ (K.held sink.new ≡ K.held sink.old) }
    ensures reads { ReadsToEnd result Stop.Fault intake.old.ended talk.old talk.new (T.given talk.new) (T.ended talk.new) }
    ensures serves { Serves W.has_run T.given K.held result worker origin.now first names talk.old talk.new sink.old sink.new intake.old }
{
    let mut answering = begin(alloc, origin, worker, first, names)?;
    answering.put(sink)?;
    serve_begun(answering, intake, talk, sink)
}
