//! The loop of a session: what is due for all lines that were taken is written before more are asked for.
ghost use Rattle.std.specs.Prelude.{◌≡◌, ◌≤◌, ◌+◌, ◌^◌, Err, IsErrOf, OnErr, OnOk, length};
ghost use Rattle.session_talk.specs.Prelude.{Blames, Rose, printing, session_view};
ghost use Rattle.session_talk.specs.Between.{CanGoOn, MayGoOn};
ghost use Rattle.session_talk.specs.Serving.{LeftOpen};
ghost use Rattle.session_talk.specs.Steps.{AnswersDue, AnswersNext, CanAnswerLines, CanAnswerNext, CanFinish, EndsBehind, EndsThere};
ghost use Rattle.session_talk.specs.Steps.{GoesOn, GoesOnBehind, StaysAtWork, TakesLines, TakesNext};
ghost use Rattle.session_talk.specs.Talking.{CanTurn, HasTurned, ServesOn, TellsTurn};

use crate::answering::Answering;
use crate::worker::Worker;
use job_model::ScriptKind;
use outer_io::{Failed, Sink, Talk, write_all};
use session_lines::{Intake, LONGEST, NoMore, Replies, Session};
use std::alloc::AllocError;

/// Why a session ends before its lines do.
#[derive(Clone, Copy, Debug, PartialEq, Eq)]
pub enum Stop {
    /// A call on the talk failed.
    Fault,
    /// A call on the sink failed.
    Sink,
    /// A line has more bytes than a line may have.
    TooLong,
    /// No memory was left.
    Memory,
}

impl From<AllocError> for Stop {
    ghost use Rattle.session_talk.specs.declared.serving.Stop.TheVariants.{Memory};

    ghost from_gives = { λ _ e. e ≡ Memory };

    fn from(_: AllocError) -> Self {
        Stop::Memory
    }
}

impl From<Failed> for Stop {
    ghost use Rattle.session_talk.specs.declared.serving.Stop.TheVariants.{Sink};

    ghost from_gives = { λ _ e. e ≡ Sink };

    fn from(_: Failed) -> Self {
        Stop::Sink
    }
}

impl From<NoMore> for Stop {
    ghost use Rattle.session_talk.specs.Stops.{stop_of};

    ghost from_gives = { λ e stop. stop ≡ stop_of e };

    fn from(no_more: NoMore) -> Self {
        match no_more {
            NoMore::Fault => Stop::Fault,
            NoMore::TooLong => Stop::TooLong,
            NoMore::Memory => Stop::Memory,
        }
    }
}

// So many octets of replies are written, though more lines are there.
const LONG: usize = 65536;

// Writes what is to be written where that is much.
fn flush<W: Worker, K: Sink>(answering: &mut Answering<'_, W>, sink: &mut K) -> Result<(), Stop>
    requires { CanGoOn W.is_ready W.origin W.holds answering.old }
    ensures goes_on { OnOk result (GoesOn W.is_ready W.origin W.holds answering.old answering.new answering.old.lines) }
    ensures quiet { (IsErrOf result Stop.Sink → ⊥) → K.faults sink.new ≡ K.faults sink.old }
    ensures failed { OnErr result ((result ≡ Err Stop.Sink) × Rose (K.faults sink.old) (K.faults sink.new)) }
    ensures stays { StaysAtWork W.has_run result answering.old answering.new (K.held sink.old) (K.held sink.new) }
{
    if answering.replies.text.len() < LONG {
        return Ok(());
    }
    answering.put(sink)?;
    Ok(())
}

// Answers the next line, which has so many bytes, and lets go of it.
fn answer_next<W: Worker, K: Sink>(
    answering: &mut Answering<'_, W>,
    intake: &mut Intake,
    count: usize,
    sink: &mut K,
) -> Result<(), Stop>
    requires { CanAnswerNext W.is_ready W.origin W.holds answering.old intake.old count }
    ensures goes_on { OnOk result (GoesOn W.is_ready W.origin W.holds answering.old answering.new (answering.old.lines + 1)) }
    ensures takes { TakesNext result intake.old intake.new }
    ensures sink { Blames result Stop.Sink (K.faults sink.old) (K.faults sink.new) }
    ensures answers { AnswersNext W.has_run result answering.old answering.new (K.held sink.old) (K.held sink.new) intake.old intake.new }
{
    answering.answer(intake.front(count))?;
    intake.let_go(count);
    flush(answering, sink)
}

// A transaction that is open where no more lines come is refused.
fn push_left_open(session: &Session, replies: &mut Replies) -> Result<(), AllocError>
    ensures { OnOk result (LeftOpen (session_view session.now) (printing replies.old) (printing replies.new)) }
{
    match session.left_open() {
        Some(line) => replies.push_refused(line, ScriptKind::OpenBlock),
        None => Ok(()),
    }
}

// Writes what is due behind the last line.
fn end<W: Worker, K: Sink>(answering: Answering<'_, W>, sink: &mut K) -> Result<bool, Stop>
    requires { W.is_ready answering.worker }
    ensures sink { Blames result Stop.Sink (K.faults sink.old) (K.faults sink.new) }
    ensures others { (IsErrOf result Stop.Fault → ⊥) × (IsErrOf result Stop.TooLong → ⊥) }
    ensures ends { EndsThere W.has_run result answering.entry (K.held sink.old) (K.held sink.new) }
{
    let Answering {
        mut worker,
        session,
        mut replies,
        ..
    } = answering;
    push_left_open(&session, &mut replies)?;
    let last = worker.end();
    replies.push_last(last.version, last.names)?;
    write_all(sink, &replies.text)?;
    Ok(replies.refused)
}

/// Answers a last line, which needs no line feed, and ends: where no more lines come. Tells whether anything was refused.
pub fn finish<W: Worker, K: Sink>(
    answering: Answering<'_, W>,
    intake: &Intake,
    sink: &mut K,
) -> Result<bool, Stop>
    requires { CanFinish W.is_ready W.origin W.holds answering intake.now }
    ensures sink { Blames result Stop.Sink (K.faults sink.old) (K.faults sink.new) }
    ensures others { IsErrOf result Stop.Fault → ⊥ }
    ensures memory { IsErrOf result Stop.Memory → length intake.now.bytes ≤ 2 ^ 24 }
    ensures ends { EndsBehind W.has_run result answering.entry (K.held sink.old) (K.held sink.new) intake.now }
{
    let rest = intake.len();
    let mut answering = answering;
    if rest > LONGEST {
        answering.put(sink)?;
        return Err(Stop::TooLong);
    }
    if rest == 0 {
        return end(answering, sink);
    }
    answering.answer(intake.front(rest))?;
    end(answering, sink)
}

/// Answers the whole lines that were taken, and writes what is due.
pub fn answer_due<W: Worker, K: Sink>(
    answering: &mut Answering<'_, W>,
    intake: &mut Intake,
    sink: &mut K,
) -> Result<(), Stop>
    requires { CanAnswerLines W.is_ready W.origin W.holds answering.old intake.old }
    ensures goes_on { OnOk result (GoesOnBehind W.is_ready W.origin W.holds answering.old answering.new intake.old intake.new) }
    ensures takes { TakesLines result intake.old intake.new }
    ensures sink { Blames result Stop.Sink (K.faults sink.old) (K.faults sink.new) }
    ensures answers { AnswersDue W.has_run result answering.old answering.new (K.held sink.old) (K.held sink.new) intake.old intake.new }
{
    'lines: while let Some(count) = intake.next_line() {
        if count > LONGEST {
            answering.put(sink)?;
            return Err(Stop::TooLong);
        }
        answer_next(answering, intake, count, sink)?;
    }
    answering.put(sink)?;
    Ok(())
}

/// Answers the whole lines that were taken, writes what is due, and takes more where the end of input wasn't told. Tells whether there may be
/// more.
pub fn turn<W: Worker, K: Sink, T: Talk<K>>(
    answering: &mut Answering<'_, W>,
    intake: &mut Intake,
    talk: &mut T,
    sink: &mut K,
) -> Result<bool, Stop>
    requires { CanTurn W.is_ready W.origin W.holds W.has_run T.is_settled answering.old (T.given talk.old) (K.held sink.old) intake.old }
    ensures goes_on { OnOk result (HasTurned W.is_ready W.origin W.holds answering.old answering.new intake.old intake.new) }
    ensures may { OnOk result (MayGoOn W.has_run T.is_settled answering.new (T.given talk.new) (K.held sink.new) intake.new.bytes) }
    ensures told { TellsTurn T.given T.ended T.faults K.faults result intake.old intake.new talk.old talk.new sink.old sink.new }
    ensures serves { ServesOn W.has_run T.given K.held result answering.old answering.new talk.old talk.new sink.old sink.new intake.old intake.new }
{
    answer_due(answering, intake, sink)?;
    if intake.has_ended() {
        return Ok(false);
    }
    intake.take(talk, sink)?;
    Ok(true)
}
