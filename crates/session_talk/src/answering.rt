//! What was answered so far, and what one line more comes to.
ghost use Rattle.std.specs.Prelude.{◌≡◌, ◌+◌, ◌++◌, [], ℕ, List, IfOk, OnOk, length};
ghost use Rattle.session_talk.specs.Prelude.{said_view};
ghost use Rattle.session_talk.specs.Answering.{IsFed};
ghost use Rattle.session_talk.specs.Between.{CanGoOn, HasAnswered};
ghost use Rattle.session_talk.specs.Replying.{AnswersSaid, CanBegin, CanReply, GoesOnReplying};
ghost use Rattle.session_talk.specs.Steps.{CanAnswer, GoesOn, HasPut, PutsAnswers, Writes};
ghost use Rattle.session_talk.specs.Workers.{Opened};

use crate::worker::Worker;
use dns_name::Name;
use job_script::Command;
use outer_io::{Failed, Sink, write_all};
use session_lines::{Replies, Said, Session};
use std::alloc::{AllocError, Global};
use zone_text::Token;

/// A session with its worker: what it is between two lines, what is printed, and the number of the last line.
#[derive(Drop)]
pub struct Answering<'a, W: Worker> {
    pub alloc: Global,
    pub origin: &'a Name,
    pub worker: W,
    pub session: Session,
    pub replies: Replies,
    pub lines: u64,
    pub lent: Vec<Token>,
}

// Runs what a line says, which completed these commands, or puts down that the line is refused.
fn reply<W: Worker>(
    worker: &mut W,
    replies: &mut Replies,
    line: u64,
    commands: &[Command],
    said: Said,
) -> Result<(), AllocError>
    requires { CanReply W.is_ready W.origin W.holds worker.old replies.old (said_view line commands.now said) }
    ensures goes_on { OnOk result (GoesOnReplying W.is_ready W.origin worker.old worker.new replies.old replies.new) }
    ensures answers { AnswersSaid W.origin W.holds W.has_run result worker.old worker.new (said_view line commands.now said) replies.old replies.new }
{
    match said {
        Said::Nothing => Ok(()),
        Said::Runs => match commands.first() {
            Some(command) => {
                let outcome = worker.run(command)?;
                replies.push_ran(command, &outcome)
            }
            None => Ok(()),
        },
        Said::Refuses(kind) => replies.push_refused(line, kind),
        Said::GivesUp => replies.push_given_up(),
        Said::RefusesLastWord(kind) => {
            replies.push_refused(line, kind)?;
            replies.push_given_up()
        }
    }
}

/// A session over a worker who has run nothing yet, whose first line has a number. Version 0 has so many names.
pub fn begin<W: Worker>(
    alloc: Global,
    origin: &Name,
    worker: W,
    first: u64,
    names: u64,
) -> Result<Answering<'_, W>, AllocError>
    requires { CanBegin W.is_ready W.origin W.holds worker origin.now first }
    ensures sound { IfOk result (λ a. CanGoOn W.is_ready W.origin W.holds a) }
    ensures begun { IfOk result (λ a. (a.origin.now ≡ origin.now) × (a.lines + 1 ≡ first)) }
    ensures so_far { (o : Opened) → o.origin ≡ origin.now → length o.zone ≡ names → W.has_run worker o [] []
        → IfOk result (λ a. HasAnswered W.has_run a o first [] []) }
{
    let _wire = origin.wire(); // for the proof: it is a name
    let mut replies = Replies::new(alloc);
    replies.push_ready(names)?;
    Ok(Answering {
        alloc,
        origin,
        worker,
        session: Session::new(alloc),
        replies,
        lines: first - 1,
        lent: Vec::new(alloc),
    })
}

impl<W: Worker> Answering<'_, W> {
    /// Answers a line, which has its line feed unless it is the last.
    pub fn answer(&mut self, line: &[u8]) -> Result<(), AllocError>
        requires { CanAnswer W.is_ready W.origin W.holds self.old line.now }
        ensures goes_on { OnOk result (GoesOn W.is_ready W.origin W.holds self.old self.new (self.old.lines + 1)) }
        ensures so_far { (o : Opened) (first : ℕ) (done written : List ℕ) → o.origin ≡ self.old.origin.now → IsFed done
            → HasAnswered W.has_run self.old o first done written
            → OnOk result (HasAnswered W.has_run self.new o first (done ++ line.now) written) }
    {
        self.lines += 1;
        let said = self
            .session
            .take_line(self.alloc, line, self.lines, self.origin, &mut self.lent)?;
        reply(
            &mut self.worker,
            &mut self.replies,
            self.lines,
            &self.session.commands,
            said,
        )
    }

    /// Writes what is to be written.
    pub fn put<K: Sink>(&mut self, sink: &mut K) -> Result<(), Failed>
        requires sound { CanGoOn W.is_ready W.origin W.holds self.old }
        ensures goes_on { HasPut W.is_ready W.origin W.holds result self.old self.new }
        ensures writes { Writes result self.old.replies.text.items (K.held sink.old) (K.held sink.new) (K.faults sink.old) (K.faults sink.new) }
        ensures puts { PutsAnswers W.has_run result self.old self.new }
    {
        self.worker.tell();
        write_all(sink, &self.replies.text)?;
        self.replies.text.clear();
        Ok(())
    }
}
