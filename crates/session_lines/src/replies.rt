//! What is printed for the lines of a session.
ghost use Rattle.std.specs.Prelude.{◌≡◌, ◌<◌, ◌-◌, ◌++◌, ◌^◌, [], false, OnOk, codes, decimal};
ghost use Rattle.session_lines.specs.Prelude.{command_view, end_text, given_up_text, outcome_text, ready_text, refused_line_text, script_kind_text};
ghost use Rattle.session_lines.specs.Printing.{printing, with_given_up, with_ran, with_refused, with_text};

use crate::kinds::script_kind_name;
use job_model::ScriptKind;
use job_report::{Outcome, is_refused, push_end, push_head, push_told};
use job_script::Command;
use std::alloc::{AllocError, Global};
use zone_text::push_decimal;

/// What is still to be written; the number of the next command; the version that the session saw or made last; and whether anything
/// was refused.
#[derive(Drop)]
pub struct Replies {
    pub text: Vec<u8>,
    pub next: u64,
    pub seen: u64,
    pub refused: bool,
}

// A number between two texts.
fn push_number(
    out: &mut Vec<u8>,
    before: &[u8],
    number: u64,
    after: &[u8],
) -> Result<(), AllocError>
    ensures { OnOk result (out.new.items ≡ out.old.items ++ before.now ++ decimal number ++ after.now) }
{
    out.extend_from_slice(before)?;
    push_decimal(out, number)?;
    out.extend_from_slice(after)
}

// The first line of a session.
fn push_ready_line(out: &mut Vec<u8>, names: u64) -> Result<(), AllocError>
    ensures { OnOk result (out.new.items ≡ out.old.items ++ ready_text names) }
{
    push_number(out, b"live v0 names ", names, b"\n")
}

// A kind and the end of the line.
fn push_kind(out: &mut Vec<u8>, kind: ScriptKind) -> Result<(), AllocError>
    ensures { OnOk result (out.new.items ≡ out.old.items ++ script_kind_text kind ++ codes "\n") }
{
    out.extend_from_slice(script_kind_name(kind))?;
    out.extend_from_slice(b"\n")
}

// The line of a line that is refused.
fn push_refused_line(out: &mut Vec<u8>, line: u64, kind: ScriptKind) -> Result<(), AllocError>
    ensures { OnOk result (out.new.items ≡ out.old.items ++ refused_line_text line kind) }
{
    push_number(out, b"refused line ", line, b" ")?;
    push_kind(out, kind)
}

// The line of a transaction that was given up, as a command.
fn push_given_up_line(out: &mut Vec<u8>, command: u64, version: u64) -> Result<(), AllocError>
    ensures { OnOk result (out.new.items ≡ out.old.items ++ given_up_text command version) }
{
    push_head(out, 1, command, version)?;
    out.extend_from_slice(b"REFUSED line\n")
}

// What is printed of an outcome.
fn push_outcome(out: &mut Vec<u8>, command: u64, outcome: &Outcome) -> Result<(), AllocError>
    ensures { OnOk result (out.new.items ≡ out.old.items ++ outcome_text 1 command outcome.now) }
{
    push_head(out, 1, command, outcome.version)?;
    push_told(out, &outcome.told)
}

impl Replies {
    /// Nothing is to be written yet.
    pub fn new(alloc: Global) -> Replies
        ensures { printing result ≡ record { text = []; next = 1; seen = 0; refused = false } }
    {
        Replies {
            text: Vec::new(alloc),
            next: 1,
            seen: 0,
            refused: false,
        }
    }

    /// The first line: how many names version 0 has.
    pub fn push_ready(&mut self, names: u64) -> Result<(), AllocError>
        ensures { OnOk result (printing self.new ≡ with_text (printing self.old) (ready_text names)) }
    {
        push_ready_line(&mut self.text, names)
    }

    /// A command came to an outcome.
    pub fn push_ran(&mut self, command: &Command, outcome: &Outcome) -> Result<(), AllocError>
        requires { self.old.next < 2 ^ 64 - 1 }
        ensures { OnOk result (printing self.new ≡ with_ran (printing self.old) (command_view command.now) outcome.now) }
    {
        push_outcome(&mut self.text, self.next, outcome)?;
        self.next += 1;
        if !matches!(command, Command::AskHeld(_) | Command::Release) {
            self.seen = outcome.version;
        }
        if is_refused(outcome) {
            self.refused = true;
        }
        Ok(())
    }

    /// A line is refused.
    pub fn push_refused(&mut self, line: u64, kind: ScriptKind) -> Result<(), AllocError>
        ensures { OnOk result (printing self.new ≡ with_refused (printing self.old) line kind) }
    {
        self.refused = true;
        push_refused_line(&mut self.text, line, kind)
    }

    /// A transaction was given up. It counts as a command.
    pub fn push_given_up(&mut self) -> Result<(), AllocError>
        requires { self.old.next < 2 ^ 64 - 1 }
        ensures { OnOk result (printing self.new ≡ with_given_up (printing self.old)) }
    {
        push_given_up_line(&mut self.text, self.next, self.seen)?;
        self.next += 1;
        self.refused = true;
        Ok(())
    }

    /// The last line: the last version, and how many names it has.
    pub fn push_last(&mut self, version: u64, names: u64) -> Result<(), AllocError>
        ensures { OnOk result (printing self.new ≡ with_text (printing self.old) (end_text version names)) }
    {
        push_end(&mut self.text, version, names)
    }
}
