//! What one line of a session says.
ghost use Rattle.std.specs.Prelude.{◌≡◌, ◌<◌, ◌≤◌, ◌∷◌, ◌^◌, [], ℕ, true, false, List, length, map, IfOk, IsOk, Some, None, Option};
ghost use Rattle.session_lines.specs.Prelude.{is_some, lines_of, script_view, first_session, left_open};
ghost use Rattle.session_lines.specs.Prelude.{passed_over, refused_in, script_at, session_line, went_on};
ghost use Rattle.session_lines.specs.Views.{StepsTo, open_view, session_view};
ghost use Rattle.session_lines.specs.Prelude.{State, command_view, held_by, is_last_word as ends_line};

use crate::words::is_last_word;
use dns_name::Name;
use job_model::{Listing, ScriptKind};
use job_script::{Command, JobRefusal, Script, Unfinished, script_line};
use std::alloc::{AllocError, Global};
use std::mem::replace;
use zone_text::Token;

/// What a session is between two lines: whether it holds a snapshot; the transaction that is open, and the number of its first line;
/// and whether a refused line gave one up, whose last word is still to come. The commands are those that the last line completed, one at
/// most: they are run where they lie, and their memory goes from line to line.
#[derive(Drop)]
pub struct Session {
    pub held: bool,
    pub block: Option<Unfinished>,
    pub opened: u64,
    pub given_up: bool,
    pub commands: Vec<Command>,
}

/// What a line says.
#[derive(Clone, Copy)]
pub enum Said {
    /// Nothing is to be done or told.
    Nothing,
    /// What the session has as the line's commands is to be run.
    Runs,
    /// The line is refused.
    Refuses(ScriptKind),
    /// The last word has come of a transaction that a refused line gave up.
    GivesUp,
    /// The line is refused, and is the last word of the transaction that was open.
    RefusesLastWord(ScriptKind),
}

// Whether a snapshot is held behind a line's commands.
fn held_behind(held: bool, commands: &[Command]) -> bool
    ensures { result ≡ held_by held (map command_view commands.now) }
{
    match commands.first() {
        Some(Command::Hold) => true,
        Some(Command::Release) => false,
        _ => held,
    }
}

impl Session {
    /// No line has come yet.
    pub fn new(alloc: Global) -> Session
        ensures { session_view result ≡ first_session }
    {
        Session {
            held: false,
            block: None,
            opened: 0,
            given_up: false,
            commands: Vec::new(alloc),
        }
    }

    // The script of a line alone. The open transaction goes into it.
    fn script(&mut self, alloc: Global) -> Script
        ensures script { script_view result ≡ script_at (session_view self.old) }
        ensures block { session_view self.new ≡ record (session_view self.old) { block = None } }
    {
        let mut commands = replace(&mut self.commands, Vec::new(alloc));
        commands.clear();
        Script {
            listing: Listing::Live,
            earlier: Vec::new(alloc),
            begun: true,
            commands,
            held: self.held,
            block: self.block.take(),
        }
    }

    // A line was taken, which has a number.
    fn go_on(&mut self, script: Script, number: u64, was_open: bool) -> Said
        ensures { (s : State) → session_view self.old ≡ record s { block = None } → is_some s.block ≡ was_open
            → StepsTo (went_on number s (script_view script)) self.new number result }
    {
        let Script {
            commands,
            block,
            ..
        } = script;
        self.held = held_behind(self.held, &commands);
        self.block = block;
        self.opened = if was_open { self.opened } else { number };
        self.commands = commands;
        Said::Runs
    }

    // A line is refused. What was open is given up. Where nothing was open that takes no memory.
    fn refuse(
        &mut self,
        alloc: Global,
        line: &[u8],
        kind: ScriptKind,
        was_open: bool,
        lent: &mut Vec<Token>,
    ) -> Result<Said, AllocError>
        requires some { 0 < length line.now }
        requires short { length line.now ≤ 2 ^ 24 }
        ensures steps { (s : State) (number : ℕ) (text : List ℕ) → session_view self.old ≡ record s { block = None } → is_some s.block ≡ was_open
            → lines_of line.now ≡ text ∷ [] → IfOk result (StepsTo (refused_in number kind s (ends_line text) s.block) self.new number) }
        ensures at_once { was_open ≡ false → IsOk result }
    {
        if !was_open {
            return Ok(Said::Refuses(kind));
        }
        if is_last_word(alloc, line, lent)? {
            return Ok(Said::RefusesLastWord(kind));
        }
        self.given_up = true;
        Ok(Said::Refuses(kind))
    }

    // Passes a line over, but for the last word of the transaction that was given up.
    fn pass_over(
        &mut self,
        alloc: Global,
        line: &[u8],
        lent: &mut Vec<Token>,
    ) -> Result<Said, AllocError>
        requires some { 0 < length line.now }
        requires short { length line.now ≤ 2 ^ 24 }
        ensures { (number : ℕ) (text : List ℕ) → lines_of line.now ≡ text ∷ []
            → IfOk result (StepsTo (passed_over (session_view self.old) (ends_line text)) self.new number) }
    {
        if is_last_word(alloc, line, lent)? {
            self.given_up = false;
            return Ok(Said::GivesUp);
        }
        Ok(Said::Nothing)
    }

    /// Takes a line by its number. Its tokens lie in memory that is lent.
    #[tactic(auto, unfolding(job_model::specs::Sessions::session_line))]
    pub fn take_line(
        &mut self,
        alloc: Global,
        line: &[u8],
        number: u64,
        origin: &Name,
        lent: &mut Vec<Token>,
    ) -> Result<Said, AllocError>
        requires some { 0 < length line.now }
        requires short { length line.now ≤ 2 ^ 24 }
        ensures { (text : List ℕ) → lines_of line.now ≡ text ∷ []
            → IfOk result (StepsTo (session_line origin.now number text (session_view self.old)) self.new number) }
    {
        if self.given_up {
            return self.pass_over(alloc, line, lent);
        }
        let was_open = self.block.is_some();
        let mut script = self.script(alloc);
        match script_line(&mut script, alloc, line, origin, 0, 1, lent) {
            Ok(_) => Ok(self.go_on(script, number, was_open)),
            Err(JobRefusal::Refused { line: _, kind }) => {
                self.refuse(alloc, line, kind, was_open, lent)
            }
            Err(JobRefusal::Memory) => Err(AllocError),
        }
    }

    /// The first line of a transaction that is still open.
    pub fn left_open(&self) -> Option<u64>
        ensures { left_open (session_view self.now).opened (session_view self.now).block ≡ open_view result }
    {
        if self.block.is_some() {
            return Some(self.opened);
        }
        None
    }
}
