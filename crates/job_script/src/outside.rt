//! Lines outside a block.
ghost use Rattle.std.specs.Prelude.{◌≡◌, ◌<◌, ◌≤◌, ◌+◌, ◌∷◌, ◌++◌, [], ℕ, List, length, map, Some, None, Option, Ok, Err, Result, nat_lt};
ghost use Rattle.job_script.specs.Prelude.{asked_view, whole_view, IsPlaced, AskedPlaced, command_view};
ghost use Rattle.job_script.specs.Prelude.{phrase_view, PhrasePlaced, script_view, Passes, ScriptReads, with_asked};
ghost use Rattle.job_model.specs.Jobs as jobs;
ghost use Rattle.job_script.specs.declared.questions.Asked.TheVariants as asked;
ghost use Rattle.job_model.specs.Phrases as phrases;

use crate::commands::{COMMAND_LIMIT, Command, WORKER_LIMIT, Worker};
use crate::phrases::Phrase;
use crate::questions::{Asked, get_of, question_of, whole_of};
use crate::refusal::{JobRefusal, demand, refused, too_many};
use crate::script::{Script, Unfinished};
use crate::words::Line;
use job_model::{ScriptKind, Weight};
use std::mem;
use zone_text::Token;

/// Takes a line.
pub fn outside(script: &mut Script, line: Line, phrase: &Phrase) -> Result<(), JobRefusal>
    requires none { script.old.block ≡ None }
    requires placed { PhrasePlaced line.bytes.now phrase.now }
    ensures { ScriptReads result (script_view script.new)
        (jobs.outside line.entry.origin.now line.entry.number (phrase_view line.entry.origin.now line.entry.bytes.now phrase.now) (script_view script.old)) }
{
    match phrase {
        Phrase::Worker => begin_worker(script, line),
        Phrase::Asks(asked) => {
            demand(script.begun, line.number, ScriptKind::NoWorker)?;
            add_question(script, line, asked, false)
        }
        Phrase::AsksWhole(name, rtype) => {
            demand(script.begun, line.number, ScriptKind::NoWorker)?;
            add_whole(script, line, *name, *rtype, false)
        }
        Phrase::Holds => hold(script, line.number),
        Phrase::AsksHeld(asked) => {
            demand(script.begun, line.number, ScriptKind::NoWorker)?;
            demand(script.held, line.number, ScriptKind::NotHeld)?;
            add_question(script, line, asked, true)
        }
        Phrase::AsksHeldWhole(name, rtype) => {
            demand(script.begun, line.number, ScriptKind::NoWorker)?;
            demand(script.held, line.number, ScriptKind::NotHeld)?;
            add_whole(script, line, *name, *rtype, true)
        }
        Phrase::Releases => release(script, line.number),
        Phrase::Opens(weight) => open_block(script, line, *weight),
        Phrase::Compacts => compact(script, line.number),
        Phrase::Needs(_, _, _)
        | Phrase::Adds(_, _, _, _)
        | Phrase::Deletes(_, _)
        | Phrase::Ends(_) => Err(refused(line.number, ScriptKind::BadCommand)),
    }
}

// The first worker's list begins, or the next one's.
fn begin_worker(script: &mut Script, line: Line) -> Result<(), JobRefusal>
    requires { script.old.block ≡ None }
    ensures { ScriptReads result (script_view script.new) (jobs.outside [] line.entry.number phrases.Worker (script_view script.old)) }
{
    if !script.begun {
        script.begun = true;
        return Ok(());
    }
    if script.earlier.len() + 1 >= WORKER_LIMIT {
        return Err(too_many(line.number, 16));
    }
    let commands = mem::replace(&mut script.commands, Vec::new(line.alloc));
    script.earlier.push(Worker { commands })?;
    script.held = false;
    Ok(())
}

// Refuses one command too many.
fn has_room(script: &Script, line: u32) -> Result<(), JobRefusal>
    ensures { Passes result (nat_lt (length (script_view script.now).commands) jobs.command_limit) line (ScriptKind.TooMany jobs.command_limit) }
{
    if script.commands.len() >= COMMAND_LIMIT {
        return Err(too_many(line, 10000));
    }
    Ok(())
}

// A command joins the worker's.
#[inline(always)]
fn add(script: &mut Script, command: Command) -> Result<(), JobRefusal>
    ensures { ScriptReads result (script_view script.new) (Ok (jobs.with_command (script_view script.old) (command_view command))) }
{
    script.commands.push(command)?;
    Ok(())
}

// A question for the records of a name and a type joins the worker's commands. It stands by itself, since a function clears the room for
// all names that it may read.
#[inline(never)]
fn add_get(
    script: &mut Script,
    line: Line,
    name: Token,
    rtype: Token,
    held: bool,
) -> Result<(), JobRefusal>
    requires name { IsPlaced line.bytes.now name }
    requires rtype { IsPlaced line.bytes.now rtype }
    ensures { ScriptReads result (script_view script.new)
        (with_asked line.entry.number held (asked_view line.entry.origin.now line.entry.bytes.now (asked.Get name rtype)) (script_view script.old)) }
{
    has_room(script, line.number)?;
    match get_of(line.bytes, line.origin, name, rtype) {
        Ok(question) if held => add(script, Command::AskHeld(question)),
        Ok(question) => add(script, Command::Ask(question)),
        Err(kind) => Err(refused(line.number, kind)),
    }
}

// A question joins them, to the snapshot that is held or to the current version.
fn add_question(
    script: &mut Script,
    line: Line,
    asked: &Asked,
    held: bool,
) -> Result<(), JobRefusal>
    requires { AskedPlaced line.bytes.now asked.now }
    ensures { ScriptReads result (script_view script.new)
        (with_asked line.entry.number held (asked_view line.entry.origin.now line.entry.bytes.now asked.now) (script_view script.old)) }
{
    if let Asked::Get(name, rtype) = asked {
        return add_get(script, line, *name, *rtype, held);
    }
    has_room(script, line.number)?;
    match question_of(line.bytes, line.origin, asked) {
        Ok(question) if held => add(script, Command::AskHeld(question)),
        Ok(question) => add(script, Command::Ask(question)),
        Err(kind) => Err(refused(line.number, kind)),
    }
}

// A question for a whole response joins them. It stands by itself, since a function clears the room for all names that it may read.
#[inline(never)]
fn add_whole(
    script: &mut Script,
    line: Line,
    name: Token,
    rtype: Token,
    held: bool,
) -> Result<(), JobRefusal>
    requires name { IsPlaced line.bytes.now name }
    requires rtype { IsPlaced line.bytes.now rtype }
    ensures { ScriptReads result (script_view script.new)
        (with_asked line.entry.number held (whole_view line.entry.origin.now line.entry.bytes.now name rtype) (script_view script.old)) }
{
    has_room(script, line.number)?;
    match whole_of(line.bytes, line.origin, name, rtype) {
        Ok(question) if held => add(script, Command::AskHeld(question)),
        Ok(question) => add(script, Command::Ask(question)),
        Err(kind) => Err(refused(line.number, kind)),
    }
}

// A snapshot is taken.
fn hold(script: &mut Script, line: u32) -> Result<(), JobRefusal>
    ensures { ScriptReads result (script_view script.new) (jobs.outside [] line phrases.Holds (script_view script.old)) }
{
    demand(script.begun, line, ScriptKind::NoWorker)?;
    if script.held {
        return Err(refused(line, ScriptKind::AlreadyHeld));
    }
    has_room(script, line)?;
    script.commands.push(Command::Hold)?;
    script.held = true;
    Ok(())
}

// The snapshot is given back.
fn release(script: &mut Script, line: u32) -> Result<(), JobRefusal>
    ensures { ScriptReads result (script_view script.new) (jobs.outside [] line phrases.Releases (script_view script.old)) }
{
    demand(script.begun, line, ScriptKind::NoWorker)?;
    demand(script.held, line, ScriptKind::NotHeld)?;
    has_room(script, line)?;
    script.commands.push(Command::Release)?;
    script.held = false;
    Ok(())
}

// A block begins.
fn open_block(script: &mut Script, line: Line, weight: Weight) -> Result<(), JobRefusal>
    requires { script.old.block ≡ None }
    ensures { ScriptReads result (script_view script.new) (jobs.outside [] line.entry.number (phrases.Opens weight) (script_view script.old)) }
{
    demand(script.begun, line.number, ScriptKind::NoWorker)?;
    has_room(script, line.number)?;
    script.block = Some(Unfinished {
        start: line.number,
        weight,
        needs: Vec::new(line.alloc),
        operations: Vec::new(line.alloc),
    });
    Ok(())
}

// A compaction.
fn compact(script: &mut Script, line: u32) -> Result<(), JobRefusal>
    ensures { ScriptReads result (script_view script.new) (jobs.outside [] line phrases.Compacts (script_view script.old)) }
{
    demand(script.begun, line, ScriptKind::NoWorker)?;
    has_room(script, line)?;
    add(script, Command::Compact)
}
