//! The lines of a script.
ghost use Rattle.std.specs.Prelude.{◌≡◌, ◌<◌, ◌≤◌, ◌+◌, ◌^◌, ◌∷◌, ◌++◌, [], ℕ, List, length};
ghost use Rattle.std.specs.Prelude.{IfOk, OnOk, map, vec_len, Some, None, Option, drop, Ok, Err, Result, false};
ghost use Rattle.job_script.specs.Prelude.{option_map, All, AllByRecursion, Labels, InTurn, NeedsNoSnapshot, lines_of};
ghost use Rattle.job_script.specs.Prelude.{IsPlaced, token_view, phrase_view, PhrasePlaced, first_script, unfinished_view};
ghost use Rattle.job_script.specs.Prelude.{script_view, IsNoCommand, LineReads, ScriptReads, ScriptSteps, Says, job_view, list_view};
ghost use Rattle.job_model.specs.Jobs as jobs;

use crate::commands::{Command, Job, Worker};
use crate::inside::inside;
use crate::outside::outside;
use crate::phrases::{Phrase, phrase_of};
use crate::refusal::{JobRefusal, demand, refused};
use crate::words::Line;
use dns_name::Name;
use job_model::{Listing, ScriptKind, Weight};
use std::alloc::Global;
use std::mem::replace;
use zone_change::{Operation, Prerequisite};
use zone_model::ZoneKind;
use zone_text::{LexedLine, Token, ZoneRefusal, line_tokens};

/// A block that has not ended, with the line of its first word.
#[derive(Drop)]
pub struct Unfinished {
    pub start: u32,
    pub weight: Weight,
    pub needs: Vec<Prerequisite>,
    pub operations: Vec<Operation>,
}

/// How far a script has come: how its commands are listed; the lists of the workers before the last one; whether a worker
/// began, its commands, and whether it holds a snapshot; and the block that is open.
#[derive(Drop)]
pub struct Script {
    pub listing: Listing,
    pub earlier: Vec<Worker>,
    pub begun: bool,
    pub commands: Vec<Command>,
    pub held: bool,
    pub block: Option<Unfinished>,
}

// Whether a line may say this at all. No worker begins where there is one list, and where any worker may run any command of it there
// are no snapshots. A whole response is for who waits for it.
fn may_stand(listing: Listing, phrase: &Phrase) -> bool
    ensures { (origin : Labels) (bytes : List ℕ) → result ≡ jobs.may_stand listing (phrase_view origin bytes phrase.now) }
{
    match phrase {
        Phrase::Worker => matches!(listing, Listing::ByWorker),
        Phrase::AsksWhole(_, _) | Phrase::AsksHeldWhole(_, _) => matches!(listing, Listing::Live),
        Phrase::Holds | Phrase::AsksHeld(_) | Phrase::Releases => {
            matches!(listing, Listing::ByWorker | Listing::Live)
        }
        Phrase::Asks(_)
        | Phrase::Opens(_)
        | Phrase::Needs(_, _, _)
        | Phrase::Adds(_, _, _, _)
        | Phrase::Deletes(_, _)
        | Phrase::Ends(_)
        | Phrase::Compacts => true,
    }
}

// The tokens of a line, which say nothing where there are none.
fn take_tokens(script: &mut Script, line: Line, tokens: &[Token]) -> Result<(), JobRefusal>
    requires { All (IsPlaced line.bytes.now) tokens.now }
    ensures { ScriptReads result (script_view script.new)
        (jobs.tokens_say line.entry.origin.now line.entry.number (script_view script.old) (Some (map (token_view line.entry.bytes.now) tokens.now))) }
{
    if tokens.is_empty() {
        return Ok(());
    }
    let Some(phrase) = phrase_of(line.bytes, tokens) else {
        return Err(refused(line.number, ScriptKind::BadCommand));
    };
    if !may_stand(script.listing, &phrase) {
        return Err(refused(line.number, ScriptKind::BadCommand));
    }
    if script.block.is_none() {
        return outside(script, line, &phrase);
    }
    match script.block.take() {
        Some(block) => inside(script, line, block, &phrase),
        // One is open.
        None => unreachable!(),
    }
}

// A line without tokens is no command, but where memory was wanting for them.
fn no_tokens(refusal: ZoneRefusal, line: u32) -> JobRefusal
    ensures { IsNoCommand refusal line result }
{
    match refusal.kind {
        ZoneKind::Memory => JobRefusal::Memory,
        _ => refused(line, ScriptKind::BadCommand),
    }
}

/// The tokens of the line that begins at a place, which lie in memory that is lent, and where the next one begins.
#[inline(always)]
pub fn read_line(
    alloc: Global,
    bytes: &[u8],
    at: u32,
    line: u32,
    lent: &mut Vec<Token>,
) -> Result<LexedLine, JobRefusal>
    requires inside { at < length bytes.now }
    requires short { length bytes.now ≤ 2 ^ 24 }
    ensures reads { LineReads result bytes.now at line }
    ensures placed { IfOk result (λ l. All (IsPlaced bytes.now) l.tokens.items) }
    ensures next { IfOk result (λ l. (at < l.next) × (l.next ≤ length bytes.now)) }
{
    match line_tokens(replace(lent, Vec::new(alloc)), bytes, at, line) {
        Ok(lexed) if lexed.parens => Err(refused(line, ScriptKind::BadCommand)),
        Ok(lexed) => Ok(lexed),
        Err(refusal) => Err(no_tokens(refusal, line)),
    }
}

/// Takes the line that begins at a place, and tells where the next one begins. Its tokens lie in memory that is lent.
#[tactic(auto, unfolding(job_model::specs::Jobs::script_line))]
pub fn script_line(
    script: &mut Script,
    alloc: Global,
    bytes: &[u8],
    origin: &Name,
    at: u32,
    line: u32,
    lent: &mut Vec<Token>,
) -> Result<u32, JobRefusal>
    requires inside { at < length bytes.now }
    requires short { length bytes.now ≤ 2 ^ 24 }
    ensures steps { ScriptSteps result bytes.now at line origin.now (script_view script.old) (script_view script.new) }
    ensures next { IfOk result (λ next. (at < next) × (next ≤ length bytes.now)) }
{
    let lexed = read_line(alloc, bytes, at, line, lent)?;
    let here = Line {
        alloc,
        bytes,
        origin,
        number: line,
    };
    take_tokens(script, here, &lexed.tokens)?;
    *lent = lexed.tokens;
    Ok(lexed.next)
}

// The lines from the first on, which has a number. Answers the number of the line behind them.
#[tactic(auto, unfolding(job_model::specs::Jobs::script_from))]
fn script_from(
    script: &mut Script,
    alloc: Global,
    bytes: &[u8],
    origin: &Name,
    first: u32,
) -> Result<u32, JobRefusal>
    requires short { length bytes.now ≤ 2 ^ 24 }
    requires few { first + length bytes.now < 2 ^ 32 }
    ensures reads { ScriptReads result (script_view script.new) (jobs.script_from origin.now first (lines_of bytes.now) (script_view script.old)) }
    ensures lines { IfOk result (λ n. n ≡ first + length (lines_of bytes.now)) }
{
    let mut lent = Vec::new(alloc);
    let mut at = 0;
    let mut line = first;
    while (at as usize) < bytes.len() {
        at = script_line(script, alloc, bytes, origin, at, line, &mut lent)?;
        line += 1;
    }
    Ok(line)
}

/// A script of which no line was read. In one list commands may come at once.
pub fn first_script(alloc: Global, listing: Listing) -> Script
    ensures { script_view result ≡ first_script listing }
{
    Script {
        listing,
        earlier: Vec::new(alloc),
        begun: matches!(listing, Listing::OneList | Listing::Live),
        commands: Vec::new(alloc),
        held: false,
        block: None,
    }
}

// The workers of a script that was read, where the next line would have a number.
fn finished(script: Script, line: u32) -> Result<Job, JobRefusal>
    ensures { Says result job_view (jobs.finished line (script_view script)) }
{
    let Script {
        listing: _,
        mut earlier,
        begun,
        commands,
        held: _,
        block,
    } = script;
    if let Some(block) = block {
        return Err(refused(block.start, ScriptKind::OpenBlock));
    }
    demand(begun, line, ScriptKind::NoWorker)?;
    earlier.push(Worker { commands })?;
    Ok(Job { workers: earlier })
}

// The commands of one list that was read.
fn list_finished(script: Script) -> Result<Vec<Command>, JobRefusal>
    ensures { Says result list_view (jobs.list_finished (script_view script)) }
{
    let Script {
        listing: _,
        earlier: _,
        begun: _,
        commands,
        held: _,
        block,
    } = script;
    match block {
        Some(block) => Err(refused(block.start, ScriptKind::OpenBlock)),
        None => Ok(commands),
    }
}

/// Reads the script of a job, whose first line has the number `first_line`. Names are relative to the origin.
#[tactic(auto, unfolding(job_model::specs::Jobs::script_of))]
pub fn read_job(
    alloc: Global,
    bytes: &[u8],
    first_line: u32,
    origin: &Name,
) -> Result<Job, JobRefusal>
    requires short { length bytes.now ≤ 2 ^ 24 }
    requires few { first_line + length bytes.now < 2 ^ 32 }
    ensures reads { Says result job_view (jobs.script_of origin.now first_line (lines_of bytes.now)) }
    ensures in_turn { IfOk result (λ job. AllByRecursion (InTurn false) (job_view job)) }
    ensures few_workers { IfOk result (λ job. length job.workers.items ≤ 16) }
{
    let mut script = first_script(alloc, Listing::ByWorker);
    let end = script_from(&mut script, alloc, bytes, origin, first_line)?;
    finished(script, end)
}

/// Reads a script that is one list of commands, whose first line has the number `first_line`. It may be empty.
#[tactic(auto, unfolding(job_model::specs::Jobs::list_of))]
pub fn read_list(
    alloc: Global,
    bytes: &[u8],
    first_line: u32,
    origin: &Name,
) -> Result<Vec<Command>, JobRefusal>
    requires short { length bytes.now ≤ 2 ^ 24 }
    requires few { first_line + length bytes.now < 2 ^ 32 }
    ensures reads { Says result list_view (jobs.list_of origin.now first_line (lines_of bytes.now)) }
    ensures no_snapshots { IfOk result (λ commands. AllByRecursion NeedsNoSnapshot (list_view commands)) }
    ensures few_commands { IfOk result (λ commands. vec_len commands ≤ 10000) }
{
    let mut script = first_script(alloc, Listing::OneList);
    match script_from(&mut script, alloc, bytes, origin, first_line) {
        Ok(_) => list_finished(script),
        Err(refusal) => Err(refusal),
    }
}
