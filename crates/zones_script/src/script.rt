//! The lines of a script over zones.
ghost use Rattle.std.specs.Prelude.{◌≡◌, ◌<◌, ◌≤◌, ◌+◌, ◌^◌, length, IfOk, map, Some, None, Option, Ok, Err, Result};
ghost use Rattle.zones_script.specs.Prelude.{option_map, All, lines_of, IsPlaced, token_view, Says};
ghost use Rattle.zones_script.specs.Prelude.{AreLists, workers_view, script_view, open_view, ScriptReads, LineSteps};
ghost use Rattle.zones_script.specs.Scripts as zones;

use crate::commands::{Command, Worker, ZonesScript};
use crate::inside::take_inside;
use crate::outside::outside;
use crate::phrases::phrase_of;
use dns_name::Name;
use job_model::ScriptKind;
use job_script::{JobRefusal, Script as Alone, demand, read_line, refused};
use std::alloc::Global;
use zone_text::Token;

/// One of the zones: its number and its origin.
#[derive(Clone, Copy)]
pub struct Chosen {
    pub zone: u32,
    pub origin: Name,
}

/// A block that is open: its zone, and what its lines say so far in a script of that zone alone.
#[derive(Drop)]
pub struct OpenBlock {
    pub chosen: Chosen,
    pub alone: Alone,
}

/// How far a script has come: the lists of the workers before the last one; whether a worker began, and its commands; and the
/// block that is open.
#[derive(Drop)]
pub struct Script {
    pub earlier: Vec<Worker>,
    pub begun: bool,
    pub commands: Vec<Command>,
    pub block: Option<OpenBlock>,
}

// The tokens of a line outside blocks, which say nothing where there are none.
fn take_tokens(
    script: &mut Script,
    alloc: Global,
    bytes: &[u8],
    origins: &[Name],
    line: u32,
    tokens: &[Token],
) -> Result<(), JobRefusal>
    requires none { script.old.block ≡ None }
    requires zones { length origins.now ≤ 16 }
    requires placed { All (IsPlaced bytes.now) tokens.now }
    ensures { ScriptReads result (script_view script.new)
        (zones.tokens_say origins.now line (script_view script.old) (Some (map (token_view bytes.now) tokens.now))) }
{
    if tokens.is_empty() {
        return Ok(());
    }
    match phrase_of(bytes, tokens) {
        Some(phrase) => outside(script, alloc, bytes, origins, line, phrase),
        None => Err(refused(line, ScriptKind::BadCommand)),
    }
}

// The line that begins at a place; the place where the next one begins. Its tokens lie in memory that is lent.
#[tactic(auto, unfolding(crate::specs::Scripts::script_line))]
fn script_line(
    script: &mut Script,
    alloc: Global,
    bytes: &[u8],
    origins: &[Name],
    at: u32,
    line: u32,
    lent: &mut Vec<Token>,
) -> Result<u32, JobRefusal>
    requires inside { at < length bytes.now }
    requires short { length bytes.now ≤ 2 ^ 24 }
    requires zones { length origins.now ≤ 16 }
    ensures steps { LineSteps result bytes.now at (λ text. zones.script_line origins.now line text (script_view script.old)) (script_view script.new) }
    ensures next { IfOk result (λ next. (at < next) × (next ≤ length bytes.now)) }
{
    if let Some(block) = script.block.take() {
        return take_inside(script, alloc, bytes, block, at, line, lent);
    }
    let lexed = read_line(alloc, bytes, at, line, lent)?;
    take_tokens(script, alloc, bytes, origins, line, &lexed.tokens)?;
    *lent = lexed.tokens;
    Ok(lexed.next)
}

// The lines from the first on, which has a number. Answers the number of the line behind them.
#[tactic(auto, unfolding(crate::specs::Scripts::script_from))]
fn script_from(
    script: &mut Script,
    alloc: Global,
    bytes: &[u8],
    origins: &[Name],
    first: u32,
) -> Result<u32, JobRefusal>
    requires short { length bytes.now ≤ 2 ^ 24 }
    requires zones { length origins.now ≤ 16 }
    requires few { first + length bytes.now < 2 ^ 32 }
    ensures reads { ScriptReads result (script_view script.new) (zones.script_from origins.now first (lines_of bytes.now) (script_view script.old)) }
    ensures lines { IfOk result (λ n. n ≡ first + length (lines_of bytes.now)) }
{
    let mut lent = Vec::new(alloc);
    let mut at = 0;
    let mut line = first;
    while (at as usize) < bytes.len() {
        at = script_line(script, alloc, bytes, origins, at, line, &mut lent)?;
        line += 1;
    }
    Ok(line)
}

// A script of which no line was read.
fn no_lines(alloc: Global) -> Script
    ensures { script_view result ≡ zones.no_lines }
{
    Script {
        earlier: Vec::new(alloc),
        begun: false,
        commands: Vec::new(alloc),
        block: None,
    }
}

// The line that a block is open from, if it hasn't ended.
fn open_from(block: &OpenBlock) -> Option<u32>
    ensures { result ≡ option_map (λ b. b.start) (open_view block.now).alone.block }
{
    match &block.alone.block {
        Some(open) => Some(open.start),
        None => None,
    }
}

// The workers of a script that was read, where the next line would have a number.
fn finished(script: Script, line: u32) -> Result<ZonesScript, JobRefusal>
    ensures { Says result workers_view (zones.finished line (script_view script)) }
{
    let Script {
        mut earlier,
        begun,
        commands,
        block,
    } = script;
    if let Some(open) = &block {
        if let Some(start) = open_from(open) {
            return Err(refused(start, ScriptKind::OpenBlock));
        }
    }
    demand(begun, line, ScriptKind::NoWorker)?;
    earlier.push(Worker { commands })?;
    Ok(ZonesScript { workers: earlier })
}

/// Reads a script over zones of these origins, whose first line has the number `first_line`. Names are relative to the root, and
/// inside a block to the origin of its zone.
#[tactic(auto, unfolding(crate::specs::Scripts::script_of))]
pub fn read_script(
    alloc: Global,
    bytes: &[u8],
    first_line: u32,
    origins: &[Name],
) -> Result<ZonesScript, JobRefusal>
    requires short { length bytes.now ≤ 2 ^ 24 }
    requires zones { length origins.now ≤ 16 }
    requires few { first_line + length bytes.now < 2 ^ 32 }
    ensures reads { Says result workers_view (zones.script_of origins.now first_line (lines_of bytes.now)) }
    ensures told { 0 < first_line → IfOk result (λ script. AreLists origins.now (lines_of bytes.now) (workers_view script)) }
{
    let mut script = no_lines(alloc);
    let end = script_from(&mut script, alloc, bytes, origins, first_line)?;
    finished(script, end)
}
