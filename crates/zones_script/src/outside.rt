//! Lines outside a block.
ghost use Rattle.std.specs.Prelude.{◌≡◌, ◌<◌, ◌≤◌, ◌+◌, [], length, Some, None, Option, Ok, Err, Result, true, position};
ghost use Rattle.zones_script.specs.Prelude.{same_name, IsPlaced, token_view, Says, alone_view, command_view};
ghost use Rattle.zones_script.specs.Prelude.{chosen_view, phrase_view, PhrasePlaced, script_view, ScriptReads};
ghost use Rattle.job_model.specs.Jobs as jobs;
ghost use Rattle.zones_script.specs.Scripts as zones;
ghost use Rattle.zones_script.specs.Phrases as phrases;

use crate::commands::{Command, Worker};
use crate::phrases::Phrase;
use crate::script::{Chosen, OpenBlock, Script};
use dns_name::Name;
use job_model::{Listing, ScriptKind, Weight};
use job_script::{
    COMMAND_LIMIT, JobRefusal, Script as Alone, Unfinished, WORKER_LIMIT, demand, refused, too_many,
};
use master_file::{name_word, type_word};
use std::alloc::Global;
use std::mem;
use zone_text::Token;

// The number of the zone of an origin.
fn number_of(origins: &[Name], name: &Name) -> Option<usize>
    ensures { result ≡ position (λ origin. same_name origin name.now) origins.now }
{
    origins.iter().position(|origin| origin == name)
}

// The zone that a word names by its origin.
#[tactic(auto, unfolding(crate::specs::Scripts::chosen))]
fn chosen(bytes: &[u8], origins: &[Name], line: u32, word: Token) -> Result<Chosen, JobRefusal>
    requires placed { IsPlaced bytes.now word }
    requires zones { length origins.now ≤ 16 }
    ensures { Says result chosen_view (zones.chosen origins.now line (token_view bytes.now word)) }
{
    let Some(origin) = name_word(bytes, &Name::root(), word) else {
        return Err(refused(line, ScriptKind::BadName));
    };
    match number_of(origins, &origin) {
        Some(zone) => Ok(Chosen {
            zone: zone as u32,
            origin,
        }),
        None => Err(refused(line, ScriptKind::BadName)),
    }
}

// A question.
#[tactic(auto, unfolding(crate::specs::Scripts::question_of))]
fn question_of(bytes: &[u8], line: u32, name: Token, rtype: Token) -> Result<Command, JobRefusal>
    requires name { IsPlaced bytes.now name }
    requires rtype { IsPlaced bytes.now rtype }
    ensures { Says result command_view (zones.question_of line (token_view bytes.now name) (token_view bytes.now rtype)) }
{
    let Some(asked) = name_word(bytes, &Name::root(), name) else {
        return Err(refused(line, ScriptKind::BadName));
    };
    match type_word(bytes, rtype) {
        Some(number) => Ok(Command::Get(asked, number)),
        None => Err(refused(line, ScriptKind::BadType)),
    }
}

// The first worker's list begins, or the next one's.
fn begin_worker(script: &mut Script, alloc: Global, line: u32) -> Result<(), JobRefusal>
    requires { script.old.block ≡ None }
    ensures { ScriptReads result (script_view script.new) (zones.outside [] line phrases.Worker (script_view script.old)) }
{
    if !script.begun {
        script.begun = true;
        return Ok(());
    }
    if script.earlier.len() + 1 >= WORKER_LIMIT {
        return Err(too_many(line, 16));
    }
    let commands = mem::replace(&mut script.commands, Vec::new(alloc));
    script.earlier.push(Worker { commands })?;
    Ok(())
}

// Refuses a command where no worker began, and one too many.
#[tactic(auto, unfolding(crate::specs::Scripts::has_room))]
fn has_room(script: &Script, line: u32) -> Result<(), JobRefusal>
    ensures { Says result (λ done. done) (zones.has_room line (script_view script.now)) }
{
    demand(script.begun, line, ScriptKind::NoWorker)?;
    if script.commands.len() >= COMMAND_LIMIT {
        return Err(too_many(line, 10000));
    }
    Ok(())
}

// A command joins the worker's.
fn add(script: &mut Script, command: Command) -> Result<(), JobRefusal>
    ensures { ScriptReads result (script_view script.new) (zones.with_command (script_view script.old) (command_view command)) }
{
    script.commands.push(command)?;
    Ok(())
}

// What a script of one zone alone has come to where its block begins.
fn opened(alloc: Global, line: u32, weight: Weight) -> Alone
    ensures { alone_view result ≡ jobs.opened line weight (record jobs.no_lines { begun = true }) }
{
    Alone {
        listing: Listing::ByWorker,
        earlier: Vec::new(alloc),
        begun: true,
        commands: Vec::new(alloc),
        held: false,
        block: Some(Unfinished {
            start: line,
            weight,
            needs: Vec::new(alloc),
            operations: Vec::new(alloc),
        }),
    }
}

/// Takes a line.
pub fn outside(
    script: &mut Script,
    alloc: Global,
    bytes: &[u8],
    origins: &[Name],
    line: u32,
    phrase: Phrase,
) -> Result<(), JobRefusal>
    requires none { script.old.block ≡ None }
    requires placed { PhrasePlaced bytes.now phrase }
    requires zones { length origins.now ≤ 16 }
    ensures { ScriptReads result (script_view script.new) (zones.outside origins.now line (phrase_view bytes.now phrase) (script_view script.old)) }
{
    match phrase {
        Phrase::Worker => begin_worker(script, alloc, line),
        Phrase::Gets(name, rtype) => {
            has_room(script, line)?;
            let question = question_of(bytes, line, name, rtype)?;
            add(script, question)
        }
        Phrase::Opens(weight, origin) => {
            has_room(script, line)?;
            let chosen = chosen(bytes, origins, line, origin)?;
            let alone = opened(alloc, line, weight);
            script.block = Some(OpenBlock { chosen, alone });
            Ok(())
        }
        Phrase::Attaches(origin) => {
            has_room(script, line)?;
            let chosen = chosen(bytes, origins, line, origin)?;
            add(script, Command::Attach(chosen.zone))
        }
        Phrase::Detaches(origin) => {
            has_room(script, line)?;
            let chosen = chosen(bytes, origins, line, origin)?;
            add(script, Command::Detach(chosen.zone))
        }
    }
}
