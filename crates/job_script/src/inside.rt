//! Lines inside a block.
ghost use Rattle.std.specs.Prelude.{◌≡◌, ◌<◌, ◌≤◌, ◌+◌, ◌∷◌, ◌++◌, [], ℕ, List, length, map, Some, None, Option, Ok, Err, Result, IfSome};
ghost use Rattle.job_script.specs.Prelude.{option_map, operation_said, prerequisite_of, IsPlaced, token_view, phrase_view, PhrasePlaced};
ghost use Rattle.job_script.specs.Prelude.{unfinished_view, script_view, ScriptReads, prerequisite_view, IsOneTooMany, IsTold};
ghost use Rattle.job_model.specs.Jobs as jobs;

use crate::changes::{operation_of, prerequisite_of};
use crate::commands::{Block, Command, NEED_LIMIT, OPERATION_LIMIT};
use crate::phrases::Phrase;
use crate::refusal::{JobRefusal, demand, refused, too_many};
use crate::script::{Script, Unfinished};
use crate::words::Line;
use job_model::{Ending, ScriptKind, Weight};
use zone_text::Token;

/// Takes a line, with the block that is open.
pub fn inside(
    script: &mut Script,
    line: Line,
    block: Unfinished,
    phrase: &Phrase,
) -> Result<(), JobRefusal>
    requires none { script.old.block ≡ None }
    requires placed { PhrasePlaced line.bytes.now phrase.now }
    ensures reads { ScriptReads result (script_view script.new) (jobs.inside line.entry.origin.now line.entry.number (unfinished_view block)
        (phrase_view line.entry.origin.now line.entry.bytes.now phrase.now) (script_view script.old)) }
    ensures told { IsOneTooMany block phrase.now → IsTold result }
{
    match phrase {
        Phrase::Worker => Err(refused(block.start, ScriptKind::OpenBlock)),
        Phrase::Asks(_)
        | Phrase::AsksWhole(_, _)
        | Phrase::Holds
        | Phrase::AsksHeld(_)
        | Phrase::AsksHeldWhole(_, _)
        | Phrase::Releases
        | Phrase::Opens(_)
        | Phrase::Compacts => Err(refused(line.number, ScriptKind::BadCommand)),
        Phrase::Needs(wanted, owner, rtype) => need(script, line, block, *wanted, *owner, *rtype),
        Phrase::Adds(_, _, _, _) | Phrase::Deletes(_, _)
            if block.operations.len() >= OPERATION_LIMIT => Err(too_many(line.number, 10000)),
        Phrase::Adds(_, _, _, _) | Phrase::Deletes(_, _) => change(script, line, block, phrase),
        Phrase::Ends(ending) => end_block(script, line.number, block, *ending),
    }
}

// A prerequisite joins a block that has no operation yet, and room for it. This function and the next one stand by
// themselves, since a function clears the room for all names that it may read.
#[inline(never)]
fn need(
    script: &mut Script,
    line: Line,
    mut block: Unfinished,
    wanted: bool,
    owner: Token,
    rtype: Option<Token>,
) -> Result<(), JobRefusal>
    requires none { script.old.block ≡ None }
    requires placed { IsPlaced line.bytes.now owner × IfSome rtype (IsPlaced line.bytes.now) }
    ensures reads { let l = line.entry in ScriptReads result (script_view script.new) (jobs.needed_first l.number (unfinished_view block)
        (script_view script.old) (prerequisite_of l.origin.now l.number wanted (token_view l.bytes.now owner) (option_map (token_view l.bytes.now) rtype))) }
    ensures told { jobs.need_limit ≤ length block.needs.items → IsTold result }
{
    if !block.operations.is_empty() {
        return Err(refused(line.number, ScriptKind::BadCommand));
    }
    if block.needs.len() >= NEED_LIMIT {
        return Err(too_many(line.number, 10000));
    }
    let prerequisite = prerequisite_of(line, wanted, owner, rtype)?;
    block.needs.push(prerequisite)?;
    script.block = Some(block);
    Ok(())
}

// An operation joins a block that has room for it.
#[inline(never)]
fn change(
    script: &mut Script,
    line: Line,
    mut block: Unfinished,
    phrase: &Phrase,
) -> Result<(), JobRefusal>
    requires none { script.old.block ≡ None }
    requires room { length block.operations.items < 10000 }
    requires placed { PhrasePlaced line.bytes.now phrase.now }
    ensures { ScriptReads result (script_view script.new) (jobs.joined line.entry.number (unfinished_view block) (script_view script.old)
        (operation_said line.entry.origin.now line.entry.number (phrase_view line.entry.origin.now line.entry.bytes.now phrase.now))) }
{
    let operation = operation_of(line, phrase)?;
    block.operations.push(operation)?;
    script.block = Some(block);
    Ok(())
}

// Only a heavy transaction may be rolled back.
fn may_end(weight: Weight, ending: Ending) -> bool
    ensures { result ≡ jobs.may_end weight ending }
{
    match (weight, ending) {
        (Weight::Light, Ending::Commit) => true,
        (Weight::Light, Ending::Rollback) => false,
        (Weight::Heavy, Ending::Commit) => true,
        (Weight::Heavy, Ending::Rollback) => true,
    }
}

// A block ends.
fn end_block(
    script: &mut Script,
    line: u32,
    block: Unfinished,
    ending: Ending,
) -> Result<(), JobRefusal>
    requires { script.old.block ≡ None }
    ensures { ScriptReads result (script_view script.new) (jobs.ended line (unfinished_view block) ending (script_view script.old)) }
{
    demand(may_end(block.weight, ending), line, ScriptKind::BadCommand)?;
    script.commands.push(Command::Block(Block {
        weight: block.weight,
        needs: block.needs,
        operations: block.operations,
        ending,
    }))?;
    Ok(())
}
