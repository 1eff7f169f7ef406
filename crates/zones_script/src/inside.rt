//! Lines inside a block.
ghost use Rattle.std.specs.Prelude.{◌≡◌, ◌<◌, ◌≤◌, ◌+◌, ◌^◌, ◌++◌, length, IfOk, map, Some, None, Ok, Err, Result};
ghost use Rattle.job_model.specs.Jobs as says;
ghost use Rattle.job_script.specs.Views.{command_view};
ghost use Rattle.zones_script.specs.Prelude.{alone_view, script_view, chosen_view, open_view, ScriptReads, LineSteps};
ghost use Rattle.zones_script.specs.Scripts as zones;

use crate::commands::Command;
use crate::script::{Chosen, OpenBlock, Script};
use job_script::{Command as AloneCommand, JobRefusal, Script as Alone, script_line};
use std::alloc::Global;
use zone_text::Token;

// The block that a script alone has come to joins the worker's commands.
fn join(script: &mut Script, zone: u32, mut commands: Vec<AloneCommand>) -> Result<(), JobRefusal>
    requires none { script.old.block ≡ None }
    ensures { ScriptReads result (script_view script.new) (Ok (zones.joined zone (map command_view commands.items) (script_view script.old))) }
{
    if commands.is_empty() {
        return Ok(());
    }
    if let AloneCommand::Block(block) = commands.remove(0) {
        script.commands.push(Command::Block { zone, block })?;
    }
    Ok(())
}

// A line was taken into a block: it goes on, or has ended.
fn go_on(script: &mut Script, chosen: Chosen, alone: Alone) -> Result<(), JobRefusal>
    requires none { script.old.block ≡ None }
    ensures { (before : says.Script)
        → ScriptReads result (script_view script.new)
        (Ok (zones.goes_on (record { chosen = chosen_view chosen; alone = before }) (script_view script.old) (alone_view alone))) }
{
    if alone.block.is_some() {
        script.block = Some(OpenBlock { chosen, alone });
        return Ok(());
    }
    let Alone { commands, .. } = alone;
    join(script, chosen.zone, commands)
}

/// Takes the line that begins at a place into a block that is open; the place where the next one begins.
pub fn take_inside(
    script: &mut Script,
    alloc: Global,
    bytes: &[u8],
    block: OpenBlock,
    at: u32,
    line: u32,
    lent: &mut Vec<Token>,
) -> Result<u32, JobRefusal>
    requires none { script.old.block ≡ None }
    requires inside { at < length bytes.now }
    requires short { length bytes.now ≤ 2 ^ 24 }
    ensures steps { LineSteps result bytes.now at (λ text. zones.inside line text (open_view block) (script_view script.old)) (script_view script.new) }
    ensures next { IfOk result (λ next. (at < next) × (next ≤ length bytes.now)) }
{
    let OpenBlock { chosen, mut alone } = block;
    let next = script_line(&mut alone, alloc, bytes, &chosen.origin, at, line, lent)?;
    go_on(script, chosen, alone)?;
    Ok(next)
}
