//! The lines of a worker's turns.
ghost use Rattle.std.specs.Prelude.{◌≡◌, ◌<◌, ◌≤◌, ◌+◌, ◌*◌, ◌%◌, ◌++◌, OnOk, codes, decimal};
ghost use Rattle.job_make.specs.Prelude.{flat_map, address_text, line_text, name_text, state_after, turn_lines, turn_of, turns_from, part_view};
ghost use Rattle.job_model.specs.Loads as loads;

use crate::draws::Draws;
use crate::part::Part;
use std::alloc::AllocError;
use zone_text::push_decimal;

/// Pushes the name with a number.
pub fn push_name(out: &mut Vec<u8>, name: u64) -> Result<(), AllocError>
    ensures { OnOk result (out.new.items ≡ out.old.items ++ name_text name) }
{
    out.extend_from_slice(b"n")?;
    push_decimal(out, name)
}

// The address of the network 10 that a number's last three octets say.
fn push_address(out: &mut Vec<u8>, number: u64) -> Result<(), AllocError>
    ensures { OnOk result (out.new.items ≡ out.old.items ++ address_text number) }
{
    out.extend_from_slice(b"10.")?;
    push_decimal(out, number / 65536 % 256)?;
    out.extend_from_slice(b".")?;
    push_decimal(out, number / 256 % 256)?;
    out.extend_from_slice(b".")?;
    push_decimal(out, number % 256)
}

// A question for a name's address.
fn push_get(out: &mut Vec<u8>, name: u64) -> Result<(), AllocError>
    ensures { OnOk result (out.new.items ≡ out.old.items ++ flat_map line_text (turn_lines (loads.Gets name))) }
{
    out.extend_from_slice(b"get ")?;
    push_name(out, name)?;
    out.extend_from_slice(b" A\n")
}

// A transaction that gives a name another address.
fn push_move(out: &mut Vec<u8>, name: u64, address: u64) -> Result<(), AllocError>
    ensures { OnOk result (out.new.items ≡ out.old.items ++ flat_map line_text (turn_lines (loads.Moves name address))) }
{
    out.extend_from_slice(b"write\ndel ")?;
    push_name(out, name)?;
    out.extend_from_slice(b" A\nadd ")?;
    push_name(out, name)?;
    out.extend_from_slice(b" 300 A ")?;
    push_address(out, address)?;
    out.extend_from_slice(b"\ncommit\n")?;
    Ok(())
}

// A transaction that deletes a name.
fn push_removal(out: &mut Vec<u8>, name: u64) -> Result<(), AllocError>
    ensures { OnOk result (out.new.items ≡ out.old.items ++ flat_map line_text (turn_lines (loads.Removes name))) }
{
    out.extend_from_slice(b"update\ndel ")?;
    push_name(out, name)?;
    out.extend_from_slice(b"\ncommit\n")?;
    Ok(())
}

// A question for what there is of a name.
fn push_find(out: &mut Vec<u8>, name: u64) -> Result<(), AllocError>
    ensures { OnOk result (out.new.items ≡ out.old.items ++ flat_map line_text (turn_lines (loads.Finds name))) }
{
    out.extend_from_slice(b"find ")?;
    push_name(out, name)?;
    out.extend_from_slice(b"\n")
}

// One turn, by a choice.
fn push_turn(out: &mut Vec<u8>, choice: u64, name: u64, address: u64) -> Result<(), AllocError>
    ensures { OnOk result (out.new.items ≡ out.old.items ++ flat_map line_text (turn_lines (turn_of choice name address))) }
{
    match choice % 4 {
        0 => push_get(out, name),
        1 => push_move(out, name, address),
        2 => push_removal(out, name),
        _ => push_find(out, name),
    }
}

// The number of one of the worker's names, of which it has some, by a draw.
fn name_of(part: Part, draw: u64) -> u64
    requires { 0 < part.count }
    ensures { result ≡ part.remainder + part.workers * (draw % part.count) }
{
    u64::from(part.remainder) + u64::from(part.workers) * (draw % u64::from(part.count))
}

// The next turn of a worker that has names.
fn push_next(out: &mut Vec<u8>, part: Part, draws: &mut Draws) -> Result<(), AllocError>
    requires { 0 < part.count }
    ensures state { draws.new ≡ loads.state_behind draws.old }
    ensures text { OnOk result (out.new.items ≡ out.old.items ++ flat_map line_text (turn_lines (loads.turn_from (part_view part) draws.old))) }
{
    let choice = draws.draw();
    let picked = draws.draw();
    let address = draws.draw();
    push_turn(out, choice, name_of(part, picked), address)
}

/// Pushes the lines of a worker's turns.
pub fn push_turns(
    out: &mut Vec<u8>,
    part: Part,
    turns: u32,
    draws: &mut Draws,
) -> Result<(), AllocError>
    requires { 0 < part.count }
    ensures state { OnOk result (draws.new ≡ state_after turns draws.old) }
    ensures text { OnOk result (out.new.items ≡ out.old.items ++ flat_map line_text (turns_from (part_view part) turns draws.old)) }
{
    for _turn in 0..turns {
        push_next(out, part, draws)?;
    }
    Ok(())
}
