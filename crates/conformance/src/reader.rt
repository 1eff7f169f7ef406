//! Reads a file of cases.
use crate::case::{Calls, Case, Cut, InTurn, ZONE, command_line};
use anyhow::{Context, bail};
use std::alloc::Global;

/// The cases of a file.
pub(crate) fn read_cases(alloc: Global, text: &str) -> anyhow::Result<Vec<Case>> {
    let mut cases = Vec::new(alloc);
    for line in text.lines() {
        if let Some(name) = line.strip_prefix("= ") {
            cases.push(Case::new(alloc, name)?)?;
        } else if !line.is_empty() && !line.starts_with('#') {
            let case = cases.last_mut().context("no case has begun")?;
            read_line(alloc, line, case)?;
        }
    }
    Ok(cases)
}

/// What a line says of its case.
fn read_line(alloc: Global, line: &str, case: &mut Case) -> anyhow::Result<()> {
    let (kind, rest) = line.split_once(' ').unwrap_or((line, ""));
    match kind {
        "|" | "+" | "*" | "x" | "n" => push_into(case, kind, rest)?,
        "zone" => case.input.push_str(ZONE)?,
        "words" => case.words = command_line(alloc, rest)?,
        "read" => case.reads = read_calls(alloc, rest)?,
        "write" => case.writes = read_calls(alloc, rest)?,
        "due" => {
            case.status = rest.parse::<u8>()?;
            case.outputs.push(String::new(alloc))?;
        }
        "or" => case.outputs.push(String::new(alloc))?,
        "each" if rest == "read" => case.in_turn = InTurn::Reads,
        "each" if rest == "write" => case.in_turn = InTurn::Writes,
        "cut" => case.cuts.push(read_cut(alloc, rest)?)?,
        _ => bail!("no line of a case begins with {kind}"),
    }
    Ok(())
}

/// The text that lines go into: the last output that has begun, or before that the input.
fn text_of(case: &mut Case) -> &mut String {
    match case.outputs.last_mut() {
        Some(output) => output,
        None => &mut case.input,
    }
}

/// Puts a line's text behind what a cut input gives, if the case has come to that.
fn push_into(case: &mut Case, kind: &str, rest: &str) -> anyhow::Result<()> {
    if let Some(cut) = case.cuts.last_mut() {
        return push_text(&mut cut.output, kind, rest);
    }
    push_text(text_of(case), kind, rest)
}

/// The most bytes that are left, and the status.
fn read_cut(alloc: Global, text: &str) -> anyhow::Result<Cut> {
    let (upto, status) = text.split_once(' ').context("no status of a cut")?;
    Ok(Cut {
        upto: upto.parse::<usize>()?,
        status: status.parse::<u8>()?,
        output: String::new(alloc),
    })
}

/// Puts a line's text behind what there is.
fn push_text(text: &mut String, kind: &str, rest: &str) -> anyhow::Result<()> {
    match kind {
        "+" => text.push_str(rest)?,
        "*" => {
            let (count, part) = rest.split_once(' ').unwrap_or((rest, "\n"));
            for _ in 0..count.parse::<u32>()? {
                text.push_str(part)?;
            }
        }
        "x" => {
            let (count, line) = rest.split_once(' ').unwrap_or((rest, ""));
            for _ in 0..count.parse::<u32>()? {
                push_line(text, line)?;
            }
        }
        "n" => push_numbered(text, rest)?,
        _ => push_line(text, rest)?,
    }
    Ok(())
}

/// Puts the line behind for each number from one to another.
fn push_numbered(text: &mut String, rest: &str) -> anyhow::Result<()> {
    let (from, behind) = rest.split_once(' ').context("no last number")?;
    let (to, line) = behind.split_once(' ').context("no line")?;
    let (front, back) = line.split_once('#').unwrap_or((line, ""));
    for number in from.parse::<u32>()?..=to.parse::<u32>()? {
        writeln!(text, "{front}{number}{back}")?;
    }
    Ok(())
}

fn push_line(text: &mut String, line: &str) -> anyhow::Result<()> {
    text.push_str(line)?;
    text.push('\n')?;
    Ok(())
}

/// How many bytes a call moves, and the numbers of the calls that fail.
fn read_calls(alloc: Global, text: &str) -> anyhow::Result<Calls> {
    let mut numbers = text.split_whitespace();
    let first = numbers.next().context("no number of bytes")?;
    let most = first.parse::<usize>()?;
    if most == 0 {
        bail!("no bytes in a call");
    }
    let mut fails = Vec::new(alloc);
    for number in numbers {
        fails.push(number.parse::<u64>()?)?;
    }
    Ok(Calls { most, fails })
}
