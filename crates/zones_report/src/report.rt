//! What is printed of commands over several zones.
ghost use Rattle.std.specs.Prelude.{◌≡◌, ◌++◌, ◌+◌, List, OnOk, IfOk, codes, decimal};
ghost use Rattle.job_report.specs.Pieces.{pieces_text};
ghost use Rattle.zones_model.specs.Reports.{change_text, ends_text, table_cause_text, table_end, table_head, zone_end};
ghost use Rattle.zones_report.specs.Texts.{all_text, answer_text, done_text, dones_text, ends_of, finished_text, origin_text, ran_text, zone_version};

use crate::outcomes::{Answer, CommandEnd, CommandEnds, ZonesFinished};
use dns_name::Name;
use job_report::{Outcome, Pieces, append_told, push_pair};
use std::alloc::{AllocError, Global};
use std::collections::BTreeMap;
use zone_text::push_decimal;
use zones_model::TableCause;

// Worker and command.
fn push_number(out: &mut Vec<u8>, worker: u64, command: u64) -> Result<(), AllocError>
    ensures { OnOk result (out.new.items ≡ out.old.items ++ decimal worker ++ codes "." ++ decimal command) }
{
    push_decimal(out, worker)?;
    out.extend_from_slice(b".")?;
    push_decimal(out, command)
}

// Worker, command and the table's version.
fn push_table_head(
    out: &mut Vec<u8>,
    worker: u64,
    command: u64,
    table: u64,
) -> Result<(), AllocError>
    ensures { OnOk result (out.new.items ≡ out.old.items ++ table_head worker command table) }
{
    push_number(out, worker, command)?;
    out.extend_from_slice(b" t")?;
    push_decimal(out, table)?;
    out.extend_from_slice(b" ")
}

// A zone's origin; the root where there is no zone of the number.
fn push_origin(out: &mut Vec<u8>, origins: &[Name], number: u32) -> Result<(), AllocError>
    ensures { OnOk result (out.new.items ≡ out.old.items ++ origin_text origins.now number) }
{
    match origins.get(number as usize) {
        Some(origin) => origin.push_text(out),
        None => Name::root().push_text(out),
    }
}

// A zone's origin and a version of it.
fn push_zone_version(
    out: &mut Vec<u8>,
    origins: &[Name],
    zone: u32,
    version: u64,
) -> Result<(), AllocError>
    ensures { OnOk result (out.new.items ≡ out.old.items ++ zone_version origins.now zone version) }
{
    push_origin(out, origins, zone)?;
    out.extend_from_slice(b" v")?;
    push_decimal(out, version)?;
    out.extend_from_slice(b" ")
}

// The answer of the zone that the table has for the name, if it has one.
fn append_answer(
    out: &mut Pieces,
    origins: &[Name],
    answer: Option<Answer>,
) -> Result<(), AllocError>
    ensures { OnOk result (pieces_text out.new ≡ pieces_text out.old ++ answer_text origins.now answer) }
{
    match answer {
        None => out.last.extend_from_slice(b"NOZONE\n"),
        Some(answer) => {
            push_zone_version(&mut out.last, origins, answer.zone, answer.outcome.version)?;
            append_told(out, answer.outcome.told)
        }
    }
}

// How a transaction of a zone ended.
fn append_ran(
    out: &mut Pieces,
    origins: &[Name],
    worker: u64,
    command: u64,
    zone: u32,
    outcome: Outcome,
) -> Result<(), AllocError>
    ensures { OnOk result (pieces_text out.new ≡ pieces_text out.old ++ ran_text origins.now worker command zone outcome) }
{
    push_number(&mut out.last, worker, command)?;
    out.last.extend_from_slice(b" ")?;
    push_zone_version(&mut out.last, origins, zone, outcome.version)?;
    append_told(out, outcome.told)
}

fn push_refused(out: &mut Vec<u8>, cause: TableCause) -> Result<(), AllocError>
    ensures { OnOk result (out.new.items ≡ out.old.items ++ (codes "REFUSED " ++ table_cause_text cause ++ codes "\n")) }
{
    match cause {
        TableCause::Exists => out.extend_from_slice(b"REFUSED exists\n"),
        TableCause::Missing => out.extend_from_slice(b"REFUSED missing\n"),
        TableCause::Spent => out.extend_from_slice(b"REFUSED spent\n"),
    }
}

// How a change of the table ended: by a word, where it was made.
fn push_change(
    out: &mut Vec<u8>,
    word: &[u8],
    refused: Option<TableCause>,
) -> Result<(), AllocError>
    ensures { OnOk result (out.new.items ≡ out.old.items ++ change_text word.now refused) }
{
    match refused {
        Some(cause) => push_refused(out, cause),
        None => {
            out.extend_from_slice(word)?;
            out.extend_from_slice(b"\n")
        }
    }
}

fn append_done(
    out: &mut Pieces,
    origins: &[Name],
    worker: u64,
    command: u64,
    done: CommandEnd,
) -> Result<(), AllocError>
    ensures { OnOk result (pieces_text out.new ≡ pieces_text out.old ++ done_text origins.now worker command done) }
{
    match done {
        CommandEnd::Got { table, answer } => {
            push_table_head(&mut out.last, worker, command, table)?;
            append_answer(out, origins, answer)
        }
        CommandEnd::Ran { zone, outcome } => append_ran(
            out, origins, worker, command, zone, outcome,
        ),
        CommandEnd::Attached { table, refused } => {
            push_table_head(&mut out.last, worker, command, table)?;
            push_change(&mut out.last, b"ATTACHED", refused)
        }
        CommandEnd::Detached { table, refused } => {
            push_table_head(&mut out.last, worker, command, table)?;
            push_change(&mut out.last, b"DETACHED", refused)
        }
    }
}

fn append_dones(
    out: &mut Pieces,
    origins: &[Name],
    worker: u64,
    list: Vec<CommandEnd>,
) -> Result<(), AllocError>
    ensures { OnOk result (pieces_text out.new ≡ pieces_text out.old ++ dones_text origins.now worker 1 list.items) }
{
    let mut command = 0;
    for done in list {
        command += 1;
        append_done(out, origins, worker, command, done)?;
    }
    Ok(())
}

fn append_all(
    out: &mut Pieces,
    origins: &[Name],
    workers: Vec<CommandEnds>,
) -> Result<(), AllocError>
    ensures { OnOk result (pieces_text out.new ≡ pieces_text out.old ++ all_text origins.now 1 workers.items) }
{
    let mut worker = 0;
    for dones in workers {
        worker += 1;
        append_dones(out, origins, worker, dones.list)?;
    }
    Ok(())
}

// The table's last version, and how many zones it has.
fn push_table_end(out: &mut Vec<u8>, last: u64, count: u64) -> Result<(), AllocError>
    ensures { OnOk result (out.new.items ≡ out.old.items ++ table_end last count) }
{
    push_pair(out, b"end t", last, b" zones ", count)
}

// A zone's last version, and how many names it has.
fn push_zone_end(out: &mut Vec<u8>, origin: &Name, last: u64, names: u64) -> Result<(), AllocError>
    ensures { OnOk result (out.new.items ≡ out.old.items ++ zone_end origin.now last names) }
{
    out.extend_from_slice(b"end ")?;
    origin.push_text(out)?;
    push_pair(out, b" v", last, b" names ", names)
}

// The last versions and their numbers of names, by origin, in canonical order.
fn ends_of(
    alloc: Global,
    origins: &[Name],
    versions: &[u64],
    names: &[u64],
) -> Result<BTreeMap<Name, (u64, u64)>, AllocError>
    ensures { IfOk result (λ by_origin. by_origin.entries ≡ ends_of origins.now versions.now names.now) }
{
    let Some((origin, other_origins)) = origins.split_first() else {
        return Ok(BTreeMap::new(alloc));
    };
    let Some((version, other_versions)) = versions.split_first() else {
        return Ok(BTreeMap::new(alloc));
    };
    let Some((count, other_names)) = names.split_first() else {
        return Ok(BTreeMap::new(alloc));
    };
    let mut by_origin = ends_of(alloc, other_origins, other_versions, other_names)?;
    by_origin.insert(*origin, (*version, *count))?;
    Ok(by_origin)
}

fn push_ends(out: &mut Vec<u8>, ends: &BTreeMap<Name, (u64, u64)>) -> Result<(), AllocError>
    ensures { OnOk result (out.new.items ≡ out.old.items ++ ends_text ends.now.entries) }
{
    for (origin, end) in ends {
        push_zone_end(out, origin, end.0, end.1)?;
    }
    Ok(())
}

/// Prints what commands over the zones of these origins came to, worker by worker, the last version of the table, and the last version
/// of each zone in the canonical order of their origins. What a command came to goes once it is printed.
pub fn print_zones(
    alloc: Global,
    origins: &[Name],
    finished: ZonesFinished,
) -> Result<Pieces, AllocError>
    ensures { IfOk result (λ text. pieces_text text ≡ finished_text origins.now finished) }
{
    let ends = ends_of(alloc, origins, &finished.versions, &finished.names)?;
    let mut out = Pieces::of(alloc, Vec::new(alloc));
    append_all(&mut out, origins, finished.done)?;
    push_table_end(&mut out.last, finished.table, finished.attached)?;
    push_ends(&mut out.last, &ends)?;
    Ok(out)
}
