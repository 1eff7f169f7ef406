//! Several zones and a script over them.
ghost use Rattle.std.specs.Prelude.{◌≡◌, All, Ok, IfOk, IfErr, length, map};
ghost use Rattle.qp_main.specs.Prelude.{AreListed, origins_of, zones_job_of, workers_view, zones_job_on, CanHaveTables, IsScriptOver};
ghost use Rattle.qp_main.specs.Prelude.{ZonesAnswers, AreAllItems, IsAnswerDue, IsRead, IsStop, AllByRecursion, WhereRun, ZonesJobHeard};
ghost use Rattle.zones_threads.specs.Calls.{AllHeard};

use crate::input::Input;
use crate::items::zone_items;
use crate::refusal_lines::no_room;
use crate::refusing::Stop;
use crate::run_report::status_of;
use crate::status::Status;
use command_line::Invocation;
use dns_name::Name;
use index_items::MANY_NAMES;
use job_commands::{Gate, ZoneLaw};
use job_report::Pieces;
use master_file::Zone;
use qp_multi::Blank;
use std::alloc::{AllocError, Global};
use std::sync::Wait;
use std::thread::Threads;
use zone_table::ZoneItems;
use zones_report::{any_refused, print_zones};
use zones_script::ZonesScript;
use zones_threads::{ZonesRan, run_zone_items};

// The table of zones has so many chunks.
const TABLE_CHUNKS: u32 = 512;

// The zones' origins, in order.
fn origins_of(alloc: Global, zones: &[Zone]) -> Result<Vec<Name>, AllocError>
    ensures { IfOk result (λ origins. origins.items ≡ origins_of zones.now) }
{
    let mut origins = Vec::with_capacity(alloc, zones.len())?;
    for zone in zones {
        origins.push(*zone.origin())?;
    }
    Ok(origins)
}

// The items of each zone. More names than memory holds are told as no memory.
fn items_of_zones(alloc: Global, zones: Vec<Zone>) -> Result<Vec<ZoneItems>, AllocError>
    ensures { IfOk result (λ items. AreAllItems zones.items items.items) }
{
    let mut all = Vec::with_capacity(alloc, zones.len())?;
    for zone in zones {
        if zone.len() >= MANY_NAMES {
            return Err(AllocError);
        }
        let origin = *zone.origin();
        let items = zone_items(alloc, zone)?;
        all.push(ZoneItems { origin, items })?;
    }
    Ok(all)
}

// A table for each zone.
fn zone_tables(
    alloc: Global,
    chunks: u32,
    passes: u32,
    zones: usize,
) -> Result<Vec<Blank<ZoneLaw>>, AllocError>
    requires { CanHaveTables chunks passes }
    ensures each { IfOk result (λ blanks. length blanks.items ≡ zones) }
    ensures chunks { IfOk result (λ blanks. All (λ s. s.chunks ≡ chunks) (map (λ b. b.shared.table.shared.key) blanks.items)) }
    ensures passes { IfOk result (λ blanks. All (λ s. s.passes ≡ passes) (map (λ b. b.shared.table.shared.key) blanks.items)) }
{
    let mut blanks = Vec::with_capacity(alloc, zones)?;
    for _zone in 0..zones {
        blanks.push(Blank::new(alloc, chunks, passes)?)?;
    }
    Ok(blanks)
}

// Runs a script over zones that were read, and answers the status and the report.
fn report_zones<R: Threads + Wait + Sync, G: Gate>(
    rt: &R,
    alloc: Global,
    invocation: &Invocation,
    zones: Vec<Zone>,
    script: &ZonesScript,
    gate: &G,
) -> Result<(Status, Pieces), AllocError>
    requires listed { AreListed zones.items }
    requires zones { AllByRecursion IsRead zones.items }
    requires script { IsScriptOver (origins_of zones.items) script.now }
    ensures told { IfOk result (IsAnswerDue (ZonesAnswers invocation.now.chunks (Ok (zones_job_on zones.items (workers_view script.now))))) }
    ensures heard { IfOk result (IsAnswerDue (WhereRun (AllHeard (G.hears gate.now) 1 (workers_view script.now)))) }
{
    let origins = origins_of(alloc, &zones)?;
    let passes = script.workers.len() as u32 + 1;
    let table = Blank::new(alloc, TABLE_CHUNKS, passes)?;
    let blanks = zone_tables(alloc, invocation.chunks, passes, zones.len())?;
    let items = items_of_zones(alloc, zones)?;
    match run_zone_items(rt, alloc, table, blanks, &items, &script.workers, gate)? {
        ZonesRan::Finished(finished) => {
            let refused = any_refused(&finished.done);
            let text = print_zones(alloc, &origins, finished)?;
            Ok((status_of(refused), text))
        }
        ZonesRan::DoesNotFit { cells, limit, .. } => {
            Ok((Status::DoesNotFit, no_room(alloc, cells, limit)?))
        }
    }
}

/// The status and the text for an input of several zones and a script over them.
pub fn answer_zones<R: Threads + Wait + Sync, G: Gate>(
    rt: &R,
    alloc: Global,
    invocation: &Invocation,
    input: Input,
    gate: &G,
) -> Result<(Status, Pieces), Stop>
    ensures told { IfOk result (IsAnswerDue (ZonesAnswers invocation.now.chunks (zones_job_of input))) }
    ensures stops { IfErr result (IsStop (ZonesAnswers invocation.now.chunks (zones_job_of input))) }
    ensures heard { IfOk result (IsAnswerDue (WhereRun (ZonesJobHeard (G.hears gate.now) (zones_job_of input)))) }
    ensures unheard { IfErr result (IsStop (WhereRun (ZonesJobHeard (G.hears gate.now) (zones_job_of input)))) }
{
    let zones = input.zones(alloc)?;
    let origins = origins_of(alloc, &zones)?;
    let script = input.script_over(alloc, &origins)?;
    drop(input);
    let answer = report_zones(rt, alloc, invocation, zones, &script, gate)?;
    Ok(answer)
}
