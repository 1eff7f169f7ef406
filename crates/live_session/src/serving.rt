//! A session from its first byte to its last.
ghost use Rattle.std.specs.Prelude.{◌⊎◌, ◌≤◌, ◌++◌, ◌^◌, ℕ, List, IsTrue, IsErrOf, IfOk, IfSome, OnOk, length};
ghost use Rattle.live_session.specs.Prelude.{BlamesEach, CanBeDumped, Held, Reads, ReadsToEnd, Refuses, entries_of_items, lines_of, zone_of};
ghost use Rattle.live_session.specs.Dues.{IsSettled};
ghost use Rattle.live_session.specs.Ends.{ZoneStops};
ghost use Rattle.live_session.specs.Servings.{CanLiveOn, CanServeNamed, CanServeOpened, EndsSo, ServesNamed, ServesOpened};
ghost use Rattle.live_session.specs.Zones.{TookZone};

use crate::chunks::chunks_for;
use crate::early::EarlyEnd;
use crate::seat::Seat;
use crate::taking::take_zone;
use crate::zone::ZoneBytes;
use dns_name::Name;
use index_items::{zone_items, zone_size};
use job_commands::{WorkerScratch, ZoneLaw};
use job_threads::{open_for_one, seat_worker, table_for_one};
use master_file::{Zone, read_zone};
use outer_io::{Sink, Talk};
use qp_multi::{Blank, Index, Named, OpenRefusal, Pass};
use session_lines::Intake;
use session_talk::serve;
use std::alloc::Global;
use std::marker::Brand;
use std::sync::Wait;
use trie_write::Item;
use zone_model::ZoneKind;
use zone_text::ZoneRefusal;

// Serves the lines behind a zone whose index was opened.
fn serve_opened<R: Wait, N: Named, K: Sink, T: Talk<K>>(
    rt: &R,
    alloc: Global,
    origin: &Name,
    index: &Index<ZoneLaw, N>,
    passes: Vec<Pass<N>>,
    names: u64,
    first: u64,
    intake: &mut Intake,
    talk: &mut T,
    sink: &mut K,
) -> Result<bool, EarlyEnd>
    requires { CanServeOpened T.is_settled origin.now index.now passes.items names first (T.given talk.old) (K.held sink.old) intake.old }
    ensures served { ServesOpened T.given K.held origin.now index.now passes.items names first talk.old talk.new sink.old sink.new intake.old result }
    ensures reads { ReadsToEnd result EarlyEnd.TalkFault intake.old.ended talk.old talk.new (T.given talk.new) (T.ended talk.new) }
    ensures faults { BlamesEach result EarlyEnd.SinkFault EarlyEnd.TalkFault (K.faults sink.old) (K.faults sink.new) (T.faults talk.old) (T.faults talk.new) }
{
    let seat = Seat {
        rt,
        alloc,
        origin,
        index,
        passes: seat_worker(index, origin, passes),
        room: WorkerScratch::new(alloc)?,
    };
    let refused = serve(alloc, origin, seat, first, names, intake, talk, sink)?;
    Ok(refused)
}

// Serves the lines behind a zone that stands as these items, on a table that is named.
fn serve_named<R: Wait, N: Named, K: Sink, T: Talk<K>>(
    rt: &R,
    alloc: Global,
    origin: &Name,
    blank: Blank<ZoneLaw>,
    items: &[Item],
    first: u64,
    intake: &mut Intake,
    talk: &mut T,
    sink: &mut K,
) -> Result<bool, EarlyEnd>
    requires { CanServeNamed N.tables T.is_settled blank origin.now items.now first (T.given talk.old) (K.held sink.old) intake.old }
    ensures served { ServesNamed T.given K.held blank origin.now items.now first talk.old talk.new sink.old sink.new intake.old result }
    ensures memory { IsErrOf result EarlyEnd.Memory → Refuses blank.shared.table.shared.key.chunks (entries_of_items items.now) OpenRefusal.Memory }
    ensures reads { ReadsToEnd result EarlyEnd.TalkFault intake.old.ended talk.old talk.new (T.given talk.new) (T.ended talk.new) }
    ensures faults { BlamesEach result EarlyEnd.SinkFault EarlyEnd.TalkFault (K.faults sink.old) (K.faults sink.new) (T.faults talk.old) (T.faults talk.new) }
{
    let names = items.len() as u64;
    match open_for_one::<N>(alloc, blank, origin, items) {
        Ok((index, passes)) => serve_opened::<R, N, K, T>(
            rt, alloc, origin, &index, passes, names, first, intake, talk, sink,
        ),
        Err(OpenRefusal::Full { cells, limit }) => Err(EarlyEnd::DoesNotFit { cells, limit }),
        Err(OpenRefusal::Memory) => Err(EarlyEnd::Memory),
    }
}

// The zone that octets say. It is one of the origin.
fn zone_in(alloc: Global, bytes: &[u8], origin: &Name) -> Result<Zone, ZoneRefusal>
    requires short { length bytes.now ≤ 2 ^ 24 }
    ensures zone { Reads result (λ z. z.pairs) (zone_of origin.now (lines_of bytes.now)) }
    ensures of_origin { IfOk result (λ z. CanBeDumped origin.now z.pairs) }
{
    let _wire = origin.wire(); // for the proof: it is a name
    read_zone(alloc, bytes, origin)
}

// Why a session ends whose zone its reader refused.
fn zone_end(refusal: ZoneRefusal) -> EarlyEnd
    ensures { ZoneStops refusal result }
{
    match refusal.kind {
        ZoneKind::Memory => EarlyEnd::Memory,
        _ => EarlyEnd::ZoneRefused(refusal),
    }
}

// The session over a zone that was taken.
fn live_on<R: Wait, K: Sink, T: Talk<K>>(
    rt: &R,
    alloc: Global,
    origin: &Name,
    asked: Option<u32>,
    taken: ZoneBytes,
    intake: &mut Intake,
    talk: &mut T,
    sink: &mut K,
) -> Result<bool, EarlyEnd>
    requires { CanLiveOn T.is_settled asked origin.now taken (T.given talk.old) (T.ended talk.old) (K.held sink.old) intake.old }
    ensures ended_so { (before : List ℕ) → TookZone before (T.given talk.old) (T.ended talk.old) intake.old taken
        → EndsSo asked origin.now before (T.given talk.new) (T.ended talk.new) (K.held sink.old) (K.held sink.new) result }
    ensures ended { OnOk result (IsTrue (T.ended talk.new) ⊎ (2 ^ 46 ≤ length (T.given talk.new))) }
    ensures faults { BlamesEach result EarlyEnd.SinkFault EarlyEnd.TalkFault (K.faults sink.old) (K.faults sink.new) (T.faults talk.old) (T.faults talk.new) }
{
    let first = taken.lines + 1;
    let zone = match zone_in(alloc, &taken.bytes, origin) {
        Ok(zone) => zone,
        Err(refusal) => return Err(zone_end(refusal)),
    };
    drop(taken);
    let size = zone_size(alloc, &zone)?;
    let chunks = chunks_for(asked, size.cells());
    let blank = table_for_one(alloc, chunks)?;
    let items = zone_items(alloc, zone)?;
    serve_named::<R, Brand, K, T>(rt, alloc, origin, blank, &items, first, intake, talk, sink)
}

/// Reads a zone up to a line `%%`, and answers the lines behind it, each before more is asked for, to the end of input or to the 2^46th read.
/// Tells whether anything was refused. Where the number of chunks isn't asked for, it is the least from 64 to 4,096 that has room for four
/// times the zone's cells, or 4,096.
pub fn live<R: Wait, K: Sink, T: Talk<K>>(
    rt: &R,
    alloc: Global,
    origin: &Name,
    asked: Option<u32>,
    talk: &mut T,
    sink: &mut K,
) -> Result<bool, EarlyEnd>
    requires asked { IfSome asked (λ n. (16 ≤ n) × (n ≤ 4096)) }
    requires may { (bytes : List ℕ) (now : Held) → IsSettled asked origin.now bytes (K.held sink.old) now → T.is_settled (T.given talk.old ++ bytes) now.taken }
    ensures ended_so { EndsSo asked origin.now (T.given talk.old) (T.given talk.new) (T.ended talk.new) (K.held sink.old) (K.held sink.new) result }
    ensures ended { OnOk result (IsTrue (T.ended talk.new) ⊎ (2 ^ 46 ≤ length (T.given talk.new))) }
    ensures faults { BlamesEach result EarlyEnd.SinkFault EarlyEnd.TalkFault (K.faults sink.old) (K.faults sink.new) (T.faults talk.old) (T.faults talk.new) }
{
    let mut intake = Intake::new(alloc)?;
    let taken = take_zone(alloc, &mut intake, talk, sink)?;
    live_on(rt, alloc, origin, asked, taken, &mut intake, talk, sink)
}
