//! A session, whose lines are answered one by one.
ghost use Rattle.std.specs.Prelude.{◌≡◌, ◌⊎◌};
ghost use Rattle.qp_main.specs.Prelude.{Rose, SessionRan, TellsSink, TellsSource};
ghost use Rattle.qp_main.specs.Sessions.{EndsBy};

use crate::refusal_lines::{no_room, zone_refused};
use crate::run_report::status_of;
use crate::status::Status;
use crate::writing::{write_answer, write_due};
use command_line::Asked;
use dns_name::Name;
use live_session::{EarlyEnd, live};
use outer_io::{Sink, Source};
use std::alloc::Global;
use std::sync::Wait;

// Writes the last line of a session that ended early, if it has one, and answers the status.
fn write_last<K: Sink>(alloc: Global, end: EarlyEnd, sink: &mut K) -> Status
    ensures ends { EndsBy end (K.held sink.old) (K.held sink.new) result }
    ensures sink_fault { result ≡ Status.SinkFault
        → ((end ≡ EarlyEnd.SinkFault) × (K.faults sink.new ≡ K.faults sink.old))
        ⊎ ((end ≡ EarlyEnd.SinkFault → ⊥) × Rose (K.faults sink.old) (K.faults sink.new)) }
    ensures quiet_sink { (result ≡ Status.SinkFault → ⊥) → (end ≡ EarlyEnd.SinkFault → ⊥) × (K.faults sink.new ≡ K.faults sink.old) }
    ensures source_fault { result ≡ Status.SourceFault → end ≡ EarlyEnd.TalkFault }
    ensures quiet_source { (result ≡ Status.SourceFault → ⊥) → end ≡ EarlyEnd.TalkFault → ⊥ }
{
    match end {
        EarlyEnd::ZoneRefused(refusal) => {
            let line = zone_refused(refusal.line, refusal.kind);
            write_due(sink, Status::ZoneRefused, line.as_slice())
        }
        EarlyEnd::DoesNotFit { cells, limit } => match no_room(alloc, cells, limit) {
            Ok(text) => write_answer(sink, Status::DoesNotFit, &text),
            Err(_) => Status::NoMemory,
        },
        EarlyEnd::ZoneTooLong => write_due(sink, Status::TooLong, b"input over 16777216 bytes\n"),
        EarlyEnd::LineTooLong => write_due(sink, Status::TooLong, b"line over 16777216 bytes\n"),
        EarlyEnd::TalkFault => Status::SourceFault,
        EarlyEnd::SinkFault => Status::SinkFault,
        EarlyEnd::Memory => Status::NoMemory,
    }
}

/// Answers the lines of a session, each before more is read.
pub fn serve_session<R: Wait, S: Source, K: Sink>(
    rt: &R,
    alloc: Global,
    origin: &Name,
    asked: Asked,
    source: &mut S,
    sink: &mut K,
) -> Status
    ensures ran { SessionRan asked.chunks origin.now (S.given source.old) (S.given source.new) (S.ended source.new) (K.held sink.old) (K.held sink.new) result }
    ensures sink { TellsSink K.faults sink.old sink.new result }
    ensures source { TellsSource S.faults source.old source.new result }
{
    match live(rt, alloc, origin, asked.chunks, source, sink) {
        Ok(refused) => status_of(refused),
        Err(end) => write_last(alloc, end, sink),
    }
}
