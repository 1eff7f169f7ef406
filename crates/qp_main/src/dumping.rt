//! A zone that is written as a master file.
ghost use Rattle.std.specs.Prelude.{◌≡◌, Ok, true};
ghost use Rattle.qp_main.specs.Prelude.{CanBeDumped, zone_said, Dumps, ServesDue, TellsSink};

use crate::input::Input;
use crate::refusal_lines::no_room;
use crate::refusing::Stop;
use crate::status::Status;
use crate::writing::{write_answer, write_due};
use command_line::Invocation;
use index_items::zone_size;
use master_file::Zone;
use outer_io::Sink;
use qp_multi::room_in;
use std::alloc::Global;
use zone_dump::{DumpRefusal, dump_zone};
use zone_model::Style;

// Writes a zone if it fits into the chunks. Whether it does is counted before a byte is written, and no index is made.
fn write_zone<K: Sink>(
    alloc: Global,
    invocation: &Invocation,
    zone: &Zone,
    style: Style,
    sink: &mut K,
) -> Status
    requires zone { CanBeDumped invocation.now.origin zone.now.pairs }
    requires origin { zone.now.origin ≡ invocation.now.origin }
    ensures due { ServesDue true (Dumps invocation.now.chunks style invocation.now.origin (Ok zone.now.pairs)) (K.held sink.old) (K.held sink.new) result }
    ensures sink { TellsSink K.faults sink.old sink.new result }
{
    let Ok(size) = zone_size(alloc, zone) else {
        return Status::NoMemory;
    };
    let cells = size.cells();
    let limit = room_in(invocation.chunks);
    if cells > limit {
        return match no_room(alloc, cells, limit) {
            Ok(text) => write_answer(sink, Status::DoesNotFit, &text),
            Err(_) => Status::NoMemory,
        };
    }
    match dump_zone(alloc, zone, style, sink) {
        Ok(_) => Status::Done,
        Err(DumpRefusal::Fault) => Status::SinkFault,
        Err(DumpRefusal::Memory) => Status::NoMemory,
    }
}

/// Writes the zone of an input. It is written while it is made, so where memory runs out a front may stand.
pub fn dump_input<K: Sink>(
    alloc: Global,
    invocation: &Invocation,
    style: Style,
    input: Input,
    sink: &mut K,
) -> Status
    ensures due { ServesDue true (Dumps invocation.now.chunks style invocation.now.origin (zone_said invocation.now.origin input))
        (K.held sink.old) (K.held sink.new) result }
    ensures sink { TellsSink K.faults sink.old sink.new result }
{
    let zone = match input.zone(alloc, &invocation.origin) {
        Ok(zone) => zone,
        Err(Stop::Refused(status, line)) => return write_due(sink, status, line.as_slice()),
        Err(Stop::Memory) => return Status::NoMemory,
    };
    drop(input);
    write_zone(alloc, invocation, &zone, style, sink)
}
