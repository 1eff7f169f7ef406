//! Text that is gathered in a buffer before it is written.
ghost use Rattle.std.specs.Prelude.{◌≡◌, ◌≤◌, [], OnOk, OnErr, length};
ghost use Rattle.zone_dump.specs.Prelude.{Grows, GrowsByFront, Passes, TellsFailed};

use outer_io::{Failed, Sink, write_all};

/// How many octets are reserved for what is gathered.
pub const RESERVED: usize = 327_680;

// What is gathered is written once it has more octets. One line more is still within what is reserved: an item has 65,535
// octets at most, each printed in four at most.
const LONG: usize = 40_960;

/// Writes what was gathered.
pub fn flush<K: Sink>(text: &mut Vec<u8>, sink: &mut K) -> Result<(), Failed>
    ensures ok { OnOk result (Grows (K.held sink.old) (K.held sink.new) text.old.items) }
    ensures empty { OnOk result (text.new.items ≡ []) }
    ensures err { OnErr result (GrowsByFront (K.held sink.old) (K.held sink.new) text.old.items) }
    ensures faults { TellsFailed result (K.faults sink.old) (K.faults sink.new) }
{
    write_all(sink, text)?;
    text.clear();
    Ok(())
}

/// Writes what was gathered where that is long.
pub fn flush_long<K: Sink>(text: &mut Vec<u8>, sink: &mut K) -> Result<(), Failed>
    ensures ok { OnOk result (Passes (K.held sink.old) (K.held sink.new) text.old.items text.new.items []) }
    ensures short { OnOk result (length text.new.items ≤ 40960) }
    ensures err { OnErr result (GrowsByFront (K.held sink.old) (K.held sink.new) text.old.items) }
    ensures faults { TellsFailed result (K.faults sink.old) (K.faults sink.new) }
{
    if text.len() <= LONG {
        return Ok(());
    }
    flush(text, sink)
}
