//! The dump of a zone that a master file says. A proof computes with a text that it sees, so texts are passed to functions.
ghost use Rattle.std.specs.Prelude.{◌<◌};

use dns_name::Name;
use master_file::read_zone;
use outer_io::MemSink;
use std::alloc::Global;
use std::test::Fail;
use zone_dump::{DumpRefusal, Style, dump_zone};

/// What became of a dump of the zone of an origin that a text says, and what the sink has. The sink takes at most so many bytes a
/// call, and its calls with these numbers fail.
pub(crate) fn dumped(
    alloc: Global,
    text: &[u8],
    origin: &[u8],
    style: Style,
    most: usize,
    fails: &[u64],
) -> Result<(Result<u64, DumpRefusal>, Vec<u8>), Fail>
    requires { 0 < most }
{
    if text.len() > 100_000 {
        return Err(Fail::from("a long text"));
    }
    let origin = Name::read(origin, &Name::root())?;
    let mut sink = MemSink::new(alloc, 100_000, most, Vec::from_slice(alloc, fails)?)?;
    let zone = read_zone(alloc, text, &origin)?;
    let told = dump_zone(alloc, &zone, style, &mut sink);
    Ok((told, Vec::from_slice(alloc, sink.held().ok_or("no room")?)?))
}
