ghost use Rattle.std.specs.Prelude.{◌≡◌, ◌≤◌, OnOk, OnErr};
ghost use Rattle.outer_io.specs.Prelude.{Rose, Grows, GrowsByFront};

use crate::schedule::Failed;
use crate::sinks::Sink;

/// Writes all the bytes, in as many calls as the sink wants. After `Failed` the sink has a prefix of
/// them.
pub fn write_all<K: Sink>(sink: &mut K, bytes: &[u8]) -> Result<(), Failed>
    ensures ok { OnOk result (Grows (K.held sink.old) (K.held sink.new) bytes.now) }
    ensures err { OnErr result (GrowsByFront (K.held sink.old) (K.held sink.new) bytes.now) }
    ensures quiet { OnOk result (K.faults sink.new ≡ K.faults sink.old) }
    ensures later { K.faults sink.old ≤ K.faults sink.new }
    ensures failed { OnErr result (Rose (K.faults sink.old) (K.faults sink.new)) }
{
    let mut at = 0;
    while at < bytes.len() {
        at += sink.write(&bytes[at..])?;
    }
    Ok(())
}
