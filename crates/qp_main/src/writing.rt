//! What is due is written.
ghost use Rattle.std.specs.Prelude.{◌≡◌, OnErr, OnOk};
ghost use Rattle.qp_main.specs.Prelude.{flat_map, Rose, Grows, GrowsByFront, pieces_text, IsWritten, TellsSink};

use crate::status::Status;
use job_report::Pieces;
use outer_io::{Failed, Sink, write_all};

/// Writes the text that is due under a status, and answers the status that comes of it.
pub fn write_due<K: Sink>(sink: &mut K, status: Status, text: &[u8]) -> Status
    requires { IsWritten status }
    ensures whole { IsWritten result → (result ≡ status) × Grows (K.held sink.old) (K.held sink.new) text.now }
    ensures sink { TellsSink K.faults sink.old sink.new result }
    ensures front { result ≡ Status.SinkFault → GrowsByFront (K.held sink.old) (K.held sink.new) text.now }
    ensures only { (result ≡ Status.SourceFault → ⊥) × (result ≡ Status.NoMemory → ⊥) }
{
    match write_all(sink, text) {
        Ok(()) => status,
        Err(_) => Status::SinkFault,
    }
}

// Writes texts one behind the other.
fn write_each<K: Sink>(sink: &mut K, texts: &[Vec<u8>]) -> Result<(), Failed>
    ensures ok { OnOk result (Grows (K.held sink.old) (K.held sink.new) (flat_map (λ text. text.items) texts.now)) }
    ensures err { OnErr result (GrowsByFront (K.held sink.old) (K.held sink.new) (flat_map (λ text. text.items) texts.now)) }
    ensures quiet { OnOk result (K.faults sink.new ≡ K.faults sink.old) }
    ensures failed { OnErr result (Rose (K.faults sink.old) (K.faults sink.new)) }
{
    for text in texts {
        write_all(sink, text)?;
    }
    Ok(())
}

// Writes all pieces.
fn write_pieces<K: Sink>(sink: &mut K, text: &Pieces) -> Result<(), Failed>
    ensures ok { OnOk result (Grows (K.held sink.old) (K.held sink.new) (pieces_text text.now)) }
    ensures err { OnErr result (GrowsByFront (K.held sink.old) (K.held sink.new) (pieces_text text.now)) }
    ensures quiet { OnOk result (K.faults sink.new ≡ K.faults sink.old) }
    ensures failed { OnErr result (Rose (K.faults sink.old) (K.faults sink.new)) }
{
    write_each(sink, &text.whole)?;
    write_all(sink, &text.last)
}

/// Writes the text in pieces that is due under a status, and answers the status that comes of it.
pub fn write_answer<K: Sink>(sink: &mut K, status: Status, text: &Pieces) -> Status
    requires { IsWritten status }
    ensures whole { IsWritten result → (result ≡ status) × Grows (K.held sink.old) (K.held sink.new) (pieces_text text.now) }
    ensures sink { TellsSink K.faults sink.old sink.new result }
    ensures front { result ≡ Status.SinkFault → GrowsByFront (K.held sink.old) (K.held sink.new) (pieces_text text.now) }
    ensures only { (result ≡ Status.SourceFault → ⊥) × (result ≡ Status.NoMemory → ⊥) }
{
    match write_pieces(sink, text) {
        Ok(()) => status,
        Err(_) => Status::SinkFault,
    }
}
