//! Text in memory as a sink.
ghost use Rattle.outer_io.specs.Bytes.{held_of};
ghost use Rattle.std.specs.Prelude.{Some};

use outer_io::{Failed, Sink};

/// Text in memory. A call fails where no memory is left, and takes nothing then. The count of faults stops at its last
/// value.
#[derive(Drop)]
pub struct TextSink {
    pub text: Vec<u8>,
    pub faults: u64,
}

impl Sink for TextSink {
    ghost held = { λ s. held_of s.text.items (Some s.text.items) };

    ghost faults = { λ s. s.faults };

    fn write(&mut self, piece: &[u8]) -> Result<usize, Failed> {
        if self.text.extend_from_slice(piece).is_err() {
            self.faults = self.faults.saturating_add(1);
            return Err(Failed);
        }
        Ok(piece.len())
    }
}
