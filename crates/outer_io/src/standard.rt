//! Readers and writers of std as sources and sinks.
ghost use Rattle.std.specs.Prelude.{◌≡◌, [], false};
ghost use Rattle.outer_io.specs.Bytes.{told_by};

use crate::noting::{Event, Notes};
use crate::schedule::Failed;
use crate::sinks::Sink;
use crate::sources::Source;
use std::io::{Read, Write};
use std::marker::Model;

/// A reader, as standard input. What it gave stands in notes, which take no memory; what is left is told where the reader tells it. Its count of
/// faults stops at its last value.
#[derive(Drop)]
pub struct StdSource<R: Read> {
    inner: R,
    faults: u64,
    notes: Notes,
}

impl<R: Read> Model for StdSource<R> {
    ghost use Rattle.outer_io.specs.Streams.{Reading};

    ghost Value = { Reading };

    ghost view = { λ s. record { given = s.notes.bytes; ended = s.notes.ended; left = R.remaining s.inner; faults = s.faults } };
}

impl<R: Read> StdSource<R> {
    /// No call has failed yet.
    pub fn new(inner: R) -> Self
        ensures given { result.given ≡ [] }
        ensures ended { result.ended ≡ false }
        ensures left { result.left ≡ R.remaining inner }
        ensures faults { result.faults ≡ 0 }
    {
        StdSource {
            inner,
            faults: 0,
            notes: Notes::new(),
        }
    }
}

impl<R: Read> Source for StdSource<R> {
    ghost left = { λ s. s.left };

    ghost given = { λ s. s.given };

    ghost ended = { λ s. s.ended };

    ghost faults = { λ s. s.faults };

    fn read(&mut self, piece: &mut [u8]) -> Result<usize, Failed> {
        match self.inner.read(piece) {
            Ok(count) => {
                self.notes = self.notes.then(&Event::Moved(&piece[..count]));
                if count == 0 {
                    self.notes = self.notes.then(&Event::Ended);
                }
                Ok(count)
            }
            Err(_) => {
                self.faults = self.faults.saturating_add(1);
                Err(Failed)
            }
        }
    }
}

/// A writer, as standard output. What it took stands in notes, which take no memory; what it holds is told where the writer tells it. Its count of
/// faults stops at its last value, and taking nothing of a piece that isn't empty counts as a fault.
#[derive(Drop)]
pub struct StdSink<W: Write> {
    inner: W,
    faults: u64,
    notes: Notes,
}

impl<W: Write> Model for StdSink<W> {
    ghost use Rattle.outer_io.specs.Streams.{Writing};

    ghost Value = { Writing };

    ghost view = { λ s. record { taken = s.notes.bytes; held = W.contents s.inner; faults = s.faults } };
}

impl<W: Write> StdSink<W> {
    /// No call has failed yet.
    pub fn new(inner: W) -> Self
        ensures taken { result.taken ≡ [] }
        ensures held { result.held ≡ W.contents inner }
        ensures faults { result.faults ≡ 0 }
    {
        StdSink {
            inner,
            faults: 0,
            notes: Notes::new(),
        }
    }
}

impl<W: Write> Sink for StdSink<W> {
    ghost held = { λ s. record { taken = s.taken; told = told_by s.held } };

    ghost faults = { λ s. s.faults };

    fn write(&mut self, piece: &[u8]) -> Result<usize, Failed> {
        match self.inner.write(piece) {
            Ok(count) if count > 0 || piece.is_empty() => {
                self.notes = self.notes.then(&Event::Moved(&piece[..count]));
                Ok(count)
            }
            _ => {
                self.faults = self.faults.saturating_add(1);
                Err(Failed)
            }
        }
    }
}
