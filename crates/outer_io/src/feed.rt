ghost use Rattle.std.specs.Prelude.{◌≡◌, ◌<◌, ◌≤◌, ◌++◌, [], length, min, take, drop};

use std::marker::Model;

/// Bytes in memory that are given out in pieces.
#[derive(Drop)]
pub struct Feed {
    bytes: Vec<u8>,
    at: usize,
    most: usize,
}

impl Model for Feed {
    ghost use Rattle.std.specs.Prelude.{◌<◌, ◌≤◌, drop, take, length};
    ghost use Rattle.outer_io.specs.Memory.{Pieces};

    ghost Value = { Pieces };

    ghost view = { λ f. record { given = take f.at f.bytes.items; left = drop f.at f.bytes.items; most = f.most } };

    ghost invariant = { λ f. (f.at ≤ length f.bytes.items) × (0 < f.most) };
}

impl Feed {
    /// Nothing is given out yet.
    pub fn new(bytes: Vec<u8>, most: usize) -> Self
        requires { 0 < most }
        ensures given { result.given ≡ [] }
        ensures left { result.left ≡ bytes.items }
        ensures most { result.most ≡ most }
    {
        Feed { bytes, at: 0, most }
    }

    /// Moves the next bytes to the front of the piece.
    pub fn give(&mut self, piece: &mut [u8]) -> usize
        ensures count { result ≡ min self.old.most (min (length piece.old) (length self.old.left)) }
        ensures piece { take result piece.new ≡ take result self.old.left }
        ensures given { self.new.given ≡ self.old.given ++ take result self.old.left }
        ensures left { self.new.left ≡ drop result self.old.left }
        ensures most { self.new.most ≡ self.old.most }
        ensures some { 0 < self.old.most }
    {
        let left = self.bytes.len() - self.at;
        let count = self.most.min(piece.len().min(left));
        piece[..count].copy_from_slice(&self.bytes[self.at..self.at + count]);
        self.at += count;
        count
    }
}
