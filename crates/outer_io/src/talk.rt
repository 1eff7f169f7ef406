ghost use Rattle.std.specs.Prelude.{◌≡◌, ◌<◌, ◌≤◌, ℕ, List, ◌++◌, Bool, IsTrue, Option, take, length, IfOk, OnOk, OnErr};
ghost use Rattle.outer_io.specs.Prelude.{Consumes, IsAtEnd, Keeps, Rose};

use crate::schedule::Failed;
use crate::sinks::Sink;
use crate::sources::Source;

/// Where bytes come from, if what is due for the bytes that came lies in a sink before more are asked for.
pub trait Talk<K: Sink> {
    /// The bytes that are still to come, where they are told.
    ghost left: { Self → Option (List ℕ) };

    /// All bytes that were read.
    ghost given: { Self → List ℕ };

    /// A read told the end of input.
    ghost ended: { Self → Bool };

    /// How many calls have failed.
    ghost faults: { Self → ℕ };

    /// What was read, and all that the sink took, are such that more may be asked for. Code that is generic over talks learns of this
    /// rule by its own `requires` alone, so a talk that lets all pass frees it of nothing.
    ghost is_settled: { List ℕ → List ℕ → Type 0 } = { λ _ _. Unit {0} };

    /// Moves the next bytes to the front of the piece, and answers how many. None for a piece that
    /// isn't empty is the end of input. It may wait, so what is due has to lie in the sink.
    fn ask(&mut self, sink: &K, piece: &mut [u8]) -> Result<usize, Failed>
        requires settled { is_settled (given self.old) (K.held sink.now).taken }
        ensures bound { IfOk result (λ n. n ≤ length piece.new) }
        ensures ok { IfOk result (λ n. Consumes (left self.old) (left self.new) (take n piece.new)) }
        ensures gave { IfOk result (λ n. given self.new ≡ given self.old ++ take n piece.new) }
        ensures end { IfOk result (λ n. n ≡ 0 → 0 < length piece.new → IsAtEnd (left self.new)) }
        ensures ended { IfOk result (λ n. n ≡ 0 → 0 < length piece.new → IsTrue (ended self.new)) }
        ensures err { OnErr result (Keeps (left self.old) (left self.new)) }
        ensures unmoved { OnErr result (given self.new ≡ given self.old) }
        ensures quiet { OnOk result (faults self.new ≡ faults self.old) }
        ensures later { faults self.old ≤ faults self.new }
        ensures failed { OnErr result (Rose (faults self.old) (faults self.new)) };
}

/// A source lets all pass.
impl<K: Sink, S: Source> Talk<K> for S {
    ghost left = { λ s. S.left s };

    ghost given = { λ s. S.given s };

    ghost ended = { λ s. S.ended s };

    ghost faults = { λ s. S.faults s };

    fn ask(&mut self, _sink: &K, piece: &mut [u8]) -> Result<usize, Failed> {
        self.read(piece)
    }
}
