ghost use Rattle.std.specs.Prelude.{◌≡◌, ◌<◌, ◌≤◌, ◌↔◌, ℕ, List, [], ◌++◌, ◌==◌, Bool, IsTrue, Option, Some, take, length, min};
ghost use Rattle.std.specs.Prelude.{IsErr, IfOk, OnOk, IsOkAnd, OnErr, Contains};
ghost use Rattle.outer_io.specs.Prelude.{Consumes, IsAtEnd, Keeps, Rose, next_count};

use crate::feed::Feed;
use crate::schedule::{Failed, Schedule};
use std::marker::Model;

/// Where bytes come from.
pub trait Source {
    /// The bytes that are still to come, where the source tells them.
    ghost left: { Self → Option (List ℕ) };

    /// All bytes that were read since the source was made.
    ghost given: { Self → List ℕ };

    /// A read told the end of input.
    ghost ended: { Self → Bool };

    /// How many calls have failed.
    ghost faults: { Self → ℕ };

    /// Moves the next bytes to the front of the piece, and answers how many. None for a piece that
    /// isn't empty is the end of input.
    fn read(&mut self, piece: &mut [u8]) -> Result<usize, Failed>
        ensures bound { IfOk result (λ n. n ≤ length piece.new) }
        ensures ok { IfOk result (λ n. Consumes (left self.old) (left self.new) (take n piece.new)) }
        ensures gave { IfOk result (λ n. given self.new ≡ given self.old ++ take n piece.new) }
        ensures end { IfOk result (λ n. n ≡ 0 → 0 < length piece.new → IsAtEnd (left self.new)) }
        ensures ended { IfOk result (λ n. n ≡ 0 → 0 < length piece.new → IsTrue (ended self.new)) }
        ensures err { OnErr result (Keeps (left self.old) (left self.new)) }
        ensures unmoved { OnErr result (given self.new ≡ given self.old) }
        ensures quiet { OnOk result (faults self.new ≡ faults self.old) }
        ensures later { faults self.old ≤ faults self.new }
        ensures failed { OnErr result (Rose (faults self.old) (faults self.new)) };
}

/// Bytes in memory. The calls with given numbers fail, and move nothing.
#[derive(Drop)]
pub struct MemSource {
    feed: Feed,
    schedule: Schedule,
}

impl Model for MemSource {
    ghost use Rattle.outer_io.specs.Memory.{SourceState};

    ghost Value = { SourceState };

    ghost view = { λ s. record { given = s.feed.given; left = s.feed.left; most = s.feed.most; calls = s.schedule } };
}

impl MemSource {
    /// The calls with the numbers of `fails`, from 1, fail. The others give at most `most` bytes.
    pub fn new(bytes: Vec<u8>, most: usize, fails: Vec<u64>) -> Self
        requires { 0 < most }
        ensures given { result.given ≡ [] }
        ensures left { result.left ≡ bytes.items }
        ensures most { result.most ≡ most }
        ensures fails { result.calls.fails ≡ fails.items }
        ensures made { result.calls.made ≡ 0 }
        ensures faults { result.calls.faults ≡ 0 }
    {
        MemSource {
            feed: Feed::new(bytes, most),
            schedule: Schedule::new(fails),
        }
    }
}

impl Source for MemSource {
    ghost left = { λ s. Some s.left };

    ghost given = { λ s. s.given };

    ghost ended = { λ s. length s.left == 0 };

    ghost faults = { λ s. s.calls.faults };

    fn read(&mut self, piece: &mut [u8]) -> Result<usize, Failed>
        ensures bound { IfOk result (λ n. n ≤ length piece.new) }
        ensures ok { IfOk result (λ n. self.old.left ≡ take n piece.new ++ self.new.left) }
        ensures gave { IfOk result (λ n. self.new.given ≡ self.old.given ++ take n piece.new) }
        ensures end { IfOk result (λ n. n ≡ 0 → 0 < length piece.new → self.new.left ≡ []) }
        ensures ended { IfOk result (λ n. n ≡ 0 → 0 < length piece.new → IsTrue (length self.new.left == 0)) }
        ensures err { OnErr result (self.new.left ≡ self.old.left) }
        ensures unmoved { OnErr result (self.new.given ≡ self.old.given) }
        ensures quiet { OnOk result (self.new.calls.faults ≡ self.old.calls.faults) }
        ensures later { self.old.calls.faults ≤ self.new.calls.faults }
        ensures failed { OnErr result (Rose self.old.calls.faults self.new.calls.faults) }

        ensures fails { IsErr result ↔ Contains self.old.calls.fails (next_count self.old.calls.made) }
        ensures count { IfOk result (λ n. n ≡ min self.old.most (min (length piece.old) (length self.old.left))) }
        ensures made { self.new.calls.made ≡ next_count self.old.calls.made }
        ensures same { (self.new.most ≡ self.old.most) × (self.new.calls.fails ≡ self.old.calls.fails) }
    {
        self.schedule.call()?;
        Ok(self.feed.give(piece))
    }
}

/// Bytes in memory. No call fails.
#[derive(Drop)]
pub struct QuietSource {
    feed: Feed,
}

impl Model for QuietSource {
    ghost use Rattle.outer_io.specs.Memory.{Pieces};

    ghost Value = { Pieces };

    ghost view = { λ s. s.feed };
}

impl QuietSource {
    /// Each call gives at most `most` bytes.
    pub fn new(bytes: Vec<u8>, most: usize) -> Self
        requires { 0 < most }
        ensures given { result.given ≡ [] }
        ensures left { result.left ≡ bytes.items }
        ensures most { result.most ≡ most }
    {
        QuietSource {
            feed: Feed::new(bytes, most),
        }
    }
}

impl Source for QuietSource {
    ghost left = { λ s. Some s.left };

    ghost given = { λ s. s.given };

    ghost ended = { λ s. length s.left == 0 };

    ghost faults = { λ _. 0 };

    fn read(&mut self, piece: &mut [u8]) -> Result<usize, Failed>
        ensures bound { IfOk result (λ n. n ≤ length piece.new) }
        ensures ok { IfOk result (λ n. self.old.left ≡ take n piece.new ++ self.new.left) }
        ensures gave { IfOk result (λ n. self.new.given ≡ self.old.given ++ take n piece.new) }
        ensures end { IfOk result (λ n. n ≡ 0 → 0 < length piece.new → self.new.left ≡ []) }
        ensures ended { IfOk result (λ n. n ≡ 0 → 0 < length piece.new → IsTrue (length self.new.left == 0)) }
        ensures err { OnErr result (self.new.left ≡ self.old.left) }
        ensures unmoved { OnErr result (self.new.given ≡ self.old.given) }
        ensures quiet { let none : ℕ = 0 in OnOk result (none ≡ 0) }
        ensures later { 0 ≤ 0 }
        ensures failed { OnErr result (Rose 0 0) }

        ensures count { IsOkAnd result (λ n. n ≡ min self.old.most (min (length piece.old) (length self.old.left))) }
        ensures most { self.new.most ≡ self.old.most }
    {
        Ok(self.feed.give(piece))
    }
}
