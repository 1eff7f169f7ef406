ghost use Rattle.std.specs.Prelude.{◌≡◌, ◌<◌, ◌≤◌, ◌↔◌, ◌++◌, []};
ghost use Rattle.std.specs.Prelude.{ℕ, List, Option, None, Some, MatchOption, take, length, min, IsErr, IfOk, OnOk, OnErr, IsOkAnd, Contains};
ghost use Rattle.outer_io.specs.Prelude.{Rose, Held, held_of, Grows, GrowsByFront, next_count, told};

use crate::bounded::BoundedBuffer;
use crate::schedule::{Failed, Schedule};
use std::alloc::{AllocError, Global};
use std::marker::Model;

/// Where bytes go.
pub trait Sink {
    /// All bytes that were written since the sink was made, and what it tells of them.
    ghost held: { Self → Held };

    /// How many calls have failed.
    ghost faults: { Self → ℕ };

    /// Takes the first bytes of the piece, and answers how many: some, of a piece that isn't empty.
    /// A call that failed may have taken some too.
    fn write(&mut self, piece: &[u8]) -> Result<usize, Failed>
        ensures bound { IfOk result (λ n. n ≤ length piece.now) }
        ensures some { IfOk result (λ n. 0 < length piece.now → 0 < n) }
        ensures ok { IfOk result (λ n. Grows (held self.old) (held self.new) (take n piece.now)) }
        ensures err { OnErr result (GrowsByFront (held self.old) (held self.new) piece.now) }
        ensures quiet { OnOk result (faults self.new ≡ faults self.old) }
        ensures later { faults self.old ≤ faults self.new }
        ensures failed { OnErr result (Rose (faults self.old) (faults self.new)) };
}

/// Bytes in memory. The calls with given numbers fail, and move nothing.
#[derive(Drop)]
pub struct MemSink {
    room: BoundedBuffer,
    most: usize,
    schedule: Schedule,
}

impl Model for MemSink {
    ghost use Rattle.std.specs.Prelude.{◌<◌};
    ghost use Rattle.outer_io.specs.Memory.{SinkState};

    ghost Value = { SinkState };

    ghost view = { λ s. record { taken = s.room.taken; held = s.room.held; room = s.room.room; most = s.most; calls = s.schedule } };

    ghost invariant = { λ s. 0 < s.most };
}

impl MemSink {
    /// The calls with the numbers of `fails`, from 1, fail. The others take at most `most` bytes. The
    /// sink tells its bytes while they are at most `room`.
    pub fn new(alloc: Global, room: usize, most: usize, fails: Vec<u64>) -> Result<Self, AllocError>
        requires { 0 < most }
        ensures taken { IfOk result (λ s. s.taken ≡ []) }
        ensures held { IfOk result (λ s. s.held ≡ Some []) }
        ensures room { IfOk result (λ s. s.room ≡ room) }
        ensures most { IfOk result (λ s. s.most ≡ most) }
        ensures fails { IfOk result (λ s. s.calls.fails ≡ fails.items) }
        ensures made { IfOk result (λ s. s.calls.made ≡ 0) }
        ensures faults { IfOk result (λ s. s.calls.faults ≡ 0) }
    {
        Ok(MemSink {
            room: BoundedBuffer::new(alloc, room)?,
            most,
            schedule: Schedule::new(fails),
        })
    }

    /// All bytes written, while they fit the room.
    pub fn held(&self) -> Option<&[u8]>
        ensures { MatchOption result (self.now.held ≡ None) (λ bytes. self.now.held ≡ Some bytes.now) }
    {
        self.room.held()
    }
}

impl Sink for MemSink {
    ghost held = { λ s. held_of s.taken s.held };

    ghost faults = { λ s. s.calls.faults };

    fn write(&mut self, piece: &[u8]) -> Result<usize, Failed>
        ensures bound { IfOk result (λ n. n ≤ length piece.now) }
        ensures some { IfOk result (λ n. 0 < length piece.now → 0 < n) }
        ensures ok { IfOk result (λ n. Grows (held_of self.old.taken self.old.held) (held_of self.new.taken self.new.held) (take n piece.now)) }
        ensures err { OnErr result (GrowsByFront (held_of self.old.taken self.old.held) (held_of self.new.taken self.new.held) piece.now) }
        ensures quiet { OnOk result (self.new.calls.faults ≡ self.old.calls.faults) }
        ensures later { self.old.calls.faults ≤ self.new.calls.faults }
        ensures failed { OnErr result (Rose self.old.calls.faults self.new.calls.faults) }

        ensures fails { IsErr result ↔ Contains self.old.calls.fails (next_count self.old.calls.made) }
        ensures count { IfOk result (λ n. n ≡ min self.old.most (length piece.now)) }
        ensures taken { IfOk result (λ n. self.new.taken ≡ self.old.taken ++ take n piece.now) }
        ensures told { IfOk result (λ n. self.new.held ≡ told self.old.room self.old.held (take n piece.now)) }
        ensures unmoved { OnErr result ((self.new.taken ≡ self.old.taken) × (self.new.held ≡ self.old.held)) }
        ensures made { self.new.calls.made ≡ next_count self.old.calls.made }
        ensures same { (self.new.room ≡ self.old.room) × (self.new.most ≡ self.old.most) × (self.new.calls.fails ≡ self.old.calls.fails) }
    {
        self.schedule.call()?;
        let count = self.most.min(piece.len());
        self.room.take(&piece[..count]);
        Ok(count)
    }
}

/// Bytes in memory. No call fails.
#[derive(Drop)]
pub struct QuietSink {
    room: BoundedBuffer,
    most: usize,
}

impl Model for QuietSink {
    ghost use Rattle.std.specs.Prelude.{◌<◌};
    ghost use Rattle.outer_io.specs.Memory.{QuietState};

    ghost Value = { QuietState };

    ghost view = { λ s. record { taken = s.room.taken; held = s.room.held; room = s.room.room; most = s.most } };

    ghost invariant = { λ s. 0 < s.most };
}

impl QuietSink {
    /// Each call takes at most `most` bytes. The sink tells its bytes while they are at most `room`.
    pub fn new(alloc: Global, room: usize, most: usize) -> Result<Self, AllocError>
        requires { 0 < most }
        ensures taken { IfOk result (λ s. s.taken ≡ []) }
        ensures held { IfOk result (λ s. s.held ≡ Some []) }
        ensures room { IfOk result (λ s. s.room ≡ room) }
        ensures most { IfOk result (λ s. s.most ≡ most) }
    {
        Ok(QuietSink {
            room: BoundedBuffer::new(alloc, room)?,
            most,
        })
    }

    /// All bytes written, while they fit the room.
    pub fn held(&self) -> Option<&[u8]>
        ensures { MatchOption result (self.now.held ≡ None) (λ bytes. self.now.held ≡ Some bytes.now) }
    {
        self.room.held()
    }
}

impl Sink for QuietSink {
    ghost held = { λ s. held_of s.taken s.held };

    ghost faults = { λ _. 0 };

    fn write(&mut self, piece: &[u8]) -> Result<usize, Failed>
        ensures bound { IfOk result (λ n. n ≤ length piece.now) }
        ensures some { IfOk result (λ n. 0 < length piece.now → 0 < n) }
        ensures ok { IfOk result (λ n. Grows (held_of self.old.taken self.old.held) (held_of self.new.taken self.new.held) (take n piece.now)) }
        ensures err { OnErr result (GrowsByFront (held_of self.old.taken self.old.held) (held_of self.new.taken self.new.held) piece.now) }
        ensures quiet { let none : ℕ = 0 in OnOk result (none ≡ 0) }
        ensures later { 0 ≤ 0 }
        ensures failed { OnErr result (Rose 0 0) }

        ensures count { IsOkAnd result (λ n. n ≡ min self.old.most (length piece.now)) }
        ensures taken { IfOk result (λ n. self.new.taken ≡ self.old.taken ++ take n piece.now) }
        ensures told { IfOk result (λ n. self.new.held ≡ told self.old.room self.old.held (take n piece.now)) }
        ensures same { (self.new.room ≡ self.old.room) × (self.new.most ≡ self.old.most) }
    {
        let count = self.most.min(piece.len());
        self.room.take(&piece[..count]);
        Ok(count)
    }
}
