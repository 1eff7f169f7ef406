ghost use Rattle.std.specs.Prelude.{◌≡◌, ◌≤◌, ◌↔◌, IsErr, OnErr, OnOk, Contains};
ghost use Rattle.outer_io.specs.Calls.{Calls, next_count};

use std::marker::Model;
use thiserror::Error;

/// A call on an outer object failed.
#[derive(Clone, Copy, Debug, PartialEq, Eq, Error)]
#[error("a call on an outer object failed")]
pub struct Failed;

/// Which calls of an object in memory fail.
#[derive(Drop)]
pub struct Schedule {
    fails: Vec<u64>,
    made: u64,
    faults: u64,
}

impl Model for Schedule {
    ghost use Rattle.outer_io.specs.Calls.{Calls};

    ghost Value = { Calls };

    ghost view = { λ s. record { fails = s.fails.items; made = s.made; faults = s.faults } };
}

impl Schedule {
    /// No call was made yet.
    pub fn new(fails: Vec<u64>) -> Self
        ensures fails { result.fails ≡ fails.items }
        ensures made { result.made ≡ 0 }
        ensures faults { result.faults ≡ 0 }
    {
        Schedule {
            fails,
            made: 0,
            faults: 0,
        }
    }

    /// The next call, which fails if its number is among those that do.
    pub fn call(&mut self) -> Result<(), Failed>
        ensures fails { IsErr result ↔ Contains self.old.fails (next_count self.old.made) }
        ensures made { self.new.made ≡ next_count self.old.made }
        ensures same { self.new.fails ≡ self.old.fails }
        ensures ok { OnOk result (self.new.faults ≡ self.old.faults) }
        ensures err { OnErr result (self.new.faults ≡ next_count self.old.faults) }
        ensures later { self.old.faults ≤ self.new.faults }
    {
        self.made = self.made.saturating_add(1);
        if self.fails.contains(&self.made) {
            self.faults = self.faults.saturating_add(1);
            return Err(Failed);
        }
        Ok(())
    }
}
