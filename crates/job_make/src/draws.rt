//! Draws from a seed.
ghost use Rattle.std.specs.Prelude.{◌≡◌, ◌<◌, ◌^◌};
ghost use Rattle.job_model.specs.Loads.{next_state, drawn};

use std::marker::Model;

// Knuth's numbers for MMIX.
const FACTOR: u64 = 6364136223846793005;

const SUMMAND: u64 = 1442695040888963407;

/// A linear congruential generator of 64 bits, of which the upper half is drawn.
#[derive(Drop)]
pub struct Draws {
    state: u64,
}

impl Model for Draws {
    ghost use Rattle.std.specs.Prelude.{ℕ, ◌<◌, ◌^◌};

    ghost Value = { ℕ };

    ghost view = { λ d. d.state };
}

// The state behind one.
fn next_state(state: u64) -> u64
    ensures { result ≡ next_state state }
{
    state.wrapping_mul(FACTOR).wrapping_add(SUMMAND)
}

impl Draws {
    /// Nothing has been drawn yet.
    pub fn new(seed: u64) -> Self
        ensures { result ≡ seed }
    {
        Draws { state: seed }
    }

    /// The next draw.
    pub fn draw(&mut self) -> u64
        ensures state { self.new ≡ next_state self.old }
        ensures value { result ≡ drawn self.new }
        ensures bound { result < 2 ^ 32 }
    {
        self.state = next_state(self.state);
        self.state >> 32
    }
}
