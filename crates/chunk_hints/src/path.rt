//! The first steps of a key's way through a trie, in a word.

ghost use Rattle.std.specs.Prelude.{◌<◌, IfSome};

/// How many steps a path says at most.
pub const PATH_STEPS: u32 = 5;

// Each step has six bits, the first the lowest: its position and 1, or 0 where the path ends before it.
const STEP_BITS: u32 = 6;

const STEP: u32 = 63;

const TWO_STEPS: u32 = 4095;

// The bits of a path's first steps: of four of them, three, two and one.
const STARTS: [u32; 4] = [(1 << 24) - 1, (1 << 18) - 1, TWO_STEPS, STEP];

/// The positions that a way from the root takes at its first branches, at most five. What comes behind them it doesn't say, nor at
/// which offsets the branches are, so that it goes on to lead somewhere when others come between.
#[derive(Clone, Copy, PartialEq, Eq, Debug)]
pub struct Path {
    steps: u32,
}

impl Path {
    /// The path that says nothing.
    #[inline]
    pub fn none() -> Path {
        Path { steps: 0 }
    }

    /// Whether it says nothing.
    #[inline]
    pub fn is_none(self) -> bool {
        self.steps == 0
    }

    /// The position that it takes first.
    #[inline]
    pub fn first(self) -> Option<u8>
        ensures { IfSome result (λ position. position < 47) }
    {
        let step = self.steps & STEP;
        if step == 0 || step > 47 {
            return None;
        }
        Some((step - 1) as u8)
    }

    /// What it says behind that.
    #[inline]
    pub fn rest(self) -> Path {
        Path {
            steps: self.steps >> STEP_BITS,
        }
    }

    /// What it says behind a position, if that is its first.
    #[inline]
    pub fn behind(self, position: u8) -> Path {
        match self.first() {
            Some(first) if first == position => self.rest(),
            _ => Path::none(),
        }
    }

    /// Its first step, as a number below 64.
    #[inline]
    pub fn first_step(self) -> usize {
        (self.steps & STEP) as usize
    }

    /// Its first two steps, as a number below 4,096.
    #[inline]
    pub fn first_two(self) -> usize {
        (self.steps & TWO_STEPS) as usize
    }

    /// The path without its last step.
    pub fn shorter(self) -> Path {
        for start in STARTS {
            if self.steps > start {
                return Path {
                    steps: self.steps & start,
                };
            }
        }
        Path::none()
    }

    /// As a word.
    #[inline]
    pub(crate) fn word(self) -> u32 {
        self.steps
    }

    /// What a word says.
    #[inline]
    pub(crate) fn of_word(steps: u32) -> Path {
        Path { steps }
    }

    /// The path with one more step, which comes behind so many; it is left out where they are too many.
    #[inline]
    pub fn then(self, steps: u32, position: u8) -> Path {
        if steps >= PATH_STEPS {
            return self;
        }
        Path {
            steps: self.steps | (step_of(position) << (STEP_BITS * steps)),
        }
    }
}

/// The bits of a step.
#[inline]
fn step_of(position: u8) -> u32
    ensures { result < 64 }
{
    u32::from(position.min(46)) + 1
}
