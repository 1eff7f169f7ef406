//! The numbers that a load is made of.
ghost use Rattle.std.specs.Prelude.{◌<◌, ◌≤◌};

/// The numbers that a load is made of.
#[derive(Clone, Copy, Debug, PartialEq, Eq)]
pub struct Load {
    /// What the draws begin with.
    pub seed: u64,
    /// How many numbered names the zone has, up to 20,000.
    pub names: u32,
    /// How many turns each worker has, up to 10,000.
    pub turns: u32,
    /// From 1 to 16.
    pub workers: u32,
    ghost few_names: { names ≤ 20000 },
    ghost few_turns: { turns ≤ 10000 },
    ghost some_workers: { 0 < workers },
    ghost few_workers: { workers ≤ 16 },
}
