//! The options that were given.
ghost use Rattle.std.specs.Prelude.{◌<◌, ◌≤◌};
ghost use Rattle.std.specs.Option.{ForSome};

use dns_name::Name;
use zone_model::Style;

/// What was given so far.
#[derive(Clone, Copy)]
pub struct Options {
    pub origin: Option<Name>,
    pub chunks: Option<u32>,
    pub style: Option<Style>,
    pub workers: Option<u32>,
    pub seed: Option<u64>,
    pub names: Option<u32>,
    pub turns: Option<u32>,
    ghost enough: { ForSome chunks (λ n. 16 ≤ n) },
    ghost few: { ForSome chunks (λ n. n ≤ 4096) },
    ghost some_workers: { ForSome workers (λ n. 0 < n) },
    ghost few_workers: { ForSome workers (λ n. n ≤ 16) },
    ghost names_within: { ForSome names (λ n. n ≤ 20000) },
    ghost turns_within: { ForSome turns (λ n. n ≤ 10000) },
}
