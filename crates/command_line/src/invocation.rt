//! What the command line asks for.
ghost use Rattle.std.specs.Prelude.{◌<◌, ◌≤◌};
ghost use Rattle.std.specs.Option.{ForSome};

use dns_name::Name;
use job_make::Load;
use zone_diff::{DiffStyle, Serial};
use zone_model::Style;

/// How many workers run one list of commands.
#[derive(Clone, Copy, PartialEq, Eq, Debug)]
pub struct Crew {
    /// From 1 to 16.
    pub workers: u32,
    ghost some: { 0 < workers },
    ghost few: { workers ≤ 16 },
}

/// How two zones are compared, and how what changes is written.
#[derive(Clone, Copy, PartialEq, Eq, Debug)]
pub struct Comparison {
    pub style: DiffStyle,
    pub serial: Serial,
}

/// How many chunks a session's index has, where that is asked for.
#[derive(Clone, Copy, PartialEq, Eq, Debug)]
pub struct Asked {
    /// From 16 to 4,096.
    pub chunks: Option<u32>,
    ghost enough: { ForSome chunks (λ n. 16 ≤ n) },
    ghost few: { ForSome chunks (λ n. n ≤ 4096) },
}

/// What the program is asked to do.
#[derive(Clone, Copy, PartialEq, Eq, Debug)]
pub enum Verb {
    /// Run a job.
    Run,
    /// Say how large a zone's index is.
    Check,
    /// Run the job of a load, and sum it up.
    Make(Load),
    /// Write a zone as a master file.
    Dump(Style),
    /// Run one list of commands by several workers.
    Feed(Crew),
    /// Reckon how many chunks a job needs.
    Size,
    /// Run a job over several zones.
    Zones,
    /// Write what makes of a zone another one.
    Diff(Comparison),
    /// Answer lines one by one.
    Live(Asked),
}

/// What the words of the command line say: what to do under an origin, over a number of chunks. Several zones are under the root.
#[derive(Clone, Copy)]
pub struct Invocation {
    pub verb: Verb,
    pub origin: Name,
    /// From 16 to 4,096.
    pub chunks: u32,
    ghost enough: { 16 ≤ chunks },
    ghost few: { chunks ≤ 4096 },
}
