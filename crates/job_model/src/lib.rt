//! What scripts, answers, outcomes and reports are. The contracts of the crates that read scripts and run them cite these
//! definitions.
#![tactic(auto)]

use dns_name::Name;
use thiserror::Error;

/// How the commands of a script are listed.
#[derive(Clone, Copy, Debug, PartialEq, Eq)]
pub enum Listing {
    /// Each worker has a list of its own, behind a line `worker`.
    ByWorker,
    /// There is one list, and each command of it is run by some worker.
    OneList,
    /// There is one worker, whose lines come one by one while it runs.
    Live,
}

/// Names that follow a name in one direction.
#[derive(Clone, Copy)]
pub struct Stretch {
    /// The name that it begins at, or before.
    pub start: Name,
    /// How many names are wanted at most.
    pub most: u32,
}

/// A question to one version.
#[derive(Clone, Copy)]
pub enum Question {
    /// The answer for a name and a type.
    Get(Name, u16),
    /// The whole response for a name and a type.
    Respond(Name, u16),
    /// What there is of a name.
    Find(Name),
    /// The names at or after a name.
    Walk(Stretch),
    /// The names before a name, the nearest first.
    Back(Stretch),
    /// How large the version is.
    Stat,
    /// All records.
    Dump,
}

/// How a transaction writes.
#[derive(Clone, Copy, Debug, PartialEq, Eq)]
pub enum Weight {
    /// Behind what was written last: for a few changes.
    Light,
    /// From a fresh chunk on: for many.
    Heavy,
}

/// The last word of a block.
#[derive(Clone, Copy, Debug, PartialEq, Eq)]
pub enum Ending {
    /// It makes a version, if no operation is refused.
    Commit,
    /// It changes nothing.
    Rollback,
}

/// Why lines are no script.
#[derive(Clone, Copy, Debug, PartialEq, Eq, Error)]
pub enum ScriptKind {
    /// A command stands before the first worker, or there is no worker.
    #[error("no worker has begun")]
    NoWorker,
    /// A line is no command, or stands at a wrong place.
    #[error("the line is no command here")]
    BadCommand,
    /// A name is none, or an operation's is not at or under the origin.
    #[error("a name under the origin is wanted")]
    BadName,
    /// A type is none, or is not known by its name.
    #[error("a type is wanted")]
    BadType,
    /// Data are not of their type.
    #[error("the data are not of their type")]
    BadRdata,
    /// A time to live is none, or the number of names that are wanted is not 1 to 1,000.
    #[error("a number within its limits is wanted")]
    BadNumber,
    /// A block is open where a worker begins or the script ends.
    #[error("a block is open")]
    OpenBlock,
    /// A snapshot is asked or given back while none is held.
    #[error("no snapshot is held")]
    NotHeld,
    /// A snapshot is taken while one is held.
    #[error("a snapshot is held already")]
    AlreadyHeld,
    /// There are more workers, commands or operations than the limit says.
    #[error("more than {limit}")]
    TooMany { limit: u32 },
}
