//! How commands over several zones ended.
ghost use Rattle.std.specs.Prelude.{◌≡◌};
ghost use Rattle.std.specs.List.{list_any};
ghost use Rattle.zones_report.specs.Outcomes.{all_refused, was_refused};

use job_report::{Outcome, is_refused};
use zones_model::TableCause;

/// What a zone answered: its number, the version that was asked, and the text of the answer.
#[derive(Drop)]
pub struct Answer {
    pub zone: u32,
    pub outcome: Outcome,
}

/// What a command came to.
#[derive(Drop)]
pub enum CommandEnd {
    /// A question was put to a version of the table, and to the zone that this has for the name, if it has one.
    Got {
        table: u64,
        answer: Option<Answer>,
    },
    /// A transaction of a zone ended.
    Ran {
        zone: u32,
        outcome: Outcome,
    },
    /// A zone was attached by this version of the table, or wasn't, on this version.
    Attached {
        table: u64,
        refused: Option<TableCause>,
    },
    /// A zone was detached so.
    Detached {
        table: u64,
        refused: Option<TableCause>,
    },
}

/// What one worker's commands came to, in order.
#[derive(Drop)]
pub struct CommandEnds {
    pub list: Vec<CommandEnd>,
}

/// What became of the commands of all workers, the last version of the table and how many zones it has, and of each zone, in the
/// order of their numbers, the last version and how many names that has.
#[derive(Drop)]
pub struct ZonesFinished {
    pub done: Vec<CommandEnds>,
    pub table: u64,
    pub attached: u64,
    pub versions: Vec<u64>,
    pub names: Vec<u64>,
}

// Whether a command was refused.
fn was_refused(done: &CommandEnd) -> bool
    ensures { result ≡ was_refused done.now }
{
    match done {
        CommandEnd::Got { .. } => false,
        CommandEnd::Ran { outcome, .. } => is_refused(outcome),
        CommandEnd::Attached { refused, .. } => refused.is_some(),
        CommandEnd::Detached { refused, .. } => refused.is_some(),
    }
}

// Whether one of a worker's commands was.
fn some_refused(worker: &CommandEnds) -> bool
    ensures { result ≡ list_any was_refused worker.now.list.items }
{
    worker.list.iter().any(|done| was_refused(done))
}

/// Whether some worker's command was refused.
pub fn any_refused(workers: &[CommandEnds]) -> bool
    ensures { result ≡ all_refused workers.now }
{
    workers.iter().any(|worker| some_refused(worker))
}
