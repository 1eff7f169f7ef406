//! How commands ended.
ghost use Rattle.std.specs.Prelude.{◌≡◌};
ghost use Rattle.job_report.specs.Prelude.{list_any, is_committed, is_refused, ended_view};

use crate::reply_text::ReplyText;
use zone_model::Refusal;

/// Why a transaction makes no version.
#[derive(Drop)]
pub enum Cause {
    /// A rule of zones.
    Rule(Refusal),
    /// No room for an operation, by its number from 1, while these versions are kept. They rise.
    Full { operation: u64, kept: Vec<u64> },
    /// No number is left for the next version.
    Spent,
}

/// What a command came to.
#[derive(Drop)]
pub enum Told {
    /// The text of a question's reply.
    Reply(ReplyText),
    /// A snapshot was taken.
    Held,
    /// It was given back.
    Released,
    /// A transaction made a version.
    Committed,
    /// A compaction made a version.
    Compacted,
    RolledBack,
    Refused(Cause),
}

/// A command's version and what is printed of it. The version is the one that a question or a snapshot shows, that a
/// commit made, or that a transaction was on which changed nothing.
#[derive(Drop)]
pub struct Outcome {
    pub version: u64,
    pub told: Told,
}

/// One worker's outcomes, one for each command, in order.
#[derive(Drop)]
pub struct Outcomes {
    pub list: Vec<Outcome>,
}

/// A command's outcome, and the worker that ran it, by its number from 1.
#[derive(Drop)]
pub struct FedOutcome {
    pub worker: u32,
    pub outcome: Outcome,
}

// Whether a transaction made a version.
pub(crate) fn is_committed(outcome: &Outcome) -> bool
    ensures { result ≡ is_committed (ended_view outcome.now.told) }
{
    match &outcome.told {
        Told::Committed | Told::Compacted => true,
        Told::Reply(_) | Told::Held | Told::Released | Told::RolledBack | Told::Refused(_) => false,
    }
}

/// Whether a transaction was refused.
pub fn is_refused(outcome: &Outcome) -> bool
    ensures { result ≡ is_refused (ended_view outcome.now.told) }
{
    match &outcome.told {
        Told::Refused(_) => true,
        Told::Reply(_)
        | Told::Held
        | Told::Released
        | Told::Committed
        | Told::Compacted
        | Told::RolledBack => false,
    }
}

// Whether one of a worker's transactions was refused.
fn some_refused(worker: &Outcomes) -> bool
    ensures { result ≡ list_any (λ o. is_refused (ended_view o.told)) worker.now.list.items }
{
    worker.list.iter().any(|outcome| is_refused(outcome))
}

/// Whether some worker's transaction was refused.
pub fn any_refused(outcomes: &[Outcomes]) -> bool
    ensures { result ≡ list_any (λ os. list_any (λ o. is_refused (ended_view o.told)) os.list.items) outcomes.now }
{
    outcomes.iter().any(|worker| some_refused(worker))
}

/// Whether some transaction of one list was refused.
pub fn any_fed_refused(fed: &[FedOutcome]) -> bool
    ensures { result ≡ list_any (λ f. is_refused (ended_view f.outcome.told)) fed.now }
{
    fed.iter().any(|ran| is_refused(&ran.outcome))
}
