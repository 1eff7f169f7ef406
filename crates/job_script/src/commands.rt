//! Commands of a script.
ghost use Rattle.job_script.specs.Views.{MayWait};

use job_model::{Ending, Question, Weight};
use zone_change::{Operation, Prerequisite};

/// The most workers.
pub const WORKER_LIMIT: usize = 16;

/// The most commands of a worker.
pub const COMMAND_LIMIT: usize = 10000;

/// The most prerequisites of a transaction.
pub const NEED_LIMIT: usize = 10000;

/// The most operations of one.
pub const OPERATION_LIMIT: usize = 10000;

/// A transaction: how it writes, what it wants of the version that it changes, its operations in order, and its last word.
#[derive(Drop)]
pub struct Block {
    pub weight: Weight,
    pub needs: Vec<Prerequisite>,
    pub operations: Vec<Operation>,
    pub ending: Ending,
}

/// A command of a worker.
#[derive(Drop)]
pub enum Command {
    /// A question to the current version.
    Ask(Question),
    /// A snapshot of the current version is taken.
    Hold,
    /// A question to the snapshot.
    AskHeld(Question),
    /// The snapshot is given back.
    Release,
    Block(Block),
    /// A compaction.
    Compact,
}

/// Commands, of which some may wait for the right to write.
pub trait Waits {
    // This one may.
    ghost waits: { Self → Type 0 };
}

impl Waits for Command {
    ghost waits = { MayWait };
}

/// A worker's list, in order.
#[derive(Drop)]
pub struct Worker {
    pub commands: Vec<Command>,
}

/// What the script of a job says: its workers, in order.
#[derive(Drop)]
pub struct Job {
    pub workers: Vec<Worker>,
}
