//! What a job needs of its index.
ghost use Rattle.std.specs.Prelude.{◌≡◌, ◌≤◌, ◌+◌, max, map, IfOk};
ghost use Rattle.job_script.specs.Prelude.{operation_view, cells_added, cells_of_operations, cells_of_commands, cells_of_workers};
ghost use Rattle.job_script.specs.Prelude.{longest, longest_of_workers, asked_by, command_view, worker_view, workers_view, job_view};

use crate::commands::{Command, Job, Worker};
use std::alloc::AllocError;
use zone_change::Operation;

/// What a job needs of its index.
#[derive(Clone, Copy, PartialEq, Eq, Debug)]
pub struct Needs {
    /// The cells that its additions are reckoned at.
    pub cells: u64,
    /// The operations of its longest transaction.
    pub operations: u64,
}

// A sum. What 64 bits can't count is taken for want of memory.
fn added(before: u64, more: u64) -> Result<u64, AllocError>
    ensures { IfOk result (λ n. n ≡ before + more) }
{
    match before.checked_add(more) {
        Some(sum) => Ok(sum),
        None => Err(AllocError),
    }
}

// The cells that an operation is reckoned at.
fn cells_added(operation: &Operation) -> u64
    ensures { result ≡ cells_added (operation_view operation.now) }
{
    match operation {
        Operation::Add(record) => {
            let octets = record.owner.wire().len() + 12 + record.rdata.octets().len();
            (2 + (octets + 15) / 16 + (octets + 4079) / 4080) as u64
        }
        Operation::DeleteName(_) => 0,
        Operation::DeleteSet(_, _) => 0,
        Operation::DeleteRecord(_, _, _) => 0,
    }
}

// The operations of a command.
fn operations_of(command: &Command) -> &[Operation]
    ensures { map operation_view result.now ≡ (asked_by (command_view command.now)).operations }
{
    match command {
        Command::Block(block) => &block.operations,
        Command::Ask(_) => &[],
        Command::Hold => &[],
        Command::AskHeld(_) => &[],
        Command::Release => &[],
        Command::Compact => &[],
    }
}

fn cells_of_operations(operations: &[Operation]) -> Result<u64, AllocError>
    ensures { IfOk result (λ n. n ≡ cells_of_operations (map operation_view operations.now)) }
{
    let mut cells = 0;
    for operation in operations {
        cells = added(cells, cells_added(operation))?;
    }
    Ok(cells)
}

fn cells_of_commands(commands: &[Command]) -> Result<u64, AllocError>
    ensures { IfOk result (λ n. n ≡ cells_of_commands (map command_view commands.now)) }
{
    let mut cells = 0;
    for command in commands {
        cells = added(cells, cells_of_operations(operations_of(command))?)?;
    }
    Ok(cells)
}

fn cells_of_workers(workers: &[Worker]) -> Result<u64, AllocError>
    ensures { IfOk result (λ n. n ≡ cells_of_workers (workers_view workers.now)) }
{
    let mut cells = 0;
    for worker in workers {
        cells = added(cells, cells_of_commands(&worker.commands)?)?;
    }
    Ok(cells)
}

// The operations of the longest transaction.
fn longest(commands: &[Command]) -> usize
    ensures { result ≡ longest (map command_view commands.now) }
{
    let mut most = 0;
    for command in commands {
        most = operations_of(command).len().max(most);
    }
    most
}

fn longest_of_workers(workers: &[Worker]) -> usize
    ensures { result ≡ longest_of_workers (workers_view workers.now) }
{
    let mut most = 0;
    for worker in workers {
        most = longest(&worker.commands).max(most);
    }
    most
}

/// What a job needs of its index.
pub fn needs_of(job: &Job) -> Result<Needs, AllocError>
    ensures cells { IfOk result (λ needs. needs.cells ≡ cells_of_workers (job_view job.now)) }
    ensures operations { IfOk result (λ needs. needs.operations ≡ longest_of_workers (job_view job.now)) }
{
    let cells = cells_of_workers(&job.workers)?;
    let operations = longest_of_workers(&job.workers) as u64;
    Ok(Needs { cells, operations })
}
