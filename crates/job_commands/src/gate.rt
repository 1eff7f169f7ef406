//! What is told of a worker's commands.
ghost use Rattle.std.specs.Prelude.{◌≡◌};
ghost use Rattle.job_commands.specs.Calls.{Call, Before, After, next_number};

/// Is told of each command of each worker, both counted from 1, so that a test can hold workers back. Of one list that
/// workers share it is told the command's number in the list. No lock is held during its calls, nor a pin of a query.
pub trait Gate: Sync {
    // It was called so.
    ghost hears: { Self → Call → Type 0 };

    /// Called ahead of a command.
    fn before(&self, worker: u32, command: u32)
        ensures { hears self.now (Before worker command) };

    /// Called behind a command.
    fn after(&self, worker: u32, command: u32)
        ensures { hears self.now (After worker command) };
}

/// A place in a list, counted from 1.
pub fn counted(place: usize) -> u32
    ensures { result ≡ next_number place }
{
    u32::try_from(place.saturating_add(1)).unwrap_or(u32::MAX)
}
