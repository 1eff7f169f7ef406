//! Gates that watch a job's commands, or hold them back.
use job_commands::Gate;
use std::sync::atomic::{AtomicU64, Ordering};
use std::thread;

/// A gate that does nothing.
pub(crate) struct Open;

impl Gate for Open {
    ghost hears = { λ _ _. Unit {0} };

    fn before(&self, _worker: u32, _command: u32) {}

    fn after(&self, _worker: u32, _command: u32) {}
}

/// Counts its calls, and those that don't stand where they should: each worker's commands come in order, each between its two calls.
#[derive(Default, Drop)]
pub(crate) struct Counting {
    /// For each of two workers, twice the commands that are done, and one more during a command.
    steps: [AtomicU64; 2],
    pub calls: AtomicU64,
    pub wrong: AtomicU64,
}

impl Counting {
    /// The next step of a worker, which should be this one.
    fn step(&self, worker: u32, due: u64) {
        self.calls.fetch_add(1, Ordering::SeqCst);
        let steps = self.steps.get((worker as usize).wrapping_sub(1));
        if !steps.is_some_and(|steps| steps.fetch_add(1, Ordering::SeqCst) == due) {
            self.wrong.fetch_add(1, Ordering::SeqCst);
        }
    }
}

impl Gate for Counting {
    ghost hears = { λ _ _. Unit {0} };

    fn before(&self, worker: u32, command: u32) {
        self.step(worker, 2 * u64::from(command.saturating_sub(1)));
    }

    fn after(&self, worker: u32, command: u32) {
        self.step(worker, 2 * u64::from(command.saturating_sub(1)) + 1);
    }
}

/// When commands may begin.
#[derive(Clone, Copy)]
pub(crate) enum Order {
    /// Each once so many have come.
    Together(u64),
    /// This command of this worker once so many are done, and others at once.
    Behind(&'static [(u32, u32, u64)]),
    /// Each once so many workers have done all those before it.
    Rounds(u64),
}

/// How often a command looks at most for what it waits for.
const TURNS: u32 = 10_000_000;

/// Holds commands back until they may begin.
#[derive(Drop)]
pub(crate) struct Ordered {
    order: Order,
    /// How many commands have come, and how many are done.
    come: AtomicU64,
    done: AtomicU64,
    /// How many have waited in vain.
    missed: AtomicU64,
}

impl Ordered {
    pub(crate) fn new(order: Order) -> Ordered {
        Ordered {
            order,
            come: AtomicU64::new(0),
            done: AtomicU64::new(0),
            missed: AtomicU64::new(0),
        }
    }

    pub(crate) fn missed(&self) -> u64 {
        self.missed.load(Ordering::SeqCst)
    }

    /// Waits until so many have been counted. Once one has waited in vain, none waits.
    fn wait(&self, count: &AtomicU64, due: u64) {
        for _ in 0..TURNS {
            if count.load(Ordering::SeqCst) >= due || self.missed() != 0 {
                return;
            }
            thread::yield_now();
        }
        self.missed.fetch_add(1, Ordering::SeqCst);
    }

    /// How many commands are done before this one begins.
    fn due(&self, worker: u32, command: u32) -> u64 {
        match self.order {
            Order::Together(_) => 0,
            Order::Behind(rows) => rows
                .iter()
                .find(|row| row.0 == worker && row.1 == command)
                .map_or(0, |row| row.2),
            Order::Rounds(workers) => {
                workers.saturating_mul(u64::from(command.saturating_sub(1)))
            }
        }
    }
}

impl Gate for Ordered {
    ghost hears = { λ _ _. Unit {0} };

    fn before(&self, worker: u32, command: u32) {
        self.come.fetch_add(1, Ordering::SeqCst);
        match self.order {
            Order::Together(all) => self.wait(&self.come, all),
            _ => self.wait(&self.done, self.due(worker, command)),
        }
    }

    fn after(&self, _worker: u32, _command: u32) {
        self.done.fetch_add(1, Ordering::SeqCst);
    }
}
