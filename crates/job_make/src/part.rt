//! A worker's part of the names.
ghost use Rattle.std.specs.Prelude.{◌<◌, ◌≤◌};

/// What a worker has of the names: those whose numbers leave its remainder by the number of workers.
#[derive(Clone, Copy, Debug)]
pub struct Part {
    /// How many.
    pub count: u32,
    pub remainder: u32,
    pub workers: u32,
    ghost few: { count ≤ 20000 },
    ghost small: { remainder < workers },
    ghost few_workers: { workers ≤ 16 },
}
