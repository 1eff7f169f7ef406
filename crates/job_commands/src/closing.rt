//! The end of an index whose workers are done.
ghost use Rattle.std.specs.Prelude.{◌≡◌, All, IsSome, IfOk, map};
ghost use Rattle.job_commands.specs.Prelude.{known_at, EndsRun};

use crate::law::ZoneLaw;
use crate::measuring::measure;
use qp_multi::{Index, Named, Pass};
use std::alloc::AllocError;

/// How the last version is.
#[derive(Clone, Copy)]
pub struct Last {
    pub version: u64,
    pub names: u64,
    pub nodes: u64,
}

/// Asks for the last version, when all workers are done and main has learnt what they saw, and closes the index.
pub fn close_index<N: Named>(
    index: Index<ZoneLaw, N>,
    mut main: Pass<N>,
    mut passes: Vec<Pass<N>>,
) -> Result<Last, AllocError>
    requires main { (IsSome main.seat) × (main.place ≡ index.place) }
    requires here { All (λ p. (IsSome p.seat) × (p.place ≡ index.place)) passes.items }
    ensures { IfOk result (λ l. EndsRun index.shared.table.shared.key.passes (map (λ p. known_at p.seat) passes.items) (known_at main.seat) l) }
{
    let mut last = measure(&index, &mut main);
    passes.push(main)?;
    last.version = index.close(passes);
    Ok(last)
}
