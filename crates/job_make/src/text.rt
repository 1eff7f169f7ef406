//! The text of a load.
ghost use Rattle.std.specs.Prelude.{◌≡◌, ◌<◌, ◌≤◌, ◌+◌, ◌-◌, ◌^◌, ◌++◌, IfOk, OnOk, Ok, codes, length, if◌then◌else◌};
ghost use Rattle.job_make.specs.Prelude.{flat_map, Job, job_of, first_lines, line_text, made_origin, made_text};
ghost use Rattle.job_make.specs.Prelude.{names_lines, share, worker_lines, worker_state, workers_from, load_view};

use crate::draws::Draws;
use crate::load::Load;
use crate::part::Part;
use crate::turns::{push_name, push_turns};
use std::alloc::{AllocError, Global};

// The zone's lines before the numbered names.
const FIRST_LINES: &[u8] =
    b"$TTL 300\n@ SOA ns hostmaster 1 3600 600 86400 60\n@ NS ns\nns A 192.0.2.1\n";

// The lines of the first names, each with the same address.
fn push_names(out: &mut Vec<u8>, names: u32) -> Result<(), AllocError>
    ensures { OnOk result (out.new.items ≡ out.old.items ++ flat_map line_text (names_lines names)) }
{
    for name in 0..names {
        push_name(out, u64::from(name))?;
        out.extend_from_slice(b" A 10.0.0.1\n")?;
    }
    Ok(())
}

// One more, if something is so.
fn one_more(count: u32, more: bool) -> u32
    requires { count < 2 ^ 32 - 1 }
    ensures value { result ≡ count + (if more then 1 else 0) }
    ensures bound { result ≤ count + 1 }
{
    if more { count + 1 } else { count }
}

// How many of the names are those of the worker with a remainder.
fn share(workers: u32, remainder: u32, names: u32) -> u32
    requires { 0 < workers }
    ensures count { result ≡ share workers remainder names }
    ensures few { result ≤ names }
{
    let mut count = 0;
    for name in 0..names {
        count = one_more(count, name % workers == remainder);
    }
    count
}

// The lines of a worker. One without names has no turns, for which nothing is drawn.
fn push_worker(
    out: &mut Vec<u8>,
    load: &Load,
    remainder: u32,
    draws: &mut Draws,
) -> Result<(), AllocError>
    requires { remainder < load.now.workers }
    ensures state { OnOk result (draws.new ≡ worker_state (load_view load.now) remainder draws.old) }
    ensures text { OnOk result (out.new.items ≡ out.old.items ++ flat_map line_text (worker_lines (load_view load.now) remainder draws.old)) }
{
    let part = Part {
        count: share(load.workers, remainder, load.names),
        remainder,
        workers: load.workers,
    };
    out.extend_from_slice(b"worker\n")?;
    if part.count == 0 {
        return Ok(());
    }
    push_turns(out, part, load.turns, draws)
}

// The script: the lines of all workers.
fn push_workers(out: &mut Vec<u8>, load: &Load) -> Result<(), AllocError>
    ensures { OnOk result (out.new.items ≡ out.old.items ++ flat_map line_text (workers_from (load_view load.now) load.now.workers 0 load.now.seed)) }
{
    let mut draws = Draws::new(load.seed);
    for remainder in 0..load.workers {
        push_worker(out, load, remainder, &mut draws)?;
    }
    Ok(())
}

// The text of a load.
fn load_text(alloc: Global, load: &Load) -> Result<Vec<u8>, AllocError>
    ensures text { IfOk result (λ v. v.items ≡ made_text (load_view load.now)) }
    ensures short { IfOk result (λ v. length v.items ≤ 16777216) }
    ensures job { IfOk result (λ v. (job : Job) × (job_of made_origin v.items ≡ Ok job) × (length job.workers ≡ load.now.workers)) }
{
    let mut out = Vec::new(alloc);
    out.extend_from_slice(FIRST_LINES)?;
    push_names(&mut out, load.names)?;
    out.extend_from_slice(b"%%\n")?;
    push_workers(&mut out, load)?;
    Ok(out)
}

/// The text of a load of these numbers, as `run` takes it for the origin `example.`.
pub fn make_text(
    alloc: Global,
    seed: u64,
    names: u32,
    turns: u32,
    workers: u32,
) -> Result<Vec<u8>, AllocError>
    requires few_names { names ≤ 20000 }
    requires few_turns { turns ≤ 10000 }
    requires some_workers { 0 < workers }
    requires few_workers { workers ≤ 16 }
    ensures text { IfOk result (λ v. v.items ≡ made_text (record { seed = seed; names = names; turns = turns; workers = workers })) }
    ensures short { IfOk result (λ v. length v.items ≤ 16777216) }
    ensures job { IfOk result (λ v. (job : Job) × (job_of made_origin v.items ≡ Ok job) × (length job.workers ≡ workers)) }
{
    let load = Load {
        seed,
        names,
        turns,
        workers,
    };
    load_text(alloc, &load)
}
