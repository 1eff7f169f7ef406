//! A small server of two zones, as the author of one would write it over `zone_server`: docs/SERVER.md goes through it. Threads that
//! answer and one that changes run beside each other, while a version is held for a transfer; what is printed is the same on every run.
#![tactic(auto)]

mod failure;
mod serving;

use crate::failure::Failure;
use crate::serving::open_and_serve;
use dns_name::Name;
use std::alloc::Global;
use std::marker::Brand;
use std::sync::Wait;
use std::thread::Threads;
use zone_server::{LoadedZone, Opening};

/// The master file of both zones.
const ZONE: &str =
    "@ 300 SOA ns hostmaster 1 3600 600 86400 60\n@ 300 NS ns\nns 300 A 192.0.2.1\nwww 300 A 192.0.2.2\n";

/// The name that a text says, with a dot at its end.
fn name(text: &str) -> Result<Name, Failure> {
    Name::read(text.as_bytes(), &Name::root()).map_err(|_| Failure::Text)
}

// Reads the zones, and serves them: on 16 chunks each, for three threads.
fn run<R: Threads + Wait + Sync>(rt: &R, alloc: Global) -> Result<String, Failure> {
    let upper = LoadedZone::read(alloc, &name("example.")?, ZONE.as_bytes())?;
    let lower = LoadedZone::read(alloc, &name("sub.example.")?, ZONE.as_bytes())?;
    let opening = Opening::new(alloc, 3)?;
    let opening = opening.with(alloc, upper, 16)?.with(alloc, lower, 16)?;
    open_and_serve::<R, Brand>(rt, alloc, opening)
}

fn main(rt: HostRuntime) -> anyhow::Result<()> {
    let text = run(&rt, rt.alloc())?;
    print!(rt; "{text}")?;
    Ok(())
}
