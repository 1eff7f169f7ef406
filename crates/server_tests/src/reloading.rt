//! Two threads exchange a zone, each for another one, again and again, while others ask for a name in it and write it down: each answer, and each
//! text, is of one of both zones, whole, and each exchange is one version.
ghost use Rattle.std.specs.Prelude.{◌≡◌};

use crate::zones::{A, name};
use dns_name::Name;
use outer_io::MemSink;
use std::alloc::Global;
use std::marker::Brand;
use std::sync::Wait;
use std::test::Fail;
use std::thread::{Threads, join, map_vec};
use zone_model::Style;
use zone_server::{Home, LoadedZone, Opening, ReloadRefusal, Server, ServerPass};

/// How often each of both threads exchanges the zone.
const RELOADS: u64 = 40;

/// How often an exchange is tried.
const TRIES: u32 = 100_000;

/// How often each reader looks at most.
const LOOKS: u32 = 20_000;

/// The zone at first, in which the host has one address.
const ONE: &str =
    "example. 300 IN NS ns.example.\nexample. 300 IN SOA ns.example. hostmaster.example. 1 3600 600 86400 60\n\
    ns.example. 300 IN A 192.0.2.1\nold.example. 300 IN A 192.0.2.3\nwww.example. 300 IN A 192.0.2.2\n";

/// Another one, in which the host has two, and a name is gone.
const TWO: &str =
    "example. 300 IN NS ns.example.\nexample. 300 IN SOA ns.example. hostmaster.example. 2 3600 600 86400 60\n\
    ns.example. 300 IN A 192.0.2.1\nwww.example. 300 IN A 192.0.2.4\nwww.example. 300 IN A 192.0.2.5\n";

/// Writes the zone down, and tells which version it was and how many addresses the host has in it; none where it is neither of both zones.
fn write_down<H: Home>(
    alloc: Global,
    server: &Server<H>,
    pass: &mut ServerPass<H>,
    origin: &Name,
) -> Option<(u64, usize)> {
    let mut sink = MemSink::new(alloc, 1024, 1024, Vec::new(alloc)).ok()?;
    let written = server
        .transfer(alloc, pass, origin, Style::Full, &mut sink)
        .ok()?;
    let text = sink.held()?;
    if text == ONE.as_bytes() {
        return Some((written.version, 1));
    }
    if text == TWO.as_bytes() {
        return Some((written.version, 2));
    }
    None
}

/// Asks for the host, and tells which version it was and how many addresses there are.
fn ask<H: Home>(
    alloc: Global,
    server: &Server<H>,
    pass: &mut ServerPass<H>,
    host: &Name,
) -> Option<(u64, usize)> {
    let reply = server.ask(alloc, pass, host, A).ok()?;
    let from = reply.from?;
    Some((from.version, from.told.rows.as_slice().len()))
}

/// Whether a version is no older than one before it; and whether it is the same zone where it is the same.
fn goes_on(before: (u64, usize), after: (u64, usize)) -> bool {
    before.0 < after.0 || before == after
}

/// Looks so often at most, until the last version is there. Whether all was right.
fn read_on<H: Home>(
    alloc: Global,
    server: &Server<H>,
    pass: ServerPass<H>,
    origin: &Name,
    host: &Name,
) -> bool {
    let mut pass = pass;
    let mut seen = (0, 1);
    for _ in 0..LOOKS {
        let Some(written) = write_down(alloc, server, &mut pass, origin) else {
            return false;
        };
        let Some(answered) = ask(alloc, server, &mut pass, host) else {
            return false;
        };
        if !goes_on(seen, written) || !goes_on(written, answered) {
            return false;
        }
        if answered.0 == 2 * RELOADS {
            break;
        }
        seen = answered;
    }
    true
}

/// All look beside each other. Whether all was right.
fn read_all<H: Home + Send + Sync, R: Threads + Sync>(
    rt: &R,
    alloc: Global,
    server: &Server<H>,
    passes: Vec<ServerPass<H>>,
    origin: &Name,
    host: &Name,
) -> bool {
    // What is inferred of a closure isn't proved where its argument has a lifetime, so it has a clause.
    let read = map_vec(
        rt,
        passes,
        &|pass: ServerPass<H>| -> bool
            ensures { Unit {0} }
        { read_on(alloc, server, pass, origin, host) },
    );
    match read {
        Ok(read) => read.iter().all(|right| *right),
        Err(_) => false,
    }
}

/// Exchanges the zone, however often another transaction comes between.
fn reload<R: Wait, H: Home>(
    rt: &R,
    alloc: Global,
    server: &Server<H>,
    pass: &mut ServerPass<H>,
    zone: &LoadedZone,
) -> Option<u64> {
    for _ in 0..TRIES {
        match server.reload(rt, alloc, pass, zone) {
            Ok(version) => return Some(version),
            Err(ReloadRefusal::Moved) => {}
            Err(_) => return None,
        }
    }
    None
}

/// Exchanges the zone so often. Whether each time a later version was made.
fn write_on<R: Wait, H: Home>(
    rt: &R,
    alloc: Global,
    server: &Server<H>,
    pass: ServerPass<H>,
    zone: &LoadedZone,
) -> bool {
    let mut pass = pass;
    let mut made = 0;
    for _ in 0..RELOADS {
        match reload(rt, alloc, server, &mut pass, zone) {
            Some(version) if made < version => made = version,
            _ => return false,
        }
    }
    true
}

/// Readers beside two that exchange the zone. What all found right, and the last version.
fn beside<R: Threads + Wait + Sync, H: Home + Send + Sync>(
    rt: &R,
    alloc: Global,
    opening: Opening,
    origin: &Name,
    host: &Name,
) -> Option<(bool, u64)>
    requires tables { H.tables ≡ opening.tables }
    requires zones { H.zones ≡ opening.zones }
{
    let (server, mut passes) = opening.open::<H>(alloc).ok()?;
    let server = &server;
    let (one, two) = (zone(alloc, origin, ONE)?, zone(alloc, origin, TWO)?);
    let (first, second, mut last) = (passes.pop()?, passes.pop()?, passes.pop()?);
    let ((back, forth), read) = join(
        rt,
        || {
            join(
                rt,
                || write_on(rt, alloc, server, first, &one),
                || write_on(rt, alloc, server, second, &two),
            )
        },
        || read_all(rt, alloc, server, passes, origin, host),
    );
    let (version, _) = write_down(alloc, server, &mut last, origin)?;
    Some((back && forth && read, version))
}

/// A zone of an origin.
fn zone(alloc: Global, origin: &Name, text: &str) -> Option<LoadedZone> {
    LoadedZone::read(alloc, origin, text.as_bytes()).ok()
}

/// One zone, for five passes.
fn play<R: Threads + Wait + Sync>(rt: &R, alloc: Global) -> Option<(bool, u64)> {
    let (origin, host) = (name("example.")?, name("www.example.")?);
    let opening = Opening::new(alloc, 5).ok()?;
    let opening = opening.with(alloc, zone(alloc, &origin, ONE)?, 64).ok()?;
    beside::<R, Brand>(rt, alloc, opening, &origin, &host)
}

#[test]
fn each_answer_is_of_one_of_the_zones(rt: HostRuntime) -> Result<(), Fail> {
    assert_eq!(rt; play(&rt, rt.alloc()), Some((true, 2 * RELOADS)));
    Ok(())
}
