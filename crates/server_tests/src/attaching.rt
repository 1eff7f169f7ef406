//! A zone below another one is detached and attached, again and again, while others ask for a name in it: each reply is of the zone that its
//! version of the table has.
ghost use Rattle.std.specs.Prelude.{◌≡◌};

use crate::zones::{A, name, zone};
use dns_name::Name;
use std::alloc::Global;
use std::marker::Brand;
use std::sync::Wait;
use std::test::Fail;
use std::thread::{Threads, join, map_vec};
use zone_server::{Answered, Home, Opening, Reply, Server, ServerPass};

/// How often the lower zone is detached and attached again.
const TURNS: u64 = 100;

/// How often each reader asks at most.
const ASKED: u32 = 20_000;

/// Whether a reply is of the zone that its version of the table has for the name: the lower one in each second, from the first on. The
/// upper one hasn't the name.
fn is_right(reply: &Reply<Answered>) -> bool {
    let is_lower = reply.table % 2 == 0;
    match &reply.from {
        Some(from) => {
            let records = from.told.rows.as_slice().len();
            from.version == 0
                && from.zone == u32::from(is_lower)
                && records == usize::from(is_lower)
        }
        None => false,
    }
}

/// Asks so often at most, until the table's last version is there. Whether all replies were right, and none older than the one before.
fn read_on<H: Home>(alloc: Global, server: &Server<H>, pass: ServerPass<H>, host: &Name) -> bool {
    let mut pass = pass;
    let mut seen = 0;
    for _ in 0..ASKED {
        let Ok(reply) = server.ask(alloc, &mut pass, host, A) else {
            return false;
        };
        if reply.table < seen || !is_right(&reply) {
            return false;
        }
        if reply.table == 2 * TURNS {
            break;
        }
        seen = reply.table;
    }
    true
}

/// All ask beside each other. Whether all was right.
fn read_all<H: Home + Send + Sync, R: Threads + Sync>(
    rt: &R,
    alloc: Global,
    server: &Server<H>,
    passes: Vec<ServerPass<H>>,
    host: &Name,
) -> bool {
    // What is inferred of a closure isn't proved where its argument has a lifetime, so it has a clause.
    let read = map_vec(
        rt,
        passes,
        &|pass: ServerPass<H>| -> bool
            ensures { Unit {0} }
        { read_on(alloc, server, pass, host) },
    );
    match read {
        Ok(read) => read.iter().all(|right| *right),
        Err(_) => false,
    }
}

/// Detaches the zone and attaches it again, so often. Whether each was done, by the version that is due.
fn write_on<R: Wait, H: Home>(
    rt: &R,
    server: &Server<H>,
    pass: ServerPass<H>,
    lower: &Name,
) -> bool {
    let mut pass = pass;
    for turn in 0..TURNS {
        let gone = server.detach(rt, &mut pass, lower).ok();
        let back = server.attach(rt, &mut pass, lower).ok();
        let made = (gone.map(|it| it.version), back.map(|it| it.version));
        if made != (Some(2 * turn + 1), Some(2 * turn + 2)) {
            return false;
        }
    }
    true
}

/// Readers of a name in a zone, beside one that detaches and attaches it.
fn beside<R: Threads + Wait + Sync, H: Home + Send + Sync>(
    rt: &R,
    alloc: Global,
    opening: Opening,
    lower: &Name,
    host: &Name,
) -> Option<bool>
    requires tables { H.tables ≡ opening.tables }
    requires zones { H.zones ≡ opening.zones }
{
    let (server, mut passes) = opening.open::<H>(alloc).ok()?;
    let server = &server;
    let writer = passes.pop()?;
    let (written, read) = join(
        rt,
        || write_on(rt, server, writer, lower),
        || read_all(rt, alloc, server, passes, host),
    );
    Some(written && read)
}

/// Two zones, of which one lies below the other, for four passes.
fn play<R: Threads + Wait + Sync>(rt: &R, alloc: Global) -> Option<bool> {
    let (upper, lower) = (name("example.")?, name("sub.example.")?);
    let host = name("www.sub.example.")?;
    let opening = Opening::new(alloc, 4).ok()?;
    let opening = opening.with(alloc, zone(alloc, &upper)?, 16).ok()?;
    let opening = opening.with(alloc, zone(alloc, &lower)?, 16).ok()?;
    beside::<R, Brand>(rt, alloc, opening, &lower, &host)
}

#[test]
fn replies_are_of_the_zone_that_the_table_has(rt: HostRuntime) -> Result<(), Fail> {
    assert_eq!(rt; play(&rt, rt.alloc()), Some(true));
    Ok(())
}
