//! A zone has grown until it is full. It is opened anew on more chunks, by a server inside the first one, which is asked meanwhile.
ghost use Rattle.std.specs.Prelude.{◌≡◌};

use crate::zones::{A, name, zone};
use dns_name::Name;
use outer_io::MemSink;
use std::alloc::{AllocError, Global};
use std::marker::Brand;
use std::sync::Wait;
use std::test::Fail;
use std::thread::{Threads, join};
use zone_model::Style;
use zone_server::{ChangeRefusal, Home, LoadedZone, Opening, Server, ServerPass, Update};

/// The number of the type TXT (RFC 1035, section 3.2.2).
const TXT: u16 = 16;

/// At most so many names are put in.
const NAMES: u32 = 1_000;

/// How often the reader asks.
const ASKED: u32 = 2_000;

/// The most octets of the zone's text.
const TEXT: usize = 1 << 20;

/// Ten texts of a record.
fn octets(alloc: Global) -> Result<Vec<u8>, AllocError> {
    let mut octets = Vec::new(alloc);
    for _ in 0..10 {
        octets.push(200)?;
        octets.extend_from_slice(&[120; 200])?;
    }
    Ok(octets)
}

/// The name of a number.
fn numbered(alloc: Global, number: u32) -> Option<Name> {
    let text = format!(in alloc; "n{number}.example.").ok()?;
    name(text.as_str())
}

/// Puts a record of the name of a number in.
fn put<R: Wait, H: Home>(
    rt: &R,
    alloc: Global,
    server: &Server<H>,
    pass: &mut ServerPass<H>,
    origin: &Name,
    number: u32,
) -> Option<Result<u64, ChangeRefusal>> {
    let owner = numbered(alloc, number)?;
    let mut update = Update::new(alloc, origin);
    update.add(&owner, TXT, 300, octets(alloc).ok()?).ok()?;
    Some(server.change(rt, alloc, pass, &update))
}

/// Puts names in until there is no room, and tells how many there are.
fn fill<R: Wait, H: Home>(
    rt: &R,
    alloc: Global,
    server: &Server<H>,
    pass: &mut ServerPass<H>,
    origin: &Name,
) -> Option<u32> {
    for number in 0..NAMES {
        match put(rt, alloc, server, pass, origin, number)? {
            Ok(_) => {}
            Err(ChangeRefusal::Full { .. }) => return Some(number),
            Err(_) => return None,
        }
    }
    None
}

/// The current version of a zone, as one that can be opened.
fn read_again<H: Home>(
    alloc: Global,
    server: &Server<H>,
    pass: &mut ServerPass<H>,
    origin: &Name,
) -> Option<LoadedZone> {
    let mut sink = MemSink::new(alloc, TEXT, TEXT, Vec::new(alloc)).ok()?;
    let written = server.transfer(alloc, pass, origin, Style::Full, &mut sink);
    if written.is_err() {
        return None;
    }
    LoadedZone::read(alloc, origin, sink.held()?).ok()
}

/// Asks so often. Whether the host has its address each time.
fn read_on<H: Home>(alloc: Global, server: &Server<H>, pass: ServerPass<H>, host: &Name) -> bool {
    let mut pass = pass;
    for _ in 0..ASKED {
        let Ok(reply) = server.ask(alloc, &mut pass, host, A) else {
            return false;
        };
        let records = match &reply.from {
            Some(from) => from.told.rows.as_slice().len(),
            None => 0,
        };
        if records != 1 {
            return false;
        }
    }
    true
}

/// Puts in what a zone had no room for, the name of this number. Whether it is there then.
fn grown<R: Wait, H: Home>(
    rt: &R,
    alloc: Global,
    opening: Opening,
    origin: &Name,
    number: u32,
) -> Option<bool>
    requires tables { H.tables ≡ opening.tables }
    requires zones { H.zones ≡ opening.zones }
{
    let (server, mut passes) = opening.open::<H>(alloc).ok()?;
    let mut pass = passes.pop()?;
    let made = put(rt, alloc, &server, &mut pass, origin, number)?;
    let last = numbered(alloc, number)?;
    let reply = server.ask(alloc, &mut pass, &last, TXT).ok()?;
    let from = reply.from?;
    Some(made.ok() == Some(1) && from.version == 1 && from.told.rows.as_slice().len() == 1)
}

/// The same of a zone that is opened on more chunks.
fn open_anew<R: Wait>(rt: &R, alloc: Global, loaded: LoadedZone, number: u32) -> Option<bool> {
    let origin = *loaded.origin();
    let opening = Opening::new(alloc, 1).ok()?;
    let opening = opening.with(alloc, loaded, 64).ok()?;
    grown::<R, Brand>(rt, alloc, opening, &origin, number)
}

/// A zone is filled, and opened anew on more chunks while it is read.
fn grows<R: Threads + Wait + Sync, H: Home + Send + Sync>(
    rt: &R,
    alloc: Global,
    opening: Opening,
    origin: &Name,
    host: &Name,
) -> Option<bool>
    requires tables { H.tables ≡ opening.tables }
    requires zones { H.zones ≡ opening.zones }
{
    let (server, mut passes) = opening.open::<H>(alloc).ok()?;
    let server = &server;
    let reader = passes.pop()?;
    let mut pass = passes.pop()?;
    let number = fill(rt, alloc, server, &mut pass, origin)?;
    let loaded = read_again(alloc, server, &mut pass, origin)?;
    let (read, grown) = join(
        rt,
        || read_on(alloc, server, reader, host),
        || open_anew(rt, alloc, loaded, number),
    );
    Some(read && grown?)
}

/// A zone on 16 chunks, for two passes.
fn play<R: Threads + Wait + Sync>(rt: &R, alloc: Global) -> Option<bool> {
    let (origin, host) = (name("example.")?, name("www.example.")?);
    let opening = Opening::new(alloc, 2).ok()?;
    let opening = opening.with(alloc, zone(alloc, &origin)?, 16).ok()?;
    grows::<R, Brand>(rt, alloc, opening, &origin, &host)
}

#[test]
fn a_full_zone_is_opened_on_more_chunks(rt: HostRuntime) -> Result<(), Fail> {
    assert_eq!(rt; play(&rt, rt.alloc()), Some(true));
    Ok(())
}
