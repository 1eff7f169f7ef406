//! A zone that is written down, as of one version.
ghost use Rattle.std.specs.Prelude.{◌≡◌};
ghost use Rattle.zone_server.specs.Prelude.{AreServing, IsDumpedTo, IsHere, IsServing, Transfers, known_at, known_of, transfer_told, transferred};

use crate::finding::zone_of;
use crate::home::Home;
use crate::server::{Server, ServerPass};
use dns_name::Name;
use job_commands::ZoneLaw;
use outer_io::Sink;
use qp_multi::{Index, Named, Pass};
use std::alloc::{AllocError, AllocFailed, Global};
use thiserror::Error;
use trie_read::Reading;
use zone_dump::{DumpRefusal, dump_to};
use zone_model::Style;
use zone_table::{Zones, ZonesPass};

/// What was written down: a version, and how many records it has.
#[derive(Clone, Copy, PartialEq, Eq, Debug)]
pub struct Transferred {
    pub version: u64,
    pub records: u64,
}

/// Why a zone isn't written down whole.
#[derive(Debug, Drop, Error)]
pub enum TransferRefusal {
    /// The server has no zone of this origin.
    #[error("no zone has the origin")]
    NoZone,
    /// A fault of the sink, which has taken a front of the text, or want of memory.
    #[error("{0}")]
    Dump(DumpRefusal),
}

impl From<AllocError> for TransferRefusal {
    fn from(_: AllocError) -> TransferRefusal {
        TransferRefusal::Dump(DumpRefusal::Memory)
    }
}

impl<T: Drop> From<AllocFailed<T>> for TransferRefusal {
    fn from(_: AllocFailed<T>) -> TransferRefusal {
        TransferRefusal::Dump(DumpRefusal::Memory)
    }
}

// What is told of a dump.
fn told(version: u64, dumped: Result<u64, DumpRefusal>) -> Result<Transferred, DumpRefusal>
    ensures { result ≡ transferred version dumped }
{
    match dumped {
        Ok(records) => Ok(Transferred { version, records }),
        Err(refusal) => Err(refusal),
    }
}

// What is told of it where the zone is one of the server's.
fn as_transfer(dumped: Result<Transferred, DumpRefusal>) -> Result<Transferred, TransferRefusal>
    ensures { result ≡ transfer_told dumped }
{
    match dumped {
        Ok(transferred) => Ok(transferred),
        Err(refusal) => Err(TransferRefusal::Dump(refusal)),
    }
}

// Holds the current version of a zone while something is done, and writes it down.
fn dump_index<N: Named, K: Sink, T, F: FnOnce() -> T>(
    alloc: Global,
    index: &Index<ZoneLaw, N>,
    pass: &mut Pass<N>,
    origin: &Name,
    style: Style,
    sink: &mut K,
    before: F,
) -> (T, Result<Transferred, DumpRefusal>)
    requires pass { IsHere index.now.place pass.old }
    requires before { F.pre before }
    ensures stays { IsHere pass.old.place pass.new }
    ensures before { F.post before result.0 }
    ensures dumped { IsDumpedTo style origin.now (K.held sink.old) (K.held sink.new) (known_at pass.old.seat) (known_at pass.new.seat) result.1 }
{
    let mut held = pass.query(index);
    let version = held.version();
    let done = before();
    let dumped = dump_to(alloc, &mut held, origin, style, sink);
    (done, told(version, dumped))
}

// Holds the current version of the zone of an origin while something is done, and writes it down.
fn transfer_zones<H: Home, K: Sink, T, F: FnOnce() -> T>(
    alloc: Global,
    zones: &Zones<ZoneLaw, H>,
    pass: &mut ZonesPass<H>,
    origin: &Name,
    style: Style,
    sink: &mut K,
    before: F,
) -> (T, Result<Transferred, TransferRefusal>)
    requires serves { AreServing H.zones zones.now pass.old }
    requires before { F.pre before }
    ensures pass { IsServing H.zones pass.new }
    ensures before { F.post before result.0 }
    ensures transfers { Transfers H.zones origin.now style (K.held sink.old) (K.held sink.new) (known_of pass.old) (known_of pass.new) result.1 }
{
    let Some(zone) = zone_of(zones, origin) else {
        return (before(), Err(TransferRefusal::NoZone));
    };
    let index = zones.zone(zone);
    let place = pass.zone(zones, zone);
    let (done, dumped) = dump_index(alloc, index, place, origin, style, sink, before);
    (done, as_transfer(dumped))
}

impl<H: Home> Server<H> {
    /// Holds the version that is current at some moment, writes it down as a master file, and gives it back. While it is held others ask and change the
    /// zone; its cells stay, so a sink that hangs costs the zone room.
    pub fn transfer<K: Sink>(
        &self,
        alloc: Global,
        pass: &mut ServerPass<H>,
        origin: &Name,
        style: Style,
        sink: &mut K,
    ) -> Result<Transferred, TransferRefusal>
        ensures { Transfers H.zones origin.now style (K.held sink.old) (K.held sink.new) pass.old pass.new result }
    {
        let (_done, result) = self.transfer_after(alloc, pass, origin, style, sink, || ());
        result
    }

    /// The same, and something is done while the version is held, before it is written down.
    pub fn transfer_after<K: Sink, T, F: FnOnce() -> T>(
        &self,
        alloc: Global,
        pass: &mut ServerPass<H>,
        origin: &Name,
        style: Style,
        sink: &mut K,
        before: F,
    ) -> (T, Result<Transferred, TransferRefusal>)
        requires { F.pre before }
        ensures before { F.post before result.0 }
        ensures transfers { Transfers H.zones origin.now style (K.held sink.old) (K.held sink.new) pass.old pass.new result.1 }
    {
        transfer_zones(
            alloc,
            &self.zones,
            &mut pass.pass,
            origin,
            style,
            sink,
            before,
        )
    }
}
