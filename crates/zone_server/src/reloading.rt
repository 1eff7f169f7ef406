//! Zones that are exchanged whole, each by one transaction that changes what differs and nothing else.
ghost use Rattle.std.specs.Prelude.{◌≡◌, map, IfOk};
ghost use Rattle.zone_server.specs.Prelude.{CanBeDumped, CanExchange, CanReload, IsHere, IsServed, IsServing, IsOpenedWith, IsShown, Keep, NoRule};
ghost use Rattle.zone_server.specs.Prelude.{RanOn, Reloading, Reloads, OpenedWith, StopsReload, changes, commit_told, difference, known_at, known_of};
ghost use Rattle.zone_server.specs.Prelude.{operation_view, versions_in};

use crate::asking::Shown;
use crate::finding::zone_of;
use crate::home::Home;
use crate::loading::LoadedZone;
use crate::server::{Server, ServerPass};
use dns_name::Name;
use job_commands::ZoneLaw;
use master_file::Zone;
use qp_multi::{Index, Named, Pass, Receipt, Spent, Versions, WriteGuard};
use std::alloc::{AllocError, Global};
use std::sync::Wait;
use thiserror::Error;
use trie_read::Reading;
use zone_change::Operation;
use zone_diff::Serial;
use zone_edit::{EditRefusal, ItemBuffers, execute};
use zone_reload::operations_between;
use zone_table::{Zones, ZonesPass};

/// Why a zone isn't exchanged. A version that is told is the zone's, which stays.
#[derive(Debug, Drop, Error)]
pub enum ReloadRefusal {
    /// The server has no zone of this origin.
    #[error("no zone has the origin")]
    NoZone,
    /// Another transaction came between. It is to be tried again.
    #[error("another transaction came between")]
    Moved,
    /// There is no room for the operation of this number, from 1, while these versions are kept.
    #[error("no room for operation {operation}")]
    Full {
        version: u64,
        operation: u64,
        kept: Vec<u64>,
    },
    /// No number is left for a next version.
    #[error("there is no version after {version}")]
    Spent {
        version: u64,
    },
    #[error("out of memory")]
    Memory,
}

// The operations that make of the current version a zone. It is pinned meanwhile.
fn difference_of<N: Named>(
    alloc: Global,
    index: &Index<ZoneLaw, N>,
    pass: &mut Pass<N>,
    zone: &Zone,
) -> Shown<Result<Vec<Operation>, AllocError>>
    requires { IsHere index.now.place pass.old }
    ensures stays { IsHere pass.old.place pass.new }
    ensures shown { IsShown (λ before. IfOk result.told (λ list. map operation_view list.items ≡ difference Keep before zone.now.pairs))
        (known_at pass.old.seat) (known_at pass.new.seat) result.version }
{
    let mut query = pass.query(index);
    let version = query.version();
    let told = operations_between(alloc, Serial::Keep, &mut query, zone);
    Shown { version, told }
}

// The versions that are kept.
fn kept_list(alloc: Global, kept: &Versions) -> Result<Vec<u64>, AllocError>
    ensures { IfOk result (λ list. list.items ≡ versions_in kept.now) }
{
    kept.as_slice().iter().copied().collect(alloc)
}

// How a reload ends that stopped, while these versions are kept.
fn stopped(alloc: Global, version: u64, refusal: EditRefusal, kept: &Versions) -> ReloadRefusal
    requires { NoRule refusal }
    ensures { StopsReload refusal (versions_in kept.now) version result }
{
    let operation = match refusal {
        EditRefusal::Full { operation, .. } => operation,
        EditRefusal::Memory => return ReloadRefusal::Memory,
        // What differs leads from a zone to a zone.
        EditRefusal::Refused(_) => unreachable!(),
    };
    match kept_list(alloc, kept) {
        Ok(kept) => ReloadRefusal::Full {
            version,
            operation,
            kept,
        },
        Err(_) => ReloadRefusal::Memory,
    }
}

// How a reload ends that was to be committed.
fn committed(receipt: Result<Receipt, Spent>) -> Result<u64, ReloadRefusal>
    ensures { result ≡ commit_told receipt }
{
    match receipt {
        Ok(receipt) => Ok(receipt.version),
        Err(spent) => Err(ReloadRefusal::Spent {
            version: spent.version,
        }),
    }
}

// Makes what operations make of the version of this number the next one, if that version is the current one still.
fn exchange<R: Wait, N: Named>(
    rt: &R,
    alloc: Global,
    origin: &Name,
    index: &Index<ZoneLaw, N>,
    pass: &mut Pass<N>,
    number: u64,
    operations: &[Operation],
    items: &mut ItemBuffers,
) -> Result<u64, ReloadRefusal>
    requires { CanExchange index.now.place pass.old origin.now (changes (map operation_view operations.now)) number }
    ensures stays { IsHere pass.old.place pass.new }
    ensures ran { (s : OpenedWith) → IsOpenedWith s origin.now index.now.shared.table.shared.key (known_at pass.old.seat)
        → RanOn s (changes (map operation_view operations.now)) (known_at pass.old.seat) (known_at pass.new.seat) result }
{
    let mut locked = WriteGuard::of(index);
    let mut update = index.update(rt, &mut locked, pass);
    let base = update.version();
    if base != number {
        return Err(ReloadRefusal::Moved);
    }
    if let Err(refusal) = execute(alloc, origin, &mut update, &[], operations, items) {
        return Err(stopped(alloc, base, refusal, &update.kept()));
    }
    committed(update.commit())
}

// Exchanges the current version of a zone.
fn reload_index<R: Wait, N: Named>(
    rt: &R,
    alloc: Global,
    index: &Index<ZoneLaw, N>,
    pass: &mut Pass<N>,
    zone: &Zone,
    items: &mut ItemBuffers,
) -> Result<u64, ReloadRefusal>
    requires { CanReload index.now.place pass.old zone.now }
    ensures stays { IsHere pass.old.place pass.new }
    ensures reloading { (s : OpenedWith) → IsOpenedWith s zone.now.origin index.now.shared.table.shared.key (known_at pass.old.seat)
        → Reloading s zone.now.pairs (known_at pass.old.seat) (known_at pass.new.seat) result }
{
    let Shown { version, told } = difference_of(alloc, index, pass, zone);
    let Ok(operations) = told else {
        return Err(ReloadRefusal::Memory);
    };
    exchange(
        rt,
        alloc,
        zone.origin(),
        index,
        pass,
        version,
        &operations,
        items,
    )
}

// Exchanges the zone of another one's origin for that.
fn reload_zones<R: Wait, H: Home>(
    rt: &R,
    alloc: Global,
    zones: &Zones<ZoneLaw, H>,
    pass: &mut ZonesPass<H>,
    loaded: &Zone,
    items: &mut ItemBuffers,
) -> Result<u64, ReloadRefusal>
    requires zones { IsServed H.zones zones.now }
    requires pass { IsServing H.zones pass.old }
    requires loaded { CanBeDumped loaded.now.origin loaded.now.pairs }
    ensures pass { IsServing H.zones pass.new }
    ensures reloads { Reloads H.zones loaded.now (known_of pass.old) (known_of pass.new) result }
{
    let Some(zone) = zone_of(zones, loaded.origin()) else {
        return Err(ReloadRefusal::NoZone);
    };
    let index = zones.zone(zone);
    let place = pass.zone(zones, zone);
    reload_index(rt, alloc, index, place, loaded, items)
}

impl<H: Home> Server<H> {
    /// Exchanges the zone of another one's origin for that one: the next version, whose number it gives, is the other zone, whole. What differs is
    /// found in the current version beforehand, and is then changed by one transaction; where another one came between, nothing is.
    pub fn reload<R: Wait>(
        &self,
        rt: &R,
        alloc: Global,
        pass: &mut ServerPass<H>,
        zone: &LoadedZone,
    ) -> Result<u64, ReloadRefusal>
        ensures { Reloads H.zones zone.now pass.old pass.new result }
    {
        reload_zones(
            rt,
            alloc,
            &self.zones,
            &mut pass.pass,
            &zone.zone,
            &mut pass.items,
        )
    }
}
