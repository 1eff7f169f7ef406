//! Zones and the table of their origins, opened together.
ghost use Rattle.std.specs.Prelude.{◌≡◌, List, All, IfOk, IfErr, Some, length, map, slice_get};
ghost use Rattle.zone_table.specs.Prelude.{IsName, Entry, IsTable, AreOrigins, IsBegun, RefusesZones, origins_of, places_of, sizes_of};
ghost use Rattle.zone_table.specs.Prelude.{IsTableBlank, AreBlanks, CanOpen, HaveOpened, ZonesDiffer, AreOpened, AreAssembled};

use crate::buckets::buckets_for;
use crate::handing::hand_out_all;
use crate::law::TableLaw;
use crate::opening::{Opened, ZoneItems, ZonesRefusal, open_each};
use crate::pass::ZonesPass;
use crate::table::table_items;
use crate::zones::Zones;
use dns_name::Name;
use qp_multi::{Blank, Index, Law, Named, OpenRefusal};
use std::alloc::{AllocError, Global};

// The origins of the zones.
fn origins_of(alloc: Global, zones: &[ZoneItems]) -> Result<Vec<Name>, AllocError>
    ensures origins { IfOk result (λ origins. origins.items ≡ origins_of zones.now) }
    ensures names { IfOk result (λ origins. All IsName origins.items) }
{
    let mut origins = Vec::with_capacity(alloc, zones.len())?;
    for zone in zones {
        let _wire = zone.origin.wire(); // for the proof
        origins.push(zone.origin)?;
    }
    Ok(origins)
}

// Opens the table on all origins.
fn open_table<N: Named>(
    alloc: Global,
    blank: Blank<TableLaw>,
    origins: &[Name],
) -> Result<Opened<TableLaw, N>, AllocError>
    requires named { slice_get N.tables 0 ≡ Some blank.shared.table.shared.table_id }
    requires chunks { blank.shared.table.shared.key.chunks ≡ 512 }
    requires origins { AreOrigins origins.now }
    ensures { IfOk result (λ o. (es : List Entry) × IsTable origins.now es × IsBegun 0 blank.shared.table.shared.key es o) }
{
    let items = table_items(alloc, origins)?;
    match Index::open(alloc, blank, 0, &items) {
        Ok((index, passes)) => Ok(Opened { index, passes }),
        Err(OpenRefusal::Memory) => Err(AllocError),
        // A table of sixteen origins fits.
        Err(OpenRefusal::Full { .. }) => unreachable!(),
    }
}

// The table is opened too, and the passes are put together.
fn build<L: Law, N: Named>(
    alloc: Global,
    blank: Blank<TableLaw>,
    opened: Vec<Opened<L, N>>,
    zones: &[ZoneItems],
) -> Result<(Zones<L, N>, Vec<ZonesPass<N>>), AllocError>
    requires blank { IsTableBlank N.tables blank.shared.table.shared.table_id blank.shared.table.shared.key }
    requires zones { ZonesDiffer zones.now }
    requires opened { AreOpened zones.now blank.shared.table.shared.key.passes opened.items }
    ensures indexes { IfOk result (λ made. made.0.zones.items ≡ map (λ o. o.index) opened.items) }
    ensures made { IfOk result (λ made. AreAssembled zones.now blank.shared.table.shared.key made.0 made.1.items) }
{
    let origins = origins_of(alloc, zones)?;
    let Opened { index, passes } = open_table::<N>(alloc, blank, &origins)?;
    let (indexes, all) = hand_out_all(alloc, passes, opened)?;
    let buckets = buckets_for(alloc, &origins)?;
    let zones = Zones {
        table: index,
        zones: indexes,
        origins,
        buckets,
    };
    Ok((zones, all))
}

impl<L: Law, N: Named> Zones<L, N> {
    /// Opens zones of different origins, each on a table of its own, and the table of their origins on one more, of 512 chunks. In version 0 of that
    /// all zones are attached. N names the tables, that of the origins first.
    pub fn open(
        alloc: Global,
        table: Blank<TableLaw>,
        blanks: Vec<Blank<L>>,
        zones: &[ZoneItems],
    ) -> Result<(Zones<L, N>, Vec<ZonesPass<N>>), ZonesRefusal>
        requires table { IsTableBlank N.tables table.shared.table.shared.table_id table.shared.table.shared.key }
        requires blanks { AreBlanks N.tables table.shared.table.shared.key.passes (length zones.now) blanks.items }
        requires zones { CanOpen L.lawful zones.now }
        ensures opened { IfOk result (λ made. HaveOpened zones.now (sizes_of blanks.items) table.shared.table.shared.key made.0 made.1.items) }
        ensures refused { IfErr result (RefusesZones (places_of zones.now (sizes_of blanks.items))) }
    {
        match open_each::<L, N>(alloc, blanks, zones) {
            Err(refusal) => Err(refusal),
            Ok(opened) => match build(alloc, table, opened, zones) {
                Ok(made) => Ok(made),
                Err(_) => Err(ZonesRefusal::Memory),
            },
        }
    }
}
