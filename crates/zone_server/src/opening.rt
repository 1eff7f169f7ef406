//! How a server is opened.
ghost use Rattle.std.specs.Prelude.{◌≡◌, ◌+◌, ◌≤◌, ℕ, All, IfOk, Some, length, slice_get};
ghost use Rattle.zone_server.specs.Prelude.{IsOpening, IsServing, IsZone, StandsAs, entries_in, list_any, origin_in, served_of, same_name, sizes_of};

use crate::home::Home;
use crate::loading::LoadedZone;
use crate::server::{Server, ServerPass};
use dns_name::Name;
use index_items::zone_items;
use job_commands::ZoneLaw;
use qp_multi::Blank;
use std::alloc::{AllocError, AllocFailed, Global};
use std::marker::Model;
use thiserror::Error;
use zone_answer::Scratch;
use zone_edit::ItemBuffers;
use zone_table::{TableLaw, ZoneItems, Zones, ZonesPass, ZonesRefusal};

// The table of origins has so many chunks.
const TABLE_CHUNKS: u32 = 512;

/// The most zones.
pub const ZONE_LIMIT: usize = 16;

/// The most passes.
pub const PASS_LIMIT: u32 = 17;

/// Why a server isn't opened.
#[derive(Clone, Copy, PartialEq, Eq, Debug, Error)]
pub enum OpenRefusal {
    /// There are 1 to 17 passes.
    #[error("a server has 1 to 17 passes")]
    Passes,
    /// A zone has 16 to 4,096 chunks.
    #[error("a zone has 16 to 4,096 chunks")]
    Chunks,
    /// There are 1 to 16 zones.
    #[error("a server has 1 to 16 zones")]
    Zones,
    /// Two zones have one origin.
    #[error("two zones have one origin")]
    Twice,
    /// The zone of this number has so many cells, over the limit of its chunks. Of several such zones it is the one whose origin comes first in
    /// canonical order.
    #[error("zone {zone} has {cells} cells, where there is room for {limit}")]
    Full { zone: u32, cells: u64, limit: u64 },
    #[error("out of memory")]
    Memory,
}

impl From<AllocError> for OpenRefusal {
    ghost use Rattle.std.specs.Prelude.{◌≡◌};
    ghost use Rattle.zone_server.specs.declared.opening.OpenRefusal.TheVariants.{Memory};

    ghost from_gives = { λ _ e. e ≡ Memory };

    fn from(_: AllocError) -> OpenRefusal {
        OpenRefusal::Memory
    }
}

impl<T: Drop> From<AllocFailed<T>> for OpenRefusal {
    ghost use Rattle.std.specs.Prelude.{◌≡◌};
    ghost use Rattle.zone_server.specs.declared.opening.OpenRefusal.TheVariants.{Memory};

    ghost from_gives = { λ _ e. e ≡ Memory };

    fn from(_: AllocFailed<T>) -> OpenRefusal {
        OpenRefusal::Memory
    }
}

impl From<ZonesRefusal> for OpenRefusal {
    fn from(refusal: ZonesRefusal) -> OpenRefusal {
        match refusal {
            ZonesRefusal::Full { zone, cells, limit } => OpenRefusal::Full { zone, cells, limit },
            ZonesRefusal::Memory => OpenRefusal::Memory,
        }
    }
}

/// Zones that are to be served, each with the table of its index.
#[derive(Drop)]
pub struct Opening {
    table: Blank<TableLaw>,
    blanks: Vec<Blank<ZoneLaw>>,
    zones: Vec<ZoneItems>,
    passes: u32,
}

impl Model for Opening {
    ghost use Rattle.std.specs.Prelude.{◌∷◌, map};
    ghost use Rattle.zone_server.specs.Openings.{IsOpening, OpeningView, served_of};

    ghost Value = { OpeningView };

    ghost view = { λ o. record {
      passes = o.passes;
      zones = served_of o.zones.items (map (λ b. b.shared.table.shared.key) o.blanks.items);
      tables = o.table.shared.table.shared.table_id ∷ map (λ b. b.shared.table.shared.table_id) o.blanks.items;
    } };

    ghost invariant = { λ o. IsOpening o.passes o.zones.items (map (λ b. b.shared.table.shared.key) o.blanks.items) o.table.shared.table.shared.key };
}

// Whether one of the zones has the origin.
fn has_origin(zones: &[ZoneItems], origin: &Name) -> bool
    ensures { result ≡ list_any (λ z. same_name (origin_in z) origin.now) zones.now }
{
    zones.iter().any(|zone| zone.origin == *origin)
}

// The items of a zone.
fn items_of(alloc: Global, loaded: LoadedZone) -> Result<ZoneItems, AllocError>
    ensures { IfOk result (λ z. (z.origin ≡ loaded.origin) × StandsAs (entries_in z) loaded.pairs × IsZone z.origin (entries_in z)) }
{
    let LoadedZone { zone } = loaded;
    let origin = *zone.origin();
    let items = zone_items(alloc, zone)?;
    Ok(ZoneItems { origin, items })
}

// Each pass with what it reads and writes items by.
fn serving<H: Home>(
    alloc: Global,
    passes: Vec<ZonesPass<H>>,
) -> Result<Vec<ServerPass<H>>, AllocError>
    requires { All (IsServing H.zones) passes.items }
    ensures { IfOk result (λ all. length all.items ≡ length passes.items) }
{
    let mut passes = passes;
    let mut all = Vec::with_capacity(alloc, passes.len())?;
    while let Some(pass) = passes.pop() {
        let scratch = Scratch::new(alloc)?;
        let items = ItemBuffers::new(alloc)?;
        all.push(ServerPass {
            pass,
            scratch,
            items,
        })?;
    }
    Ok(all)
}

// Opens zones on tables that are named.
fn open<H: Home>(
    alloc: Global,
    table: Blank<TableLaw>,
    blanks: Vec<Blank<ZoneLaw>>,
    zones: &[ZoneItems],
) -> Result<(Server<H>, Vec<ServerPass<H>>), OpenRefusal>
    requires table_named { slice_get H.tables 0 ≡ Some table.shared.table.shared.table_id }
    requires named { (k : ℕ) (b : _) → slice_get blanks.items k ≡ Some b → slice_get H.tables (k + 1) ≡ Some b.shared.table.shared.table_id }
    requires opening { IsOpening table.shared.table.shared.key.passes zones.now (sizes_of blanks.items) table.shared.table.shared.key }
    requires served { H.zones ≡ served_of zones.now (sizes_of blanks.items) }
    requires some { 1 ≤ length zones.now }
{
    let (zones, passes) = Zones::<ZoneLaw, H>::open(alloc, table, blanks, zones)?;
    let passes = serving::<H>(alloc, passes)?;
    let server = Server { zones };
    Ok((server, passes))
}

impl Opening {
    ghost use Rattle.zone_server.specs.Builds.{AddsZone, OpensFor};

    /// For so many passes, 1 to 17: one for each thread that asks or changes while others do, and one for each transfer.
    pub fn new(alloc: Global, passes: u32) -> Result<Opening, OpenRefusal>
        ensures { OpensFor passes result }
    {
        if passes < 1 || passes > PASS_LIMIT {
            return Err(OpenRefusal::Passes);
        }
        let table = Blank::new(alloc, TABLE_CHUNKS, passes)?;
        Ok(Opening {
            table,
            blanks: Vec::new(alloc),
            zones: Vec::new(alloc),
            passes,
        })
    }

    /// With one zone more, whose index has so many chunks, 16 to 4,096.
    pub fn with(self, alloc: Global, zone: LoadedZone, chunks: u32) -> Result<Opening, OpenRefusal>
        ensures { AddsZone self zone chunks result }
    {
        let Opening {
            table,
            mut blanks,
            mut zones,
            passes,
        } = self;
        if zones.len() >= ZONE_LIMIT {
            return Err(OpenRefusal::Zones);
        }
        if chunks < 16 || chunks > 4096 {
            return Err(OpenRefusal::Chunks);
        }
        if has_origin(&zones, zone.origin()) {
            return Err(OpenRefusal::Twice);
        }
        blanks.push(Blank::new(alloc, chunks, passes)?)?;
        zones.push(items_of(alloc, zone)?)?;
        Ok(Opening {
            table,
            blanks,
            zones,
            passes,
        })
    }

    /// Opens them: a server, and a pass for each that it was put together for. `H` says in types which zones are served, and on which tables.
    /// Whoever calls a function that is generic in it picks it there, as `Brand`, by two lines of its proof. No clause says how many passes
    /// come, or that none has seen more than version 0.
    pub fn open<H: Home>(
        self,
        alloc: Global,
    ) -> Result<(Server<H>, Vec<ServerPass<H>>), OpenRefusal>
        requires tables { H.tables ≡ self.tables }
        requires zones { H.zones ≡ self.zones }
    {
        let Opening {
            table,
            blanks,
            zones,
            ..
        } = self;
        if zones.is_empty() {
            return Err(OpenRefusal::Zones);
        }
        open::<H>(alloc, table, blanks, &zones)
    }
}
