//! How the zones and their table are opened.
ghost use Rattle.std.specs.Prelude.{◌≡◌, ◌+◌, ◌<◌, ◌≤◌, ◌++◌, ◌∷◌, [], ℕ, List, MatchResult, Some, length, map, slice_get};
ghost use Rattle.zone_table.specs.Prelude.{CanBegin, TableSize, Refuses, Place, places_of, entries_in, OpensZones, RefusesZones};

use crate::law::TableLaw;
use dns_name::Name;
use qp_multi::{Blank, Index, Law, Named, OpenRefusal, Pass};
use std::alloc::{AllocError, Global};
use thiserror::Error;
use trie_write::Item;

/// A zone that is to be opened: its origin, and the items of its version 0.
#[derive(Drop)]
pub struct ZoneItems {
    pub origin: Name,
    pub items: Vec<Item>,
}

/// Why zones aren't opened.
#[derive(Clone, Copy, PartialEq, Eq, Debug, Error)]
pub enum ZonesRefusal {
    /// The trie of the zone of this number has so many cells, over the limit. Of several such zones it is the one whose origin comes first in canonical
    /// order.
    #[error("zone {zone} has {cells} cells, where there is room for {limit}")]
    Full { zone: u32, cells: u64, limit: u64 },
    /// Want of memory, where each zone's trie fits.
    #[error("out of memory")]
    Memory,
}

/// An index that was opened, with its passes.
#[derive(Drop)]
pub(crate) struct Opened<L: Law, N: Named> {
    pub index: Index<L, N>,
    pub passes: Vec<Pass<N>>,
}

// Which refusal is told, of that of the zones before and that of the last one: the first zone in canonical order that is full, or else that memory is
// wanting.
fn told(
    zones: &[ZoneItems],
    refusal: ZonesRefusal,
    last: u32,
    last_refusal: OpenRefusal,
) -> ZonesRefusal
    requires last { last < length zones.now }
    requires so_far { (sizes : List TableSize) × RefusesZones (places_of zones.now sizes) refusal }
    ensures { (sizes : List TableSize) (p : Place) → length sizes ≡ last → slice_get zones.now last ≡ Some p.zone
        → RefusesZones (places_of zones.now sizes) refusal → Refuses p.size.chunks (entries_in p.zone) last_refusal
        → RefusesZones (places_of zones.now sizes ++ p ∷ []) result }
{
    let OpenRefusal::Full { cells, limit } = last_refusal else {
        return refusal;
    };
    if let ZonesRefusal::Full { zone, .. } = refusal {
        if zones[zone as usize].origin < zones[last as usize].origin {
            return refusal;
        }
    }
    ZonesRefusal::Full {
        zone: last,
        cells,
        limit,
    }
}

// Why some zones aren't opened, if it isn't that one is full.
fn refusal_of<T: Drop>(opened: Result<T, ZonesRefusal>) -> ZonesRefusal
    ensures { MatchResult opened (λ _. result ≡ ZonesRefusal.Memory) (λ refusal. result ≡ refusal) }
{
    match opened {
        Ok(_) => ZonesRefusal::Memory,
        Err(refusal) => refusal,
    }
}

// One zone more is opened.
fn with_last<L: Law, N: Named>(
    others: Vec<Opened<L, N>>,
    index: Index<L, N>,
    passes: Vec<Pass<N>>,
) -> Result<Vec<Opened<L, N>>, ZonesRefusal>
    ensures { MatchResult result (λ all. all.items ≡ others.items ++ record { index = index; passes = passes } ∷ [])
        (λ refusal. refusal ≡ ZonesRefusal.Memory) }
{
    let mut all = others;
    match all.push(Opened { index, passes }) {
        Ok(()) => Ok(all),
        Err(_) => Err(ZonesRefusal::Memory),
    }
}

/// Opens each of the zones that there are tables for. All are tried, so that which one is told doesn't hang on where it stands.
pub(crate) fn open_each<L: Law, N: Named>(
    alloc: Global,
    blanks: Vec<Blank<L>>,
    zones: &[ZoneItems],
) -> Result<Vec<Opened<L, N>>, ZonesRefusal>
    requires few { length zones.now ≤ 16 }
    requires enough { length blanks.items ≤ length zones.now }
    requires named { (k : ℕ) (b : _) → slice_get blanks.items k ≡ Some b → slice_get N.tables (k + 1) ≡ Some b.shared.table.shared.table_id }
    requires begin { CanBegin L.lawful zones.now }
    ensures { OpensZones (places_of zones.now (map (λ b. b.shared.table.shared.key) blanks.items)) result }
{
    let mut blanks = blanks;
    let Some(blank) = blanks.pop() else {
        return Ok(Vec::new(alloc));
    };
    let last = blanks.len() as u32;
    let opened = Index::open(alloc, blank, last + 1, &zones[last as usize].items);
    let others = open_each(alloc, blanks, zones);
    match opened {
        Ok((index, passes)) => match others {
            Ok(others) => with_last(others, index, passes),
            Err(refusal) => Err(refusal),
        },
        Err(refusal) => Err(told(zones, refusal_of(others), last, refusal)),
    }
}
