//! The zones that are served, and the table of their origins.
ghost use Rattle.std.specs.Prelude.{◌≡◌, ◌<◌, ◌≤◌, ◌+◌, Some, length, map, slice_get};
ghost use Rattle.std.specs.List.{AllByRecursion, range_with_len};
ghost use Rattle.std.proofs.Props.{props};
ghost use Rattle.zone_model.specs.Names.{IsName};
ghost use Rattle.zone_table.specs.Buckets.{AreFiled, AreZones};

use crate::law::TableLaw;
use dns_name::Name;
use qp_multi::{Index, Law, Named};

/// Zones that are served at once, each an index of its own, and the table of their origins, which is an index too. A zone's number is its
/// place in the list that they were opened with.
#[derive(Drop)]
pub struct Zones<L: Law, N: Named> {
    pub(crate) table: Index<TableLaw, N>,
    pub(crate) zones: Vec<Index<L, N>>,
    pub(crate) origins: Vec<Name>,
    /// Zones by the buckets of their origins.
    pub(crate) buckets: Vec<Vec<u32>>,
    ghost table_place: { table.place ≡ 0 },
    ghost chunks: { table.shared.table.shared.key.chunks ≡ 512 },
    ghost passes: { table.shared.table.shared.key.passes ≤ 17 },
    ghost places: { map (λ z. z.place) zones.items ≡ range_with_len 1 (length zones.items) },
    ghost each: { length origins.items ≡ length zones.items },
    ghost some: { 1 ≤ length zones.items },
    ghost few: { length zones.items ≤ 16 },
    ghost names: { AllByRecursion IsName origins.items } by { Prim.hlevel props },
    ghost bucket_count: { length buckets.items ≡ 64 },
    ghost bucket_zones: { AreZones (length origins.items) (map (λ s. s.items) buckets.items) } by { Prim.hlevel props },
    ghost filed: { AreFiled origins.items (map (λ s. s.items) buckets.items) } by { Prim.hlevel props },
}

impl<L: Law, N: Named> Zones<L, N> {
    /// The index of a zone.
    pub fn zone(&self, zone: u32) -> &Index<L, N>
        requires { zone < length self.now.origins.items }
        ensures value { slice_get self.now.zones.items zone ≡ Some result.now }
        ensures place { result.now.place ≡ zone + 1 }
    {
        &self.zones[zone as usize]
    }

    /// The origin of a zone.
    pub fn origin(&self, zone: u32) -> &Name
        requires { zone < length self.now.origins.items }
        ensures { slice_get self.now.origins.items zone ≡ Some result.now }
    {
        &self.origins[zone as usize]
    }

    /// How many zones there are, attached or not.
    pub fn count(&self) -> u32
        ensures { result ≡ length self.now.origins.items }
    {
        self.origins.len() as u32
    }
}
