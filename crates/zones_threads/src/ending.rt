//! How the zones and their table end, when all workers are done.
ghost use Rattle.std.specs.Prelude.{◌≡◌, ◌+◌, ◌<◌, ℕ, Some, All, IfOk, length, slice_get, slice_index};
ghost use Rattle.zones_threads.specs.Prelude.{IsPassOf, table_known, zone_known, table_views, zone_views, EndsTable, EndsZone, IsSite, Site};

use crate::closing::all_names;
use job_commands::ZoneLaw;
use qp_multi::Named;
use std::alloc::{AllocError, Global};
use zone_table::{Zones, ZonesPass};

/// The last version of the table, and how many zones it has; the last version of each zone, and how many names it has, in the order
/// of their numbers.
#[derive(Drop)]
pub(crate) struct LastOnes {
    pub table: u64,
    pub attached: u64,
    pub versions: Vec<u64>,
    pub names: Vec<u64>,
}

// The zones' versions, of numbers that stand behind the table's.
fn versions_in(alloc: Global, numbers: &[u64], count: usize) -> Result<Vec<u64>, AllocError>
    requires { count < length numbers.now }
    ensures many { IfOk result (λ versions. length versions.items ≡ count) }
    ensures each { IfOk result (λ versions. (zone version : ℕ) → slice_get versions.items zone ≡ Some version → version ≡ slice_index numbers.now (zone + 1)) }
{
    let mut versions = Vec::with_capacity(alloc, count)?;
    for zone in 0..count {
        versions.push(numbers[zone + 1])?;
    }
    Ok(versions)
}

/// Asks for the last versions, when all workers are done and main has learnt what they saw, and ends the zones.
pub(crate) fn close_zones<N: Named>(
    alloc: Global,
    zones: Zones<ZoneLaw, N>,
    mut main: ZonesPass<N>,
    mut passes: Vec<ZonesPass<N>>,
) -> Result<LastOnes, AllocError>
    requires main { IsPassOf zones.origins.items main }
    requires passes { All (IsPassOf zones.origins.items) passes.items }
    ensures many { IfOk result (λ l. (length l.versions.items ≡ length zones.origins.items) × (length l.names.items ≡ length zones.origins.items)) }
    ensures table { IfOk result (λ l. EndsTable zones.origins.items zones.table.shared.table.shared.key.passes
        (table_views passes.items) (table_known main) l.table l.attached) }
    ensures zones { IfOk result (λ l. (site : Site) (version names : ℕ) → IsSite zones site
        → slice_get l.versions.items site.number ≡ Some version → slice_get l.names.items site.number ≡ Some names
        → EndsZone site (zone_views site.number passes.items) (zone_known main site.number) version names) }
{
    let count = zones.count() as usize;
    let attached = main.attached(&zones);
    let names = all_names(alloc, &zones, &mut main)?;
    passes.push(main)?;
    let numbers = zones.close(alloc, passes)?;
    let versions = versions_in(alloc, &numbers, count)?;
    Ok(LastOnes {
        table: numbers[0],
        attached: attached.zones,
        versions,
        names,
    })
}
