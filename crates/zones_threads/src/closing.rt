//! How large each zone is, when all workers are done.
ghost use Rattle.std.specs.Prelude.{◌≡◌, ◌≢◌, ◌<◌, ℕ, Some, IfOk, length, slice_get};
ghost use Rattle.zones_threads.specs.Prelude.{IsPassOf, table_known, zone_known, Counted};

use job_commands::{ZoneLaw, measure};
use qp_multi::Named;
use std::alloc::{AllocError, Global};
use zone_table::{Zones, ZonesPass};

// How many names the current version of a zone has.
fn names_in<N: Named>(zones: &Zones<ZoneLaw, N>, pass: &mut ZonesPass<N>, zone: u32) -> u64
    requires pass { IsPassOf zones.now.origins.items pass.old }
    requires zone { zone < length zones.now.origins.items }
    ensures pass { IsPassOf zones.now.origins.items pass.new }
    ensures others { (table_known pass.new ≡ table_known pass.old) × ((other : ℕ) → other ≢ zone → zone_known pass.new other ≡ zone_known pass.old other) }
    ensures counted { Counted (zone_known pass.old zone) (zone_known pass.new zone) result }
{
    let index = zones.zone(zone);
    let place = pass.zone(zones, zone);
    measure(index, place).names
}

/// How many names the current version of each zone has, in the order of their numbers.
pub fn all_names<N: Named>(
    alloc: Global,
    zones: &Zones<ZoneLaw, N>,
    pass: &mut ZonesPass<N>,
) -> Result<Vec<u64>, AllocError>
    requires pass { IsPassOf zones.now.origins.items pass.old }
    ensures pass { IfOk result (λ _. IsPassOf zones.now.origins.items pass.new) }
    ensures table { IfOk result (λ _. table_known pass.new ≡ table_known pass.old) }
    ensures many { IfOk result (λ names. length names.items ≡ length zones.now.origins.items) }
    ensures counted { IfOk result (λ names. (zone count : ℕ) → slice_get names.items zone ≡ Some count
        → Counted (zone_known pass.old zone) (zone_known pass.new zone) count) }
{
    let mut names = Vec::with_capacity(alloc, zones.count() as usize)?;
    for zone in 0..zones.count() {
        names.push(names_in(zones, pass, zone))?;
    }
    Ok(names)
}
