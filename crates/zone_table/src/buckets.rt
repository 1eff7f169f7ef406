//! Zones filed by the wire forms of their origins, so that the one of just this origin is looked for among few.
ghost use Rattle.std.specs.Prelude.{◌≡◌, ◌<◌, ◌≤◌, All, IfOk, length, map};
ghost use Rattle.zone_table.specs.Buckets.{AreFiled, AreZones, IsBucket, bucket_of};

use dns_name::Name;
use std::alloc::{AllocError, Global};

const BUCKETS: usize = 64;

/// The bucket of an origin, by its wire form. Any number that the octets decide would do: this one differs for most origins that zones of one server have.
#[inline]
pub fn bucket_of(octets: &[u8]) -> usize
    requires { 0 < length octets.now }
    ensures is { result ≡ bucket_of octets.now }
    ensures inside { result < 64 }
{
    (octets.len() + 8 * octets[octets.len() / 4] as usize) % BUCKETS
}

// The zones of one bucket.
fn zones_on(alloc: Global, origins: &[Name], bucket: usize) -> Result<Vec<u32>, AllocError>
    requires { length origins.now ≤ 16 }
    ensures { IfOk result (λ zones. IsBucket origins.now bucket zones.items) }
{
    let mut zones = Vec::new(alloc);
    for zone in 0..origins.len() {
        if bucket_of(origins[zone].wire()) == bucket {
            zones.push(zone as u32)?;
        }
    }
    Ok(zones)
}

/// Files the zones of these origins.
pub fn buckets_for(alloc: Global, origins: &[Name]) -> Result<Vec<Vec<u32>>, AllocError>
    requires { length origins.now ≤ 16 }
    ensures count { IfOk result (λ buckets. length buckets.items ≡ 64) }
    ensures zones { IfOk result (λ buckets. AreZones (length origins.now) (map (λ s. s.items) buckets.items)) }
    ensures filed { IfOk result (λ buckets. AreFiled origins.now (map (λ s. s.items) buckets.items)) }
{
    let mut buckets = Vec::with_capacity(alloc, BUCKETS)?;
    for bucket in 0..BUCKETS {
        buckets.push(zones_on(alloc, origins, bucket)?)?;
    }
    Ok(buckets)
}
