//! Which zone has an origin.
ghost use Rattle.std.specs.Prelude.{◌≡◌, ℕ, IfSome, IsNone, Some, slice_get};
ghost use Rattle.zone_server.specs.Prelude.{Name as Labels};

use dns_name::Name;
use qp_multi::{Law, Named};
use zone_table::Zones;

/// The number of the zone of an origin, attached or not.
pub(crate) fn zone_of<L: Law, N: Named>(zones: &Zones<L, N>, origin: &Name) -> Option<u32>
    ensures found { IfSome result (λ zone. slice_get zones.now.origins.items zone ≡ Some origin.now) }
    ensures none { IsNone result → (zone : ℕ) (other : Labels) → slice_get zones.now.origins.items zone ≡ Some other → other ≡ origin.now → ⊥ }
{
    for zone in 0..zones.count() {
        if *zones.origin(zone) == *origin {
            return Some(zone);
        }
    }
    None
}
