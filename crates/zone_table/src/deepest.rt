//! The zone of the deepest origin at or above a name, of those that are attached.
ghost use Rattle.std.specs.Prelude.{◌↔◌, ◌<◌, IfSome, IsNone, IsTrue, List, ℕ, length};
ghost use Rattle.zone_table.specs.Prelude.{IsSpelled, Spells, Entry, Labels, IsZoneOf, AreAttached, IsAt};

use crate::buckets::bucket_of;
use crate::zones::Zones;
use dns_name::first_label;
use qp_multi::{Law, Named};

impl<L: Law, N: Named> Zones<L, N> {
    // Whether a zone is attached and has just this origin.
    #[inline]
    fn is_at(&self, attached: &[bool; 16], octets: &[u8], zone: usize) -> bool
        requires { zone < length self.now.origins.items }
        ensures { IsTrue result ↔ IsAt self.now.origins.items attached.now octets.now zone }
    {
        attached[zone] && self.origins[zone].wire() == octets
    }

    // The zone that is attached and has just this origin.
    #[inline]
    fn zone_at(&self, attached: &[bool; 16], octets: &[u8]) -> Option<u32>
        requires { 0 < length octets.now }
        ensures found { IfSome result (IsAt self.now.origins.items attached.now octets.now) }
        ensures none { IsNone result → (zone : ℕ) → IsAt self.now.origins.items attached.now octets.now zone → ⊥ }
    {
        let zones = &self.buckets[bucket_of(octets)];
        for zone in zones {
            if self.is_at(attached, octets, *zone as usize) {
                return Some(*zone);
            }
        }
        None
    }

    /// The zone that a name of this wire form is in, where it is told of each zone whether it is attached.
    pub(crate) fn deepest(&self, attached: &[bool; 16], octets: &[u8]) -> Option<u32>
        requires { IsSpelled octets.now }
        ensures { (es : List Entry) (name : Labels) → Spells octets.now name → AreAttached self.now.origins.items es attached.now
            → IsZoneOf self.now.origins.items es name result }
    {
        let mut rest = octets;
        loop {
            if let Some(zone) = self.zone_at(attached, rest) {
                return Some(zone);
            }
            let (_, above) = first_label(rest)?;
            rest = above;
        }
    }
}
