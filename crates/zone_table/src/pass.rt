//! A pass of the zones: one of the table and one of each zone.
ghost use Rattle.std.specs.Prelude.{◌≡◌, ◌+◌, Some, slice_get};
ghost use Rattle.zone_table.specs.Prelude.{sem, known_at, HasZone, IsHere, zone_known, lends_zone};

use crate::remembered::Remembered;
use crate::zones::Zones;
use qp_multi::{Law, Named, Pass};

/// A reader's place in the table and in each zone. It asks one thing at a time; it may go to another thread.
#[derive(Drop)]
pub struct ZonesPass<N: Named> {
    pub(crate) table: Pass<N>,
    /// One for each zone, in the order of their numbers.
    pub(crate) zones: Vec<Pass<N>>,
    /// Of the table.
    pub(crate) remembered: Remembered,
}

impl<N: Named> ZonesPass<N> {
    /// Its pass of a zone, for queries and transactions of that zone's index.
    pub fn zone<L: Law>(&mut self, zones: &Zones<L, N>, zone: u32) -> &mut Pass<N>
        requires { HasZone zones.now.origins.items zone self.old }
        ensures* writes_back { sem 𝓛 (lends_zone N.row N.Named self.entry zone result) }
        ensures value { slice_get self.old.zones.items zone ≡ Some result.now }
        ensures at { IsHere (zone + 1) result.now }
        ensures known { known_at result.now.seat ≡ zone_known self.old zone }
    {
        let _zones = zones; // for the proof
        &mut self.zones[zone as usize]
    }
}
