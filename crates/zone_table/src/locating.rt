//! Where a name is, and how many zones are attached.
ghost use Rattle.std.specs.Prelude.{◌≡◌, length};
ghost use Rattle.zone_table.specs.Prelude.{known_at, version_seen, Pinned, IsAmong, IsZoneOf, IsPassOf, HasLooked, AreAttached};

use crate::pass::ZonesPass;
use crate::remembered::Remembered;
use crate::zones::Zones;
use dns_name::Name;
use qp_multi::{Law, Named};
use trie_read::Reading;

/// Which zone a name is in, by a version of the table.
#[derive(Clone, Copy, PartialEq, Eq, Debug)]
pub struct Located {
    /// The table's version.
    pub version: u64,
    /// The zone's number; None where that version has no origin at or above the name.
    pub zone: Option<u32>,
}

/// How many origins a version of the table has.
#[derive(Clone, Copy, PartialEq, Eq, Debug)]
pub struct Attached {
    /// The table's version.
    pub version: u64,
    pub zones: u64,
}

impl<N: Named> ZonesPass<N> {
    // Looks which zones are attached in the version that is current at some moment of the call, and gives its number. It pins it for that.
    #[inline(never)]
    fn look_anew<L: Law>(&mut self, zones: &Zones<L, N>) -> u64
        requires pass { IsPassOf zones.now.origins.items self.old }
        ensures pass { IsPassOf zones.now.origins.items self.new }
        ensures others { self.new.zones ≡ self.old.zones }
        ensures version { Pinned IsAmong (known_at self.old.table.seat) (known_at self.new.table.seat) result }
        ensures attached { AreAttached zones.now.origins.items (version_seen (known_at self.new.table.seat).seen) self.new.remembered.attached }
    {
        let mut query = self.table.query(&zones.table);
        self.remembered = Remembered::of(&mut query, &zones.origins);
        query.version()
    }

    // The same, without a pin where that version is the one that is remembered.
    #[inline]
    fn look<L: Law>(&mut self, zones: &Zones<L, N>) -> u64
        requires pass { IsPassOf zones.now.origins.items self.old }
        ensures pass { IsPassOf zones.now.origins.items self.new }
        ensures others { self.new.zones ≡ self.old.zones }
        ensures version { HasLooked (known_at self.old.table.seat) (known_at self.new.table.seat) result }
        ensures attached { AreAttached zones.now.origins.items (version_seen (known_at self.new.table.seat).seen) self.new.remembered.attached }
    {
        let version = self.table.see(&zones.table);
        if self.remembered.version == Some(version) {
            return version;
        }
        self.look_anew(zones)
    }

    /// Finds the zone that a name is in: the one with the deepest origin at or above it, in the version of the table that is current at some moment of
    /// the call, and no older than what this pass had seen.
    pub fn locate<L: Law>(&mut self, zones: &Zones<L, N>, name: &Name) -> Located
        requires pass { IsPassOf zones.now.origins.items self.old }
        ensures pass { IsPassOf zones.now.origins.items self.new }
        ensures others { self.new.zones ≡ self.old.zones }
        ensures version { HasLooked (known_at self.old.table.seat) (known_at self.new.table.seat) result.version }
        ensures zone { IsZoneOf zones.now.origins.items (version_seen (known_at self.new.table.seat).seen) name.now result.zone }
    {
        let version = self.look(zones);
        let zone = zones.deepest(&self.remembered.attached, name.wire());
        Located { version, zone }
    }

    /// Counts the origins that the version of the table has which is current at some moment of the call, and no older than what this pass had
    /// seen.
    pub fn attached<L: Law>(&mut self, zones: &Zones<L, N>) -> Attached
        requires pass { IsPassOf zones.now.origins.items self.old }
        ensures pass { IsPassOf zones.now.origins.items self.new }
        ensures others { self.new.zones ≡ self.old.zones }
        ensures version { Pinned IsAmong (known_at self.old.table.seat) (known_at self.new.table.seat) result.version }
        ensures zones { result.zones ≡ length (version_seen (known_at self.new.table.seat).seen) }
    {
        let mut query = self.table.query(&zones.table);
        Attached {
            version: query.version(),
            zones: query.count(),
        }
    }
}
