//! A zone that was read, to be served.
ghost use Rattle.std.specs.Prelude.{◌≡◌, ◌≤◌, ◌^◌, IfOk, length};

use dns_name::Name;
use master_file::{Zone, read_zone};
use std::alloc::{AllocError, AllocFailed, Global};
use std::marker::Model;
use thiserror::Error;
use zone_text::ZoneRefusal;

// The most octets of a zone's text.
const TEXT_LIMIT: usize = 1 << 24;

/// A zone as a master file says it. Contracts see its origin, and what its names own.
#[derive(Drop)]
pub struct LoadedZone {
    pub(crate) zone: Zone,
}

impl Model for LoadedZone {
    ghost use Rattle.zone_model.specs.MasterFile as says;
    ghost use Rattle.master_file.specs.Rows.{CanBeDumped};

    ghost Value = { says.Zone };

    ghost view = { λ z. z.zone };

    ghost invariant = { λ z. CanBeDumped z.zone.origin z.zone.pairs };
}

/// Why octets are no zone.
#[derive(Clone, Copy, PartialEq, Eq, Debug, Error)]
pub enum LoadRefusal {
    /// More than 2^24 octets.
    #[error("a zone has at most 16 MiB of text")]
    TooLong,
    /// What is refused first, or want of memory.
    #[error("{0}")]
    Zone(ZoneRefusal),
}

impl From<AllocError> for LoadRefusal {
    fn from(error: AllocError) -> LoadRefusal {
        LoadRefusal::Zone(ZoneRefusal::from(error))
    }
}

impl<T: Drop> From<AllocFailed<T>> for LoadRefusal {
    fn from(failed: AllocFailed<T>) -> LoadRefusal {
        LoadRefusal::Zone(ZoneRefusal::from(failed))
    }
}

impl LoadedZone {
    ghost use Rattle.zone_server.specs.Prelude.{Loads, Reads, lines_of, zone_of};

    // The zone that a text says which isn't too long.
    fn read_short(alloc: Global, origin: &Name, text: &[u8]) -> Result<LoadedZone, ZoneRefusal>
        requires { length text.now ≤ 2 ^ 24 }
        ensures reads { Reads result (λ z. z.pairs) (zone_of origin.now (lines_of text.now)) }
        ensures origin { IfOk result (λ z. z.origin ≡ origin.now) }
    {
        let _wire = origin.wire(); // for the proof: it is a name
        let zone = read_zone(alloc, text, origin)?;
        Ok(LoadedZone { zone })
    }

    /// The zone of an origin that the octets of a master file say (RFC 1035, section 5.1).
    pub fn read(alloc: Global, origin: &Name, text: &[u8]) -> Result<LoadedZone, LoadRefusal>
        ensures { Loads origin.now text.now result }
    {
        if text.len() > TEXT_LIMIT {
            return Err(LoadRefusal::TooLong);
        }
        match LoadedZone::read_short(alloc, origin, text) {
            Ok(zone) => Ok(zone),
            Err(refusal) => Err(LoadRefusal::Zone(refusal)),
        }
    }

    pub fn origin(&self) -> &Name
        ensures { result.now ≡ self.now.origin }
    {
        self.zone.origin()
    }
}
