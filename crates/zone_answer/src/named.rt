//! The names that records name.

ghost use Rattle.std.specs.Prelude.{◌≡◌};
ghost use Rattle.zone_answer.specs.Prelude.{name_from, octets_before};

use dns_name::Name;
use rr_data::NS;

/// The type of an address (RFC 1035, section 3.4.1).
pub const A: u16 = 1;

/// The type of an address of version 6 (RFC 3596, section 2.1).
pub const AAAA: u16 = 28;

const MX: u16 = 15;

const SRV: u16 = 33;

/// How many octets stand before the name in the data of a type.
pub fn octets_before(rtype: u16) -> Option<usize>
    ensures { result ≡ octets_before rtype }
{
    if rtype == NS {
        return Some(0);
    }
    if rtype == MX {
        return Some(2);
    }
    if rtype == SRV {
        return Some(6);
    }
    None
}

/// The name that data are from a place on, if they are just a name there.
pub fn name_from(place: usize, octets: &[u8]) -> Option<Name>
    ensures { result ≡ name_from place octets.now }
{
    if octets.len() < place {
        return None;
    }
    let (_, behind) = octets.split_at(place);
    let name = Name::from_wire(behind)?;
    if name.wire().len() < behind.len() {
        return None;
    }
    Some(name)
}
