//! What octets begin with, and what is left behind it.
ghost use Rattle.std.specs.Prelude.{◌≡◌, Option, IfSome, length};
ghost use Rattle.rr_data.specs.Prelude.{option_map, w16, w32, from_be_bytes, split_octets, split_name, split_time};

use dns_name::Name;
use zone_text::MOST_TIME;

// The greatest number of two octets.
pub const MOST_SHORT: u32 = 65_535;

// Splits off a number of octets.
pub fn split_octets(count: usize, octets: &[u8]) -> Option<(&[u8], &[u8])>
    ensures splits { option_map (λ x. (x.0.now, x.1.now)) result ≡ split_octets count octets.now }
    ensures size { IfSome result (λ x. length x.0.now ≡ count) }
{
    if count <= octets.len() {
        Some(octets.split_at(count))
    } else {
        None
    }
}

// Splits off the name that octets begin with.
pub fn split_name(octets: &[u8]) -> Option<(Name, &[u8])>
    ensures { option_map (λ x. (x.0, x.1.now)) result ≡ split_name octets.now }
{
    let name = Name::from_wire(octets)?;
    let len = name.wire().len();
    Some((name, &octets[len..]))
}

// The number that two octets are.
pub fn short_of(octets: &[u8]) -> u16
    requires { length octets.now ≡ 2 }
    ensures { result ≡ from_be_bytes w16 octets.now }
{
    u16::from_be_bytes([octets[0], octets[1]])
}

// The number that four octets are.
pub fn number_of(octets: &[u8]) -> u32
    requires { length octets.now ≡ 4 }
    ensures { result ≡ from_be_bytes w32 octets.now }
{
    u32::from_be_bytes([octets[0], octets[1], octets[2], octets[3]])
}

// Splits off a time of at most the greatest.
pub fn split_time(octets: &[u8]) -> Option<(&[u8], &[u8])>
    ensures splits { option_map (λ x. (x.0.now, x.1.now)) result ≡ split_time octets.now }
    ensures size { IfSome result (λ x. length x.0.now ≡ 4) }
{
    let (time, rest) = split_octets(4, octets)?;
    if number_of(time) <= MOST_TIME {
        Some((time, rest))
    } else {
        None
    }
}
