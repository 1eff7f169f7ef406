//! Numbers as the octets of an item, the highest first.
ghost use Rattle.std.specs.Prelude.{◌≡◌};
ghost use Rattle.rr_data.specs.Prelude.{w16, w32, to_be_bytes};

use byteorder::{BigEndian, ByteOrder};

/// The octets of a number of 16 bits.
pub fn short_octets(number: u16) -> [u8; 2]
    ensures { result ≡ to_be_bytes w16 number }
{
    let mut octets = [0; 2];
    BigEndian::write_u16(&mut octets, number);
    octets
}

/// The octets of a number of 32 bits.
pub fn number_octets(number: u32) -> [u8; 4]
    ensures { result ≡ to_be_bytes w32 number }
{
    let mut octets = [0; 4];
    BigEndian::write_u32(&mut octets, number);
    octets
}
