//! From the octets of a name to positions.

ghost use Rattle.std.specs.Prelude.{◌≡◌, ◌≤◌, ◌<◌, ◌+◌, ◌++◌, length, take};
ghost use Rattle.shift_key.specs.Prelude.{Labels, octet_positions, label_positions, key_of, Spells, IsSpelled, HasRoom, IsFront};

use crate::table::positions;
use dns_name::first_label;

/// Writes the key of the name that the bytes spell, the nearest label last, and gives its length.
pub fn put_labels(places: &mut [u8; 512], bytes: &[u8]) -> usize
    requires spelled { IsSpelled bytes.now }
    requires room { HasRoom bytes.now }
    ensures { (labels : Labels) → Spells bytes.now labels → IsFront (key_of labels) result places.new }
{
    match first_label(bytes) {
        None => 0,
        Some((label, rest)) => {
            // The root takes no position.
            let at = if rest[0] > 0 {
                put_labels(places, rest)
            } else {
                0
            };
            put_label(places, at, label)
        }
    }
}

/// Writes the positions of a label from a place on, and gives the place behind them.
fn put_label(places: &mut [u8; 512], start: usize, label: &[u8]) -> usize
    requires { start + length (label_positions label.now) ≤ 512 }
    ensures { IsFront (take start places.old ++ label_positions label.now) result places.new }
{
    let mut at = start;
    for octet in label {
        at = put_octet(places, at, *octet);
    }
    places[at] = 0;
    at + 1
}

/// Writes the positions of an octet at a place, and gives the place behind them. Where it has one alone, the next place is written too.
#[inline]
fn put_octet(places: &mut [u8; 512], at: usize, octet: u8) -> usize
    requires { at + 1 < 512 }
    ensures { IsFront (take at places.old ++ octet_positions octet) result places.new }
{
    let all = positions(octet);
    places[at] = (all % 256) as u8;
    places[at + 1] = (all / 256 % 256) as u8;
    at + (all / 65536) as usize
}
