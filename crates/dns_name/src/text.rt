//! Names as text.
ghost use Rattle.std.specs.Prelude.{◌≡◌, ◌<◌, ◌≤◌, ◌+◌, ◌^◌, [], length, slice_set, Result, Ok, IfOk, if◌then◌else◌};
ghost use Rattle.dns_name.specs.Prelude.{wire, IsName, labels_of, name_of, completed, no_octets, Measures, IsLaid};

use crate::pieces::{Piece, piece_at};
use crate::{MOST_LABEL_OCTETS, MOST_OCTETS, Name, blank};
use zone_model::NameRefusal;

// Puts an octet at an index, if there is one.
fn put(octets: &mut [u8], at: usize, octet: u8)
    ensures { octets.new ≡ slice_set octets.old at octet }
{
    if at < octets.len() {
        octets[at] = octet;
    }
}

// Lays the octets of the labels down over zeros, as far as they have room, and tells how many they are, and whether a dot
// ends them. The open label begins at `start`.
fn lay(text: &[u8], octets: &mut [u8]) -> Result<(usize, bool), NameRefusal>
    requires { octets.old ≡ no_octets }
    ensures measures { Measures result (labels_of text.now) }
    ensures small { IfOk result (λ x. x.0 + 255 < 2 ^ 64) }
    ensures laid { IfOk result (λ x. x.0 < 255 → IsLaid octets.new (labels_of text.now)) }
{
    let mut start = 0;
    let mut pending = 0;
    let mut at = 0;
    while at < text.len() {
        match piece_at(text, at) {
            Piece::Dot => {
                if pending == 0 {
                    return Err(NameRefusal::EmptyLabel { at });
                }
                put(octets, start, pending as u8);
                start += pending + 1;
                pending = 0;
                at += 1;
            }
            Piece::Octet(octet, next) => {
                if pending == MOST_LABEL_OCTETS {
                    return Err(NameRefusal::LongLabel { at });
                }
                pending += 1;
                put(octets, start + pending, octet);
                at = next;
            }
            Piece::Bad => return Err(NameRefusal::BadEscape { at }),
        }
    }
    if pending == 0 {
        return Ok((start, true));
    }
    put(octets, start, pending as u8);
    Ok((start + pending + 1, false))
}

// The wire form behind labels: the root's where a dot ends them, else the origin's.
fn behind(absolute: bool, origin: &Name) -> &[u8]
    ensures wire { result.now ≡ wire (if absolute then [] else origin.now) }
    ensures name { IsName (if absolute then [] else origin.now) }
{
    if absolute { b"\0" } else { origin.wire() }
}

// The name of a text that is neither empty nor one of the short forms.
fn complete(text: &[u8], origin: &Name) -> Result<Name, NameRefusal>
    ensures { result ≡ completed origin.now (labels_of text.now) }
{
    let mut octets = blank();
    let (front, absolute) = lay(text, &mut octets)?;
    let back = behind(absolute, origin);
    let total = front + back.len();
    if total > MOST_OCTETS {
        return Err(NameRefusal::LongName { octets: total });
    }
    octets[front..total].copy_from_slice(back);
    Ok(Name {
        octets,
        len: total as u8,
    })
}

impl Name {
    /// The name that a text says, by RFC 1035, section 5.1. The text `@` is the origin and `.` the root; a
    /// text without a last dot goes on with the origin. `\DDD` with three decimal digits up to 255 is
    /// that octet, and `\X` is X where X is no digit; neither ends a label. The refusal is the first
    /// from the left, and `LongName`, which counts the octets of the whole, comes after all others.
    pub fn read(text: &[u8], origin: &Name) -> Result<Name, NameRefusal>
        ensures { result ≡ name_of text.now origin.now }
    {
        if text.is_empty() {
            return Err(NameRefusal::EmptyLabel { at: 0 });
        }
        if text.len() == 1 && text[0] == b'@' {
            return Ok(*origin);
        }
        if text.len() == 1 && text[0] == b'.' {
            return Ok(Name::root());
        }
        complete(text, origin)
    }
}
