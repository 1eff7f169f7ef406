//! Keys against names in their wire form, with nothing made.

ghost use Rattle.std.specs.Prelude.{◌≡◌, ◌≤◌, ◌<◌, ◌+◌, ◌^◌, ◌++◌, ◌∷◌, [], List, ℕ, IfOk, length};
ghost use Rattle.shift_key.specs.Prelude.{Labels, IsName, BeginsWith, octet_positions, label_positions, key_of, Agrees, Compares};

use crate::table::{first_position, positions, second_position};

/// Where a key first differs from another one.
#[derive(Clone, Copy, PartialEq, Eq, Debug)]
pub struct Difference {
    pub place: u16,
    /// The position that the other key has there.
    pub position: u8,
}

/// Compares the key with that of the name that the bytes begin with. `Ok` gives the other's length, below which they agree.
pub fn compare_labels(key: &[u8], bytes: &[u8]) -> Result<usize, Difference>
    requires { (name : Labels) × IsName name × BeginsWith bytes.now name }
    ensures { (name : Labels) → IsName name → BeginsWith bytes.now name → Compares key.now (key_of name) result }
{
    let len = bytes[0] as usize;
    if len == 0 {
        return Ok(0);
    }
    match compare_labels(key, &bytes[len + 1..]) {
        Err(difference) => Err(difference),
        Ok(at) => compare_label(key, at, &bytes[1..len + 1]),
    }
}

/// Compares the key with the positions of a label, from a place on.
fn compare_label(key: &[u8], start: usize, label: &[u8]) -> Result<usize, Difference>
    requires { start + length (label_positions label.now) ≤ 504 }
    ensures { (front : List ℕ) → Agrees key.now front start → Compares key.now (front ++ label_positions label.now) result }
{
    let mut at = start;
    for octet in label {
        match compare_octet(key, at, *octet) {
            Err(difference) => return Err(difference),
            Ok(next) => at = next,
        }
    }
    compare_position(key, at, 0)
}

/// Compares it with the positions of an octet, from a place on.
#[inline]
fn compare_octet(key: &[u8], at: usize, octet: u8) -> Result<usize, Difference>
    requires { at + 2 < 2 ^ 16 }
    ensures next { IfOk result (λ next. next ≡ at + length (octet_positions octet)) }
    ensures compared { (front : List ℕ) → Agrees key.now front at → Compares key.now (front ++ octet_positions octet) result }
{
    // Most octets have one position, and the key has it.
    if at < key.len() && u32::from(key[at]) + 65536 == positions(octet) {
        return Ok(at + 1);
    }
    compare_positions(key, at, octet)
}

/// The same, one position after the other.
fn compare_positions(key: &[u8], at: usize, octet: u8) -> Result<usize, Difference>
    requires { at + 2 < 2 ^ 16 }
    ensures next { IfOk result (λ next. next ≡ at + length (octet_positions octet)) }
    ensures compared { (front : List ℕ) → Agrees key.now front at → Compares key.now (front ++ octet_positions octet) result }
{
    match compare_position(key, at, first_position(octet)) {
        Err(difference) => Err(difference),
        Ok(next) => {
            let second = second_position(octet);
            if second == 0 {
                return Ok(next);
            }
            compare_position(key, next, second)
        }
    }
}

/// Compares one position.
#[inline]
fn compare_position(key: &[u8], at: usize, position: u8) -> Result<usize, Difference>
    requires { at < 2 ^ 16 }
    ensures next { IfOk result (λ next. next ≡ at + 1) }
    ensures compared { (front : List ℕ) → Agrees key.now front at → Compares key.now (front ++ position ∷ []) result }
{
    let own = if at < key.len() { key[at] } else { 0 };
    if own == position {
        return Ok(at + 1);
    }
    let place = at as u16;
    Err(Difference { place, position })
}
