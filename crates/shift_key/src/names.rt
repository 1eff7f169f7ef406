//! Where the keys of two names in their wire form part, with no key made.

ghost use Rattle.std.specs.Prelude.{◌≡◌, ◌≢◌, ◌≤◌, ◌<◌, ◌+◌, ◌^◌, ℕ, List, length, IfErr};
ghost use Rattle.shift_key.specs.Prelude.{Labels, IsName, IsLabel, IsFolded, BeginsWith, octet_positions, label_positions};
ghost use Rattle.shift_key.specs.Prelude.{key_of, IsParting, HasName, SplitsOff, LabelsPart, NamesPart, OctetsPart};

use crate::table::{first_position, second_position, width};

/// Where two keys first differ.
#[derive(Clone, Copy, PartialEq, Eq, Debug)]
pub struct Parting {
    pub place: u16,
    /// The first key's position there, 0 past its end.
    pub before: u8,
    /// The second key's.
    pub after: u8,
}

/// Where the keys of two names first differ, which octets begin with; None exactly for one name.
pub fn parting_of(first: &[u8], second: &[u8]) -> Option<Parting>
    requires first { (name : Labels) × IsName name × BeginsWith first.now name }
    requires second { (name : Labels) × IsName name × BeginsWith second.now name }
    ensures { (a b : Labels) → IsName a → IsName b → BeginsWith first.now a → BeginsWith second.now b → IsParting (key_of a) (key_of b) result }
{
    match part_names(first, label_count(first), second, label_count(second)) {
        Err(parting) => Some(parting),
        Ok(_) => None,
    }
}

/// How many labels the name has that the octets begin with.
pub fn label_count(octets: &[u8]) -> usize
    requires { (name : Labels) × IsName name × BeginsWith octets.now name }
    ensures { (name : Labels) → IsName name → BeginsWith octets.now name → result ≡ length name }
{
    let len = octets[0] as usize;
    if len == 0 {
        return 0;
    }
    label_count(&octets[len + 1..]) + 1
}

/// The first label, and the octets behind it.
fn split_label(octets: &[u8]) -> (&[u8], &[u8])
    requires { (name : Labels) × HasName octets.now name (length name) × (0 < length name) }
    ensures { (name : Labels) (n : ℕ) → HasName octets.now name n → 0 < n → SplitsOff name n result.0.now result.1.now }
{
    let len = octets[0] as usize;
    octets[1..].split_at(len)
}

/// Compares two names of so many labels, from the last label on. `Ok` gives the length of their key, where they are one.
fn part_names(first: &[u8], labels: usize, second: &[u8], others: usize) -> Result<usize, Parting>
    requires first { (name : Labels) × HasName first.now name labels }
    requires second { (name : Labels) × HasName second.now name others }
    ensures { (a b : Labels) → HasName first.now a labels → HasName second.now b others → NamesPart a b result }
{
    if labels > others {
        let (label, rest) = split_label(first);
        let before = first_position(label[0]);
        return match part_names(rest, labels - 1, second, others) {
            Err(parting) => Err(parting),
            Ok(end) => Err(part_at(end, before, 0)),
        };
    }
    if others > labels {
        let (label, rest) = split_label(second);
        let after = first_position(label[0]);
        return match part_names(first, labels, rest, others - 1) {
            Err(parting) => Err(parting),
            Ok(end) => Err(part_at(end, 0, after)),
        };
    }
    if labels == 0 {
        return Ok(0);
    }
    let (label, rest) = split_label(first);
    let (other, other_rest) = split_label(second);
    if labels == 1 {
        return part_labels(0, label, other);
    }
    match part_names(rest, labels - 1, other_rest, others - 1) {
        Err(parting) => Err(parting),
        Ok(end) => part_labels(end, label, other),
    }
}

/// Compares the positions of two labels, which begin at a place. `Ok` gives the place behind them.
fn part_labels(start: usize, first: &[u8], second: &[u8]) -> Result<usize, Parting>
    requires first { IsLabel first.now }
    requires second { IsLabel second.now }
    requires room { start + length (label_positions first.now) ≤ 504 }
    ensures { (front : List ℕ) → start ≡ length front → LabelsPart front first.now second.now result }
{
    let mut at = start;
    for i in 0..first.len().min(second.len()) {
        if first[i] != second[i] {
            return Err(part_octets(at, first[i], second[i]));
        }
        at += width(first[i]);
    }
    if first.len() > second.len() {
        return Err(part_at(at, first_position(first[second.len()]), 0));
    }
    if second.len() > first.len() {
        return Err(part_at(at, 0, first_position(second[first.len()])));
    }
    Ok(at + 1)
}

/// Where the positions of two octets part, which begin at a place.
#[inline]
fn part_octets(at: usize, first: u8, second: u8) -> Parting
    requires room { at + 1 < 2 ^ 16 }
    requires differ { first ≢ second }
    requires folded { IsFolded first × IsFolded second }
    ensures { OctetsPart at first second result }
{
    let before = first_position(first);
    let after = first_position(second);
    if before != after {
        return part_at(at, before, after);
    }
    part_at(at + 1, second_position(first), second_position(second))
}

#[inline]
fn part_at(place: usize, before: u8, after: u8) -> Parting
    requires { place < 2 ^ 16 }
    ensures { result ≡ record { place = place; before = before; after = after } }
{
    let place = place as u16;
    Parting {
        place,
        before,
        after,
    }
}
