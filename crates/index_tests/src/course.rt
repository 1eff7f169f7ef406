//! A long course of transactions, one name each. What a transaction does, and what a version then has, is told from its number alone.
//! The names are visited in rounds, each once a round, in an order that is the round's own. A name that isn't there is put in; one that
//! is gets another item, or is taken out.

use crate::worker::Act;

/// How many names are visited.
pub(crate) const NAMES: u64 = 1_000;

/// What the places are multiplied by in a round, and what undoes that: the product is 1 more than a multiple of 1,000.
const ORDERS: [(u64, u64); 8] = [
    (3, 667),
    (7, 143),
    (9, 889),
    (11, 91),
    (13, 77),
    (17, 353),
    (19, 579),
    (23, 87),
];

/// What a transaction does.
#[derive(Clone, Copy)]
pub(crate) struct Visit {
    pub(crate) place: u64,
    pub(crate) act: Act,
    /// How long the new item is.
    pub(crate) octets: u8,
}

/// The octets of the name at a place.
pub(crate) fn name_at(place: u64) -> [u8; 2] {
    [b'b' + (place / 40 % 25) as u8, 128 + (place % 40) as u8]
}

/// A number that looks drawn.
fn drawn(number: u64) -> u64 {
    let mixed = (number ^ (number >> 31)).wrapping_mul(0x9e37_79b9_7f4a_7c15);
    mixed ^ (mixed >> 29)
}

/// How far a round's order is shifted.
fn shift_of(round: u64) -> u64 {
    drawn(round) / 8 % NAMES
}

/// When a place is visited in a round.
fn turn_of(round: u64, place: u64) -> u64 {
    let (times, _) = ORDERS[(drawn(round) % 8) as usize];
    place.wrapping_mul(times).wrapping_add(shift_of(round)) % NAMES
}

/// Which place is visited at a turn of a round.
fn place_at(round: u64, turn: u64) -> u64 {
    let (_, back) = ORDERS[(drawn(round) % 8) as usize];
    let unshifted = turn.wrapping_add(NAMES).wrapping_sub(shift_of(round));
    unshifted.wrapping_mul(back) % NAMES
}

/// Whether a round takes the name of a place out, if it is there.
fn takes_out(round: u64, place: u64) -> bool {
    drawn(round.wrapping_mul(NAMES).wrapping_add(place)) % 3 == 0
}

/// Whether the name of a place is there after its visit of a round. The first round puts all in, and a round that takes none out leaves
/// it there; from then on it goes and comes.
fn is_there(round: u64, place: u64) -> bool {
    let mut there = true;
    for back in 0..round {
        if !takes_out(round - back, place) {
            return there;
        }
        there = !there;
    }
    there
}

/// What the transaction of a number does, counted from 0.
pub(crate) fn visit_of(number: u64) -> Visit {
    let round = number / NAMES;
    let place = place_at(round, number % NAMES);
    let octets = 12 + (drawn(number) % 17) as u8;
    let act = act_in(round, place);
    Visit { place, act, octets }
}

/// What a round does with the name of a place.
fn act_in(round: u64, place: u64) -> Act {
    if !is_there(round, place) {
        return Act::Out;
    }
    match round.checked_sub(1) {
        Some(before) if is_there(before, place) => Act::Exchange,
        _ => Act::In,
    }
}

/// The round and the turn of the last visit of a place among so many transactions.
fn last_visit(version: u64, place: u64) -> Option<(u64, u64)> {
    let last = version.checked_sub(1)?;
    let round = last / NAMES;
    let turn = turn_of(round, place);
    if turn <= last % NAMES {
        return Some((round, turn));
    }
    let before = round.checked_sub(1)?;
    Some((before, turn_of(before, place)))
}

/// The number of the version that has last put something in at a place; none where a version has no name there.
pub(crate) fn due(version: u64, place: u64) -> Option<u64> {
    let (round, turn) = last_visit(version, place)?;
    if is_there(round, place) {
        Some(round.wrapping_mul(NAMES).wrapping_add(turn).wrapping_add(1))
    } else {
        None
    }
}
