//! The labels of a key.

ghost use Rattle.std.specs.Prelude.{◌≡◌, ◌<◌, ◌↔◌, ℕ, IsTrue, length, take};
ghost use Rattle.trie_read.specs.Prelude.{IsKey, EndsAt, labels_in};

use shift_key::Key;

/// Whether a label of the key ends before this place, or it is the first.
pub fn ends_at(key: &Key, place: u16) -> bool
    ensures ends { IsTrue result ↔ EndsAt place key.now }
    ensures key { IsKey key.now }
{
    let _key = key.len(); // for the proof
    place == 0 || key.at(place - 1) == 0
}

/// A place past which no label of the key ends but the last one: where that one begins, or further on.
pub fn last_label(key: &Key) -> u16
    ensures within { (place : ℕ) → result < place → place < length key.now → ¬ EndsAt place key.now }
    ensures key { IsKey key.now }
{
    let octets = key.wire();
    // An octet has one position at least, and the label's end has one.
    key.len().saturating_sub(octets[0] as u16 + 1)
}

/// How many labels the key has.
pub fn labels_of(key: &Key) -> u8
    ensures { result ≡ labels_in key.now }
{
    key.labels()
}

/// How many labels of the key end before a place.
pub fn labels_to(key: &Key, place: u16) -> u8
    ensures { result ≡ labels_in (take place key.now) }
{
    let mut labels = 0;
    for at in 0..place.min(key.len()) {
        if key.at(at) == 0 {
            labels += 1;
        }
    }
    labels
}
