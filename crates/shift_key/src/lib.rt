//! The keys of names for a trie: the octets of a name as small positions, so laid out that keys
//! compare, position by position, as their names do in canonical order.
#![tactic(auto)]

ghost use Rattle.std.specs.Prelude.{◌≡◌, ◌≤◌, ◌↔◌, length, slice_index, IsNone, IfSome, IsTrue, []};
ghost use Rattle.shift_key.specs.Prelude.{Labels, IsName, BeginsWith, wire, key_of, IsKey, IsFirstDifference, Leads, IsDifference};

mod difference;
mod encode;
pub mod laws;
mod names;
mod spelled;
mod table;

use crate::difference::compare_labels;
use crate::encode::put_labels;
use crate::names::label_count;
use crate::spelled::SpelledName;
pub use difference::Difference;
use dns_name::Name;
pub use names::{Parting, parting_of};
use std::marker::Model;

// The most octets of an item.
const MOST_ITEM_OCTETS: usize = 65535;

/// The key of a name: at most 504 positions, each below 47, in place.
///
/// Contracts see it as the list of its positions. Behind them stands 0, without end. The name itself is kept beside them, so that an item is
/// compared by its octets.
#[derive(Drop)]
pub struct Key {
    name: SpelledName,
    /// The positions, in front, and a 0 behind them. What lies further on means nothing.
    places: [u8; 512],
    /// How many positions there are.
    len: u16,
}

impl Model for Key {
    ghost use Rattle.std.specs.Prelude.{List, ℕ};

    ghost Value = { List ℕ };

    ghost use Rattle.shift_key.specs.Laid.{positions_of, IsLaid};

    ghost view = { positions_of };

    ghost invariant = { IsLaid };
}

impl Key {
    /// The key of the root, which has no position.
    pub fn root() -> Key
        ensures { result ≡ [] }
    {
        Key {
            name: SpelledName::root(),
            places: [0; 512],
            len: 0,
        }
    }

    /// The key of this name.
    pub fn of(name: &Name) -> Key
        ensures { result ≡ key_of name.now }
    {
        let mut key = Key::root();
        key.set(name);
        key
    }

    /// Makes it the key of this name. Where many keys are wanted one after another, this is cheaper than new ones.
    pub fn set(&mut self, name: &Name)
        ensures { self.new ≡ key_of name.now }
    {
        let len = put_labels(&mut self.places, name.wire());
        self.places[len] = 0;
        self.len = len as u16;
        self.name.set(name);
    }

    /// The name that has this key.
    pub fn to_name(&self) -> Name
        ensures { key_of result ≡ self.now }
    {
        Name::from_wire(self.name.wire()).unwrap()
    }

    /// The wire form of the name that has this key.
    pub fn wire(&self) -> &[u8]
        ensures key { IsKey self.now }
        ensures wire { (name : Labels) → IsName name → self.now ≡ key_of name → result.now ≡ wire name }
    {
        self.name.wire()
    }

    /// How many labels its name has.
    pub fn labels(&self) -> u8
        ensures key { IsKey self.now }
        ensures labels { (name : Labels) → IsName name → self.now ≡ key_of name → result ≡ length name }
    {
        label_count(self.name.wire()) as u8
    }

    /// How many positions it has.
    #[inline]
    pub fn len(&self) -> u16
        ensures length { result ≡ length self.now }
        ensures key { IsKey self.now }
    {
        self.len
    }

    /// The position at this place, 0 past the end.
    #[inline]
    pub fn at(&self, place: u16) -> u8
        ensures { result ≡ slice_index self.now place }
    {
        if place < self.len {
            self.places[place as usize]
        } else {
            0
        }
    }

    /// The position at this place, at most that of its end, where it is 0.
    #[inline]
    pub fn position(&self, place: u16) -> u8
        requires { place ≤ length self.now }
        ensures { result ≡ slice_index self.now place }
    {
        self.places[place as usize]
    }

    /// The first place at which the keys differ, which orders their names; None exactly for equal keys.
    pub fn first_difference(&self, other: &Key) -> Option<u16>
        ensures none { IsNone result ↔ (self.now ≡ other.now) }
        ensures some { IfSome result (IsFirstDifference self.now other.now) }
    {
        for place in 0..self.len.max(other.len) {
            if self.at(place) != other.at(place) {
                return Some(place);
            }
        }
        None
    }

    /// The first place at which the key differs from that of the name that the octets begin with, and what that one has there; None exactly for
    /// equal keys.
    pub fn difference(&self, octets: &[u8]) -> Option<Difference>
        requires { (other : Labels) × IsName other × BeginsWith octets.now other }
        ensures key { IsKey self.now }
        ensures difference { (other : Labels) → IsName other → BeginsWith octets.now other → IsDifference self.now (key_of other) result }
    {
        match compare_labels(&self.places[..self.len as usize], octets) {
            Err(difference) => Some(difference),
            Ok(end) => {
                if end >= self.len as usize {
                    return None;
                }
                let place = end as u16;
                Some(Difference { place, position: 0 })
            }
        }
    }

    /// Whether the item has 1 to 65,535 bytes and begins with the wire form of the key's name.
    pub fn leads(&self, item: &[u8]) -> bool
        ensures { IsTrue result ↔ Leads self.now item.now }
    {
        item.len() <= MOST_ITEM_OCTETS && item.starts_with(self.name.wire())
    }
}
