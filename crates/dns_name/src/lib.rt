//! Names of the domain name system (RFC 1035, sections 2.3.4 and 3.1), each in its own 256 bytes of
//! memory: how they are read, compared, taken apart and printed. Only printing takes memory.
#![tactic(auto)]

ghost use Rattle.std.specs.Prelude.{◌≡◌, ◌≤◌, ◌<◌, length, [], ◌∷◌, List, ℕ, MatchOption, IfSome, IsNone};
ghost use Rattle.dns_name.specs.Prelude.{Labels, IsName, wire, is_under, ancestor, star_under, BeginsWith, no_octets, IsNameSpelled};

mod buffer;
pub mod laws;
mod order;
mod owned;
mod pieces;
mod print;
mod scan;
mod sort_key;
mod text;
mod wire;

use crate::scan::wire_len;
use crate::wire::{count, first, skip, under};
pub use buffer::Octets;
pub use owned::OwnedName;
pub use sort_key::SortKey;
use std::marker::Model;
pub use wire::first as first_label;

// The most octets of a name's wire form (RFC 1035, section 2.3.4).
const MOST_OCTETS: usize = 255;

// The most octets of a label.
const MOST_LABEL_OCTETS: usize = 63;

// An array of zeros.
fn blank() -> [u8; 255]
    ensures { result ≡ no_octets }
{
    [0; 255]
}

/// A name: its wire form in place, at most 255 octets, with the letters A to Z in lower case.
///
/// Contracts see it as the list of its labels, the nearest first. Names are ordered as RFC 4034,
/// section 6.1 says: by their labels from the root downwards, a name before the names under it.
#[derive(Clone, Copy)]
pub struct Name {
    octets: [u8; 255],
    len: u8,
}

impl Model for Name {
    ghost use Rattle.std.specs.Prelude.{List, ℕ};

    ghost Value = { List (List ℕ) };

    ghost use Rattle.dns_name.specs.Inside.{labels_of, IsStored, stored, stored-back};

    ghost view = { labels_of };

    ghost invariant = { IsStored };

    ghost inverse = { stored };

    ghost inverse_ok = { stored-back };
}

// The name with this wire form.
fn of_wire(bytes: &[u8]) -> Name
    requires { IsNameSpelled bytes.now }
    ensures { (labels : Labels) → IsName labels → bytes.now ≡ wire labels → result ≡ labels }
{
    let mut octets = blank();
    octets[..bytes.len()].copy_from_slice(bytes);
    Name {
        octets,
        len: bytes.len() as u8,
    }
}

impl Name {
    /// The name without labels.
    pub fn root() -> Self
        ensures { result ≡ [] }
    {
        of_wire(&[0])
    }

    /// Its wire form: length octet and octets of each label, then a zero octet.
    pub fn wire(&self) -> &[u8]
        ensures wire { result.now ≡ wire self.now }
        ensures name { IsName self.now }
    {
        &self.octets[..self.len as usize]
    }

    /// How many labels it has, the root not counted: at most 127.
    pub fn labels(&self) -> u8
        ensures { result ≡ length self.now }
    {
        count(self.wire()) as u8
    }

    /// The name without its first label; None for the root.
    pub fn parent(&self) -> Option<Name>
        ensures { MatchOption result (self.now ≡ []) (λ up. (label : List ℕ) × (self.now ≡ label ∷ up)) }
    {
        let (_, rest) = first(self.wire())?;
        Some(of_wire(rest))
    }

    /// The name of so many labels at or above this one.
    pub fn cut(&self, labels: u8) -> Name
        requires { labels ≤ length self.now }
        ensures { result ≡ ancestor labels self.now }
    {
        let bytes = self.wire();
        of_wire(skip(bytes, count(bytes) - labels as usize))
    }

    /// The wildcard right under it, `*` and then the name; None where that has over 255 octets.
    pub fn star(&self) -> Option<Name>
        ensures { MatchOption result (255 < length (wire (star_under self.now))) (λ star. star ≡ star_under self.now) }
    {
        let bytes = self.wire();
        if bytes.len() > 253 {
            return None;
        }
        let mut octets = Octets::new();
        octets.push(1);
        octets.push(b'*');
        octets.append(bytes);
        Some(of_wire(octets.as_slice()))
    }

    /// The name whose wire form the bytes begin with, whatever stands behind it; None where they begin
    /// with none. Compressed forms and letters in upper case are none.
    pub fn from_wire(bytes: &[u8]) -> Option<Name>
        ensures name { IfSome result IsName }
        ensures found { IfSome result (BeginsWith bytes.now) }
        ensures none { IsNone result → (name : Labels) → IsName name → BeginsWith bytes.now name → ⊥ }
    {
        let len = wire_len(bytes)?;
        Some(of_wire(&bytes[..len]))
    }

    /// Whether it is the other name or lies under it.
    pub fn is_under(&self, other: &Name) -> bool
        ensures { result ≡ is_under self.now other.now }
    {
        under(self.wire(), other.wire())
    }
}
