//! A name in place, over which others are written.

ghost use Rattle.std.specs.Prelude.{◌≡◌, [], take, length};
ghost use Rattle.zone_model.specs.Names.{IsName, wire};

use dns_name::Name;
use std::marker::Model;

/// A name: its wire form, in front. What lies further on means nothing, so only its own octets are copied where a [`Name`] is copied whole.
///
/// Contracts see it as the list of its labels.
#[derive(Drop)]
pub struct SpelledName {
    octets: [u8; 255],
    len: u8,
}

impl Model for SpelledName {
    ghost use Rattle.std.specs.Prelude.{List, ℕ, length, take};
    ghost use Rattle.zone_model.specs.Names.{labels_in};
    ghost use Rattle.dns_name.specs.Spelling.{IsNameSpelled};

    ghost Value = { List (List ℕ) };

    ghost view = { λ n. labels_in (length (take n.len n.octets)) (take n.len n.octets) };

    ghost invariant = { λ n. IsNameSpelled (take n.len n.octets) };
}

impl SpelledName {
    /// The name without labels.
    pub fn root() -> SpelledName
        ensures { result ≡ [] }
    {
        SpelledName {
            octets: [0; 255],
            len: 1,
        }
    }

    /// Makes it this name.
    pub fn set(&mut self, name: &Name)
        ensures { self.new ≡ name.now }
    {
        let wire = name.wire();
        self.octets[..wire.len()].copy_from_slice(wire);
        self.len = wire.len() as u8;
    }

    /// Its wire form.
    pub fn wire(&self) -> &[u8]
        ensures wire { result.now ≡ wire self.now }
        ensures name { IsName self.now }
    {
        &self.octets[..self.len as usize]
    }
}
