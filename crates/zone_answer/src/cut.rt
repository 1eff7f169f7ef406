//! Cuts: names below which another zone begins.

ghost use Rattle.std.specs.Prelude.{◌≡◌, ◌≤◌, ◌+◌, ◌==◌, IfSome, length, true};
ghost use Rattle.zone_answer.specs.Prelude.{find, option_map, most_item_octets, is_under, ancestor, Version};
ghost use Rattle.zone_answer.specs.Prelude.{owned, Ancestor, is_cut, IsCutOf, IsCutOver, delegated, held_as, held_at, CanLookAbove, ShowsAbove};

use crate::records::Held;
use dns_name::Name;
use packed_node::Leaf;
use rr_data::{ItemView, NS};
use trie_read::{Ancestor, Reading};

/// A cut above a name: how many labels it has, and how many octets of its item were read.
#[derive(Clone, Copy)]
pub struct Cut {
    labels: u8,
    len: usize,
}

impl Cut {
    /// Its name, by a name that is under it.
    pub fn held(self, name: &Name) -> Held
        requires { self.labels ≤ length name.now }
        ensures { result ≡ held_at name.now self }
    {
        Held {
            name: name.cut(self.labels),
            len: self.len,
        }
    }
}

/// The leaf of the name of so many labels, if that is there.
fn leaf_of(above: &[Ancestor], labels: u8) -> Option<Leaf>
    ensures { result ≡ option_map (λ (a : Ancestor). a.leaf) (find (λ (a : Ancestor). a.labels == labels) above.now) }
{
    for ancestor in above {
        if ancestor.labels == labels {
            return Some(ancestor.leaf);
        }
    }
    None
}

/// Whether a name in the zone of an origin is a cut, if this is what it owns.
pub fn is_cut(origin: &Name, name: &Name, entry: &ItemView<'_>) -> bool
    requires { is_under name.now origin.now ≡ true }
    ensures { (zone : Version) → entry.now ≡ owned name.now zone → result ≡ is_cut origin.now zone name.now }
{
    if name.wire().len() <= origin.wire().len() {
        return false;
    }
    entry.find_set(NS).is_some()
}

/// Reads what the name of so many labels at or above a name owns into a buffer, and gives its length, if it owns an NS set. It stands by
/// itself, since a function clears the room for all names that it may read.
#[inline(never)]
fn delegated<V: Reading>(
    version: &mut V,
    name: &Name,
    labels: u8,
    above: &[Ancestor],
    item: &mut [u8],
) -> Option<usize>
    requires shown { (zone : Version) × ShowsAbove (V.holds version.old) (V.lies version.old) name.now above.now zone }
    requires few { labels ≤ length name.now }
    requires room { most_item_octets ≤ length item.old }
    ensures same { version.new ≡ version.old }
    ensures cut { (zone : Version) → ShowsAbove (V.holds version.old) (V.lies version.old) name.now above.now zone
        → IsCutOf zone item.new (delegated zone (ancestor labels name.now)) (held_as (ancestor labels name.now) result) }
{
    let _wire = name.wire(); // for the proof
    let leaf = leaf_of(above, labels)?;
    let len = version.read(leaf, item);
    let held = Cut { labels, len }.held(name);
    if held.view(item).find_set(NS).is_none() {
        return None;
    }
    Some(len)
}

/// Whether a name at or under another has one label more at most, which its octets tell.
pub fn is_right_under(origin: &Name, name: &Name) -> bool
    requires { is_under name.now origin.now ≡ true }
    ensures { result ≡ true → length name.now ≤ length origin.now + 1 }
{
    let octets = name.wire();
    octets.len() <= origin.wire().len() + 1 + octets[0] as usize
}

/// Of the cuts above a name, the one nearest to the origin, by the names at or above it that are there. What it owns is read into
/// a buffer.
#[inline(always)]
pub fn cut_over<V: Reading>(
    version: &mut V,
    origin: &Name,
    name: &Name,
    above: &[Ancestor],
    item: &mut [u8],
) -> Option<Cut>
    requires { CanLookAbove (V.holds version.old) (V.lies version.old) origin.now name.now above.now item.old }
    ensures same { version.new ≡ version.old }
    ensures few { IfSome result (λ cut. cut.labels ≤ length name.now) }
    ensures cut { (zone : Version) → ShowsAbove (V.holds version.old) (V.lies version.old) name.now above.now zone
        → IsCutOver origin.now name.now zone item.new (option_map (held_at name.now) result) }
{
    let last = name.labels().saturating_sub(1);
    for labels in origin.labels()..last {
        if let Some(len) = delegated(version, name, labels + 1, above, item) {
            return Some(Cut {
                labels: labels + 1,
                len,
            });
        }
    }
    None
}
