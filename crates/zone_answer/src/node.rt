//! What answers for a name.

ghost use Rattle.std.specs.Prelude.{◌≡◌, ◌≤◌, Some, length};
ghost use Rattle.zone_answer.specs.Prelude.{key_of, most_item_octets, Version, node, IsNodeOf, held_as, own_node, IsApart, Shows, ShowsSome, StandsOn};

use crate::records::Held;
use crate::walker::Walker;
use dns_name::Name;
use trie_read::{Reading, labels_to};

/// Reads what a name owns into a buffer, if the name exists, and gives its length; 0 where it owns nothing. The walker's key becomes the
/// name's.
#[inline(always)]
fn existing<V: Reading>(
    version: &mut V,
    walker: &mut Walker,
    name: &Name,
    item: &mut [u8],
) -> Option<usize>
    requires stands { (zone : Version) × StandsOn (V.holds version.old) (V.stands version.old walker.old.iter) zone }
    requires room { most_item_octets ≤ length item.old }
    ensures same { version.new ≡ version.old }
    ensures node { (zone : Version) → StandsOn (V.holds version.old) (V.stands version.old walker.old.iter) zone
        → IsNodeOf item.new (own_node zone name.now) (held_as name.now result) }
{
    let _wire = name.wire(); // for the proof
    walker.key.set(name);
    let met = version.reach(&mut walker.iter, &walker.key, &mut walker.above)?;
    let Some(first) = met.difference else {
        let len = version.read(met.leaf, item);
        return Some(len);
    };
    if first.place < walker.key.len() {
        return None;
    }
    Some(0)
}

/// What answers for a name that owns nothing, whose key has its positions before a place in common with the nearest name's: no records where names under it
/// are there, else those of the wildcard under the last name above it that is read by then; `None` where there is no such wildcard. The walker has the
/// name's key.
#[inline(always)]
pub fn absent_node<V: Reading>(
    version: &mut V,
    walker: &mut Walker,
    name: &Name,
    place: u16,
    item: &mut [u8],
) -> Option<Held>
    requires apart { (zone : Version) × IsApart (V.holds version.old) (V.stands version.old walker.old.iter) name.now place zone }
    requires key { walker.old.key ≡ key_of name.now }
    requires room { most_item_octets ≤ length item.old }
    ensures same { version.new ≡ version.old }
    ensures node { (zone : Version) → IsApart (V.holds version.old) (V.stands version.old walker.old.iter) name.now place zone
        → IsNodeOf item.new (node zone name.now) result }
{
    let _wire = name.wire(); // for the proof
    if walker.key.len() <= place {
        return Some(Held {
            name: *name,
            len: 0,
        });
    }
    let encloser = name.cut(labels_to(&walker.key, place));
    let star = encloser.star()?;
    let len = existing(version, walker, &star, item)?;
    Some(Held { name: star, len })
}

/// What answers for a name, if anything does. It is read into a buffer. The walker's key becomes the name's.
pub fn node<V: Reading>(
    version: &mut V,
    walker: &mut Walker,
    owner: &Name,
    item: &mut [u8],
) -> Option<Held>
    requires shown { ShowsSome (V.holds version.old) }
    requires room { most_item_octets ≤ length item.old }
    ensures same { version.new ≡ version.old }
    ensures node { (zone : Version) → Shows (V.holds version.old) zone → IsNodeOf item.new (node zone owner.now) result }
{
    let _wire = owner.wire(); // for the proof
    walker.key.set(owner);
    version.restart(&mut walker.iter);
    let met = version.reach(&mut walker.iter, &walker.key, &mut walker.above)?;
    match met.difference {
        Some(first) => absent_node(version, walker, owner, first.place, item),
        None => {
            let len = version.read(met.leaf, item);
            Some(Held { name: *owner, len })
        }
    }
}
