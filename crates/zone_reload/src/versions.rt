//! The names of a version that is read.
ghost use Rattle.std.specs.Prelude.{◌≡◌, ◌≤◌, length};
ghost use Rattle.zone_reload.specs.Prelude.{Faces, FacesSome, ShowsAll, ShowsLeft, ShowsSome, Version, most_item_octets};

use dns_name::Name;
use trie_read::{Iter, Reading};
use zone_diff::{Ahead, Names, owner_of};
use zone_dump::next_item;

/// The names of a version from one on, which is laid down as an item in a buffer that is lent.
#[derive(Drop)]
pub struct VersionNames<'v, V: Reading> {
    version: &'v mut V,
    iter: Iter,
    ahead: Option<Ahead>,
    octets: &'v mut [u8],
}

// Lays down the item of the next name.
fn next_of<V: Reading>(version: &mut V, iter: &mut Iter, octets: &mut [u8]) -> Option<Ahead>
    requires faces { FacesSome (V.stands version.old iter.old) }
    requires room { most_item_octets ≤ length octets.old }
    ensures same { version.new ≡ version.old }
    ensures names { (left : Version) → Faces (V.stands version.old iter.old) left → ShowsLeft (V.stands version.old iter.new) result octets.new left }
{
    let len = next_item(version, iter, octets)?;
    let owner = owner_of(&octets[..len]);
    Some(Ahead { owner, len })
}

impl<'v, V: Reading> VersionNames<'v, V> {
    /// All names of a version, each laid down in the buffer in its turn.
    pub fn new(version: &'v mut V, octets: &'v mut [u8]) -> Self
        requires shown { ShowsSome (V.holds version.old) }
        requires room { most_item_octets ≤ length octets.old }
        ensures same_reference { result.version.ghost_name ≡ version.entry.ghost_name }
        ensures same { result.version.now ≡ version.entry.now }
        ensures shows { ShowsAll (V.holds version.entry.now) (V.stands result.version.now result.iter) result.ahead result.octets.now }
    {
        let mut iter = version.iter();
        let ahead = next_of(version, &mut iter, octets);
        VersionNames {
            version,
            iter,
            ahead,
            octets,
        }
    }
}

impl<V: Reading> Names for VersionNames<'_, V> {
    ghost use Rattle.std.proofs.Common.{◌≡◌, ◌∙◌, refl};
    ghost use Rattle.zone_reload.specs.Shown.{ShowsNames};

    ghost shows = { λ n left. ShowsNames (V.stands n.version.now n.iter) n.ahead n.octets.now left };

    ghost stays = { λ a b. (b.version.ghost_name ≡ a.version.ghost_name) × (b.version.now ≡ a.version.now) };

    fn is_empty(&self) -> bool {
        self.ahead.is_none()
    }

    fn owner(&self) -> Option<Name> {
        match &self.ahead {
            Some(ahead) => Some(ahead.owner),
            None => None,
        }
    }

    fn item(&self) -> &[u8] {
        match &self.ahead {
            Some(ahead) => &self.octets[..ahead.len],
            None => &[],
        }
    }

    fn pass(&mut self) {
        if self.ahead.is_some() {
            self.ahead = next_of(self.version, &mut self.iter, self.octets);
        }
    }

    ghost stays_same = { λ n. (refl, refl) };

    ghost stays_on = { λ a b c h k. (k.0 ∙ h.0, k.1 ∙ h.1) };
}
