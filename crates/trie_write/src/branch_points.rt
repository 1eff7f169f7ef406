//! Where the keys of neighbouring items part.

ghost use Rattle.std.specs.Prelude.{◌≡◌, ◌<◌, ◌≤◌, ◌∷◌, IfSome, Some, None};
ghost use Rattle.trie_write.specs.Prelude.{Rises, entry_of, entries_of_items, Ahead, Before};

use super::Item;
use shift_key::parting_of;

/// The first place at which two neighbouring keys differ: a branch parts them there.
#[derive(Clone, Copy)]
pub struct BranchPoint {
    pub offset: u16,
    /// The first key's position there.
    pub before: u8,
    /// The next key's.
    pub after: u8,
}

/// Where an item's key parts from that of the first item behind it; none where there is none.
pub fn point_ahead(item: &Item, rest: &[Item]) -> Option<BranchPoint>
    requires { Rises (entry_of item.now ∷ entries_of_items rest.now) }
    ensures { Ahead (entry_of item.now) (entries_of_items rest.now) result }
{
    let next = rest.first()?;
    let parting = parting_of(item.octets(), next.octets())?;
    Some(BranchPoint {
        offset: parting.place,
        before: parting.before,
        after: parting.after,
    })
}

/// The point, where its offset isn't before `low`.
pub fn from_offset(point: Option<BranchPoint>, low: u16) -> Option<BranchPoint>
    ensures some { IfSome result (λ p. (point ≡ Some p) × (low ≤ p.offset)) }
    ensures none { result ≡ None → Before low point }
{
    let found = point?;
    if found.offset < low {
        return None;
    }
    Some(found)
}
