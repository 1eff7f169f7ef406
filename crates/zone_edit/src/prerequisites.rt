//! What a transaction wants of its working set before it changes anything.

ghost use Rattle.std.specs.Prelude.{◌≡◌, ◌≤◌, length, IsSomeAnd, map};
ghost use Rattle.zone_edit.specs.Prelude.{most_item_octets, prerequisite_view, WorksOnSome, Edits, IsOfSame, Meets, MeetsAll};

use crate::reading::read_owned;
use qp_multi::{Law, Named, Transaction};
use rr_data::ItemView;
use shift_key::Key;
use zone_change::Prerequisite;

/// Whether the working set meets a prerequisite. The owner's item is looked at where it lies in a buffer.
fn meets<L: Law, N: Named, K>(
    transaction: &mut Transaction<'_, '_, L, N, K>,
    prerequisite: &Prerequisite,
    item: &mut [u8],
) -> bool
    requires works { IsSomeAnd transaction.old.locked.now.working WorksOnSome }
    requires room { most_item_octets ≤ length item.old }
    ensures of_same { IsOfSame transaction.old transaction.new }
    ensures meets { Edits 0 (Meets (prerequisite_view prerequisite.now) result) transaction.old.locked.now.working transaction.new.locked.now.working }
{
    let owner = &prerequisite.owner;
    let key = Key::of(owner);
    let len = read_owned(transaction, owner, &key, item);
    let entry = ItemView::of(owner, &item[..len]);
    prerequisite.is_met_by(&entry)
}

/// Whether the working set meets all prerequisites.
pub(crate) fn meets_all<L: Law, N: Named, K>(
    transaction: &mut Transaction<'_, '_, L, N, K>,
    prerequisites: &[Prerequisite],
    item: &mut [u8],
) -> bool
    requires works { IsSomeAnd transaction.old.locked.now.working WorksOnSome }
    requires room { most_item_octets ≤ length item.old }
    ensures of_same { IsOfSame transaction.old transaction.new }
    ensures meets { Edits 0 (MeetsAll (map prerequisite_view prerequisites.now) result) transaction.old.locked.now.working transaction.new.locked.now.working }
{
    for prerequisite in prerequisites {
        if !meets(transaction, prerequisite, item) {
            return false;
        }
    }
    true
}
