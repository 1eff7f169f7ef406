//! What a name owns in a transaction's working set.

ghost use Rattle.std.specs.Prelude.{◌≤◌, length};
ghost use Rattle.zone_edit.specs.Prelude.{Between, CanReadOwned, Edits, IsOfSame, IsSame, Reads};

use dns_name::Name;
use qp_multi::{Law, Named, Transaction};
use shift_key::Key;

/// Reads the item of a name into the beginning of a buffer, and gives its length: 0 where the name owns nothing.
pub(crate) fn read_owned<L: Law, N: Named, K>(
    transaction: &mut Transaction<'_, '_, L, N, K>,
    name: &Name,
    key: &Key,
    item: &mut [u8],
) -> usize
    requires { CanReadOwned name.now key.now item.old transaction.old.locked.now.working }
    ensures of_same { IsOfSame transaction.old transaction.new }
    ensures same { Between IsSame transaction.old.locked.now.working transaction.new.locked.now.working }
    ensures within { result ≤ length item.new }
    ensures read { Edits 0 (Reads name.now item.new result) transaction.old.locked.now.working transaction.new.locked.now.working }
{
    let _wire = name.wire(); // for the proof
    match transaction.fetch(key, item) {
        Some(len) => len,
        None => 0,
    }
}
