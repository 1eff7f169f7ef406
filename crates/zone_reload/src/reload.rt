//! A version's zone exchanged whole.
ghost use Rattle.std.specs.Prelude.{◌≡◌, map, IfOk, IsSomeAnd};
ghost use Rattle.zone_reload.specs.Prelude.{IsOfSame, ReplacesAll, Shows, ShowsSome, Version, WorksOnSome, difference, operation_view};

use crate::operations::OperationList;
use crate::versions::VersionNames;
use dns_name::Name;
use master_file::Zone;
use qp_multi::{Law, Named, Transaction};
use rr_data::item_buffer;
use std::alloc::{AllocError, Global};
use trie_read::Reading;
use zone_change::Operation;
use zone_diff::{NameCursor, Names, Serial, push_between};
use zone_edit::{EditRefusal, ItemBuffers, execute};

// The operations that make of a version that comes name by name another one.
fn list_between<B: Names, A: Names>(
    alloc: Global,
    serial: Serial,
    before: &mut B,
    after: &mut A,
) -> Result<Vec<Operation>, AllocError>
    requires some_before { (left : Version) × B.shows before.old left }
    requires some_after { (left : Version) × A.shows after.old left }
    ensures sources { B.stays before.old before.new × A.stays after.old after.new }
    ensures list { IfOk result (λ operations. (b a : Version) → B.shows before.old b → A.shows after.old a
        → map operation_view operations.items ≡ difference serial b a) }
{
    let mut list = OperationList::new(alloc);
    push_between(alloc, serial, before, after, &mut list)?;
    let OperationList { operations } = list;
    Ok(operations)
}

/// The operations that make of a version a zone.
pub fn operations_between<V: Reading>(
    alloc: Global,
    serial: Serial,
    version: &mut V,
    zone: &Zone,
) -> Result<Vec<Operation>, AllocError>
    requires { ShowsSome (V.holds version.old) }
    ensures same { version.new ≡ version.old }
    ensures list { IfOk result (λ operations. (before : Version) → Shows (V.holds version.old) before
        → map operation_view operations.items ≡ difference serial before zone.now.pairs) }
{
    let mut octets = item_buffer(alloc)?;
    let mut after = NameCursor::new(alloc, zone)?;
    let mut before = VersionNames::new(version, &mut octets);
    list_between(alloc, serial, &mut before, &mut after)
}

/// The operations that make of a version another one, as of a snapshot the current one. Of either only the name at hand is copied.
pub fn operations_to<V: Reading, W: Reading>(
    alloc: Global,
    serial: Serial,
    version: &mut V,
    next: &mut W,
) -> Result<Vec<Operation>, AllocError>
    requires shown { ShowsSome (V.holds version.old) }
    requires next_shown { ShowsSome (W.holds next.old) }
    ensures same { (version.new ≡ version.old) × (next.new ≡ next.old) }
    ensures list { IfOk result (λ operations. (b a : Version) → Shows (V.holds version.old) b → Shows (W.holds next.old) a
        → map operation_view operations.items ≡ difference serial b a) }
{
    let mut octets = item_buffer(alloc)?;
    let mut next_octets = item_buffer(alloc)?;
    let mut before = VersionNames::new(version, &mut octets);
    let mut after = VersionNames::new(next, &mut next_octets);
    list_between(alloc, serial, &mut before, &mut after)
}

/// Makes of a transaction's working set, which is the zone of a version that is read beside it, another zone: what differs is changed, and
/// nothing else is touched. No rule of zones refuses any of it. Where memory is wanting before all that differs is known, nothing is done.
pub fn replace_all<L: Law, N: Named, K, V: Reading>(
    alloc: Global,
    origin: &Name,
    transaction: &mut Transaction<'_, '_, L, N, K>,
    version: &mut V,
    zone: Zone,
    buffers: &mut ItemBuffers,
) -> Result<(), EditRefusal>
    requires works { IsSomeAnd transaction.old.locked.now.working WorksOnSome }
    requires shown { ShowsSome (V.holds version.old) }
    ensures same { version.new ≡ version.old }
    ensures of_same { IsOfSame transaction.old transaction.new }
    ensures replaces { ReplacesAll origin.now (V.holds version.old) zone.pairs result transaction.old.locked.now.working transaction.new.locked.now.working }
{
    let Ok(operations) = operations_between(alloc, Serial::Keep, version, &zone) else {
        return Err(EditRefusal::Memory);
    };
    execute(alloc, origin, transaction, &[], &operations, buffers)
}
