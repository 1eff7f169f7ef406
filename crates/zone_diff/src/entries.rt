//! What becomes of one name.
ghost use Rattle.std.specs.Prelude.{◌≡◌, Some, OnOk};
ghost use Rattle.zone_diff.specs.Prelude.{Adds, Entry, IsEntry, Rises, SaysEntry, entry_changes, entry_difference, set_changes, unless_soa};

use crate::Serial;
use crate::changes::OperationSink;
use crate::cursor::SetCursor;
use crate::sets::{Side, push_changes};
use crate::soa::push_soa;
use dns_name::Name;
use rr_data::{ItemView, SOA, SetView};
use std::alloc::{AllocError, Global};

// What becomes of an RRset, which is nothing of an SOA.
fn push_unless_soa<K: OperationSink>(
    side: Side,
    owner: &Name,
    other: &Option<SetView<'_>>,
    set: &SetView<'_>,
    sink: &mut K,
) -> Result<(), AllocError>
    requires rises { Rises (Some set.now) }
    requires other_rises { Rises other.now }
    ensures { OnOk result (Adds (K.has sink.old) (K.has sink.new) (unless_soa set.now (set_changes side owner.now other.now set.now))) }
{
    if set.rtype() == SOA {
        return Ok(());
    }
    push_changes(side, owner, other, set, sink)
}

// What becomes of the RRsets on one side. Each on either side is looked at once.
fn push_side<K: OperationSink>(
    side: Side,
    owner: &Name,
    others: ItemView<'_>,
    sets: ItemView<'_>,
    sink: &mut K,
) -> Result<(), AllocError>
    requires others { IsEntry others }
    requires sets { IsEntry sets }
    ensures { OnOk result (Adds (K.has sink.old) (K.has sink.new) (entry_changes side owner.now others.entry sets.entry)) }
{
    let mut others = SetCursor::new(others);
    let mut sets = sets;
    while let Some(set) = sets.next() {
        let other = others.reach(set.rtype());
        push_unless_soa(side, owner, &other, &set, sink)?;
    }
    Ok(())
}

/// What becomes of a name, by the octets of its items before and after; none where it owns nothing.
pub fn push_entry<K: OperationSink>(
    alloc: Global,
    serial: Serial,
    owner: &Name,
    before: &[u8],
    after: &[u8],
    sink: &mut K,
) -> Result<(), AllocError>
    requires before { (entry : Entry) × SaysEntry owner.now before.now entry }
    requires after { (entry : Entry) × SaysEntry owner.now after.now entry }
    ensures { OnOk result ((b a : Entry) → SaysEntry owner.now before.now b → SaysEntry owner.now after.now a
        → Adds (K.has sink.old) (K.has sink.new) (entry_difference serial owner.now b a)) }
{
    let old = ItemView::of(owner, before);
    let new = ItemView::of(owner, after);
    let (old_soa, new_soa) = (old.find_set(SOA), new.find_set(SOA));
    push_side(Side::Before, owner, new, old, sink)?;
    push_soa(alloc, serial, owner, &old_soa, &new_soa, sink)?;
    let (old, new) = (ItemView::of(owner, before), ItemView::of(owner, after));
    push_side(Side::After, owner, old, new, sink)
}
