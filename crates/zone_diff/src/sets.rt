//! What goes and what comes of one RRset.
ghost use Rattle.std.specs.Prelude.{◌≡◌, ◌≤◌, ◌∷◌, [], Some, OnOk, length, map, if◌then◌else◌};
ghost use Rattle.zone_diff.specs.Prelude.{Adds, Rises, lacking_beside, record_change, records_ahead};
ghost use Rattle.zone_diff.specs.Prelude.{set_additions, set_changes, set_deletions, whole_change};

use crate::changes::{Change, OperationSink};
use crate::cursor::RecordCursor;
use dns_name::Name;
use rr_data::SetView;
use std::alloc::AllocError;

/// The version that an RRset is of: of the one before it goes, and of the one after it comes.
#[derive(Clone, Copy)]
pub enum Side {
    Before,
    After,
}

// What becomes of a record of an RRset, unless it is there on the other side.
fn push_unless<K: OperationSink>(
    there: bool,
    side: Side,
    owner: &Name,
    set: &SetView<'_>,
    octets: &[u8],
    sink: &mut K,
) -> Result<(), AllocError>
    requires { length octets.now ≤ 65535 }
    ensures { OnOk result (Adds (K.has sink.old) (K.has sink.new) (if there then [] else record_change side owner.now set.now octets.now ∷ [])) }
{
    if there {
        return Ok(());
    }
    let (rtype, ttl) = (set.rtype(), set.ttl());
    match side {
        Side::Before => sink.push(owner, &Change::RecordGoes { rtype, octets }),
        Side::After => sink.push(owner, &Change::Comes { rtype, ttl, octets }),
    }
}

// What becomes of the records of an RRset that others haven't.
fn push_lacking<K: OperationSink>(
    side: Side,
    owner: &Name,
    set: &SetView<'_>,
    others: RecordCursor<'_>,
    sink: &mut K,
) -> Result<(), AllocError>
    ensures { OnOk result (Adds (K.has sink.old) (K.has sink.new)
        (map (record_change side owner.now set.now) (lacking_beside (records_ahead others.entry.ahead others.entry.behind) set.now.records))) }
{
    let mut others = others;
    let mut records = set.records();
    while let Some(octets) = records.next() {
        let there = others.reach(octets);
        push_unless(there, side, owner, set, octets, sink)?;
    }
    Ok(())
}

// What becomes of an RRset whose place none takes that has its time to live.
fn push_whole<K: OperationSink>(
    side: Side,
    owner: &Name,
    set: &SetView<'_>,
    sink: &mut K,
) -> Result<(), AllocError>
    ensures { OnOk result (Adds (K.has sink.old) (K.has sink.new) (whole_change side owner.now set.now)) }
{
    let rtype = set.rtype();
    match side {
        Side::Before => sink.push(owner, &Change::SetGoes { rtype }),
        Side::After => push_lacking(side, owner, set, RecordCursor::none(set), sink),
    }
}

/// What becomes of an RRset, by the one on the other side. Each record is looked at once.
pub fn push_changes<K: OperationSink>(
    side: Side,
    owner: &Name,
    other: &Option<SetView<'_>>,
    set: &SetView<'_>,
    sink: &mut K,
) -> Result<(), AllocError>
    requires rises { Rises (Some set.now) }
    requires other_rises { Rises other.now }
    ensures { OnOk result (Adds (K.has sink.old) (K.has sink.new) (set_changes side owner.now other.now set.now)) }
{
    match other {
        Some(other) if set.ttl() == other.ttl() => {
            push_lacking(side, owner, set, RecordCursor::new(other), sink)
        }
        _ => push_whole(side, owner, set, sink),
    }
}

/// What goes of an RRset, by the one that takes its place. Each record is looked at once.
pub fn push_deletions<K: OperationSink>(
    owner: &Name,
    other: &Option<SetView<'_>>,
    set: &SetView<'_>,
    sink: &mut K,
) -> Result<(), AllocError>
    requires rises { Rises (Some set.now) }
    requires other_rises { Rises other.now }
    ensures { OnOk result (Adds (K.has sink.old) (K.has sink.new) (set_deletions owner.now other.now set.now)) }
{
    push_changes(Side::Before, owner, other, set, sink)
}

/// What comes of an RRset, by the one whose place it takes. Each record is looked at once.
pub fn push_additions<K: OperationSink>(
    owner: &Name,
    other: &Option<SetView<'_>>,
    set: &SetView<'_>,
    sink: &mut K,
) -> Result<(), AllocError>
    requires rises { Rises (Some set.now) }
    requires other_rises { Rises other.now }
    ensures { OnOk result (Adds (K.has sink.old) (K.has sink.new) (set_additions owner.now other.now set.now)) }
{
    push_changes(Side::After, owner, other, set, sink)
}
