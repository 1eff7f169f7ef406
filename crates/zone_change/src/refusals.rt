//! Whether an operation is refused, by the item of its owner where it lies. No memory is taken.
ghost use Rattle.std.specs.Prelude.{◌≡◌, ◌≤◌, length, MatchOption, Ok, Err, Some, None, if◌then◌else◌};
ghost use Rattle.zone_change.specs.Prelude.{Entry, IsEntry, without_set, without_rr, changed, is_low_soa, loses_soa};
ghost use Rattle.zone_change.specs.Prelude.{owner_of, SaysEntry, addition_view, operation_view, candidate, count_of};

use crate::counting::{Count, has};
use crate::operations::{NewRecord, Operation};
use dns_name::Name;
use rr_data::{ITEM_LIMIT, ItemView, SOA};
use zone_model::Refusal;

// An SOA below the apex.
fn is_low_soa(origin: &Name, added: &NewRecord) -> bool
    ensures { result ≡ is_low_soa origin.now (addition_view added.now) }
{
    added.rtype == SOA && added.owner != *origin
}

// Why a record isn't added to what its owner has.
fn addition_refused(origin: &Name, added: &NewRecord, octets: &[u8]) -> Option<Refusal>
    requires { (entry : Entry) × SaysEntry added.now.owner octets.now entry }
    ensures { (entry : Entry) → SaysEntry added.now.owner octets.now entry
        → MatchOption result (changed origin.now (operation_view (Operation.Add added.now)) entry
        ≡ Ok (candidate (operation_view (Operation.Add added.now)) entry))
        (λ refusal. changed origin.now (operation_view (Operation.Add added.now)) entry ≡ Err refusal) }
{
    if is_low_soa(origin, added) {
        return Some(Refusal::Soa);
    }
    let (_rtype, _ttl) = (added.rtype, added.ttl); // for the proof
    let _data = added.rdata.octets(); // for the proof
    let entry = ItemView::of(&added.owner, octets);
    let count = Count::of(&added.owner, octets).with(&entry, added);
    if !count.is_lone() {
        return Some(Refusal::Cname);
    }
    if count.octets > ITEM_LIMIT {
        return Some(Refusal::Long);
    }
    None
}

// The SOA would leave with the RRset of a type.
fn takes_set(entry: &ItemView<'_>, rtype: u16) -> bool
    requires { IsEntry entry.now }
    ensures { result ≡ loses_soa entry.now (without_set rtype entry.now) }
{
    rtype == SOA && entry.has(Some(SOA))
}

// The SOA would leave with a record.
fn takes_record(entry: &ItemView<'_>, rtype: u16, octets: &[u8]) -> bool
    requires { IsEntry entry.now }
    ensures { result ≡ loses_soa entry.now (without_rr rtype octets.now entry.now) }
{
    if rtype != SOA {
        return false;
    }
    let Some(set) = entry.find_set(SOA) else {
        return false;
    };
    set.len() == 1 && has(&set, octets)
}

// The refusal of what would take the SOA away.
fn soa_kept(lost: bool) -> Option<Refusal>
    ensures { result ≡ (if lost then Some Refusal.Soa else None) }
{
    if lost { Some(Refusal::Soa) } else { None }
}

/// Why an operation is refused, by the octets of its owner's item; None where it isn't, and then its owner has what `changed`
/// makes.
pub fn refusal(origin: &Name, operation: &Operation, octets: &[u8]) -> Option<Refusal>
    requires { (entry : Entry) × SaysEntry (owner_of (operation_view operation.now)) octets.now entry }
    ensures { (entry : Entry) → SaysEntry (owner_of (operation_view operation.now)) octets.now entry
        → MatchOption result (changed origin.now (operation_view operation.now) entry ≡ Ok (candidate (operation_view operation.now) entry))
        (λ refusal. changed origin.now (operation_view operation.now) entry ≡ Err refusal) }
{
    let entry = ItemView::of(operation.owner(), octets);
    match operation {
        Operation::Add(added) => addition_refused(origin, added, octets),
        Operation::DeleteName(_) => soa_kept(entry.has(Some(SOA))),
        Operation::DeleteSet(_, rtype) => soa_kept(takes_set(&entry, *rtype)),
        Operation::DeleteRecord(_, rtype, rdata) => {
            soa_kept(takes_record(&entry, *rtype, rdata.octets()))
        }
    }
}
