//! What an operation makes of the entry of its owner.

ghost use Rattle.std.specs.Prelude.{◌≡◌, IfOk, OnOk};
ghost use Rattle.zone_change.specs.Prelude.{without_set, without_rr, holds, with_soa, with_added, addition_view, operation_view, candidate};

use crate::operations::{NewRecord, Operation};
use rr_data::{Entry, Rdata, SOA};
use std::alloc::{AllocError, Global};

// Whether an entry has a record.
fn holds(entry: &Entry, rtype: u16, octets: &[u8]) -> bool
    ensures { result ≡ holds rtype octets.now entry.now }
{
    match entry.find_set(rtype) {
        Some(set) => set.has(octets),
        None => false,
    }
}

// Puts an SOA in the place of the one that is there.
fn add_soa(alloc: Global, entry: &mut Entry, ttl: u32, soa: Rdata) -> Result<(), AllocError>
    ensures { OnOk result (entry.new ≡ with_soa ttl soa entry.old) }
{
    if holds(entry, SOA, soa.octets()) {
        return Ok(());
    }
    entry.del_set(SOA);
    entry.add(alloc, SOA, ttl, soa)?;
    Ok(())
}

// Adds a record to its owner's entry.
fn add_record(alloc: Global, entry: &mut Entry, record: &NewRecord) -> Result<(), AllocError>
    ensures { OnOk result (entry.new ≡ with_added (addition_view «record».now) entry.old) }
{
    let rdata = record.rdata.clone()?;
    if record.rtype == SOA {
        return add_soa(alloc, entry, record.ttl, rdata);
    }
    entry.add(alloc, record.rtype, record.ttl, rdata)?;
    Ok(())
}

// An entry with a record more.
fn added(alloc: Global, record: &NewRecord, entry: &Entry) -> Result<Entry, AllocError>
    ensures { IfOk result (λ next. next ≡ with_added (addition_view «record».now) entry.now) }
{
    let mut next = entry.clone()?;
    add_record(alloc, &mut next, record)?;
    Ok(next)
}

// An entry without the RRset of a type.
fn without_set(entry: &Entry, rtype: u16) -> Result<Entry, AllocError>
    ensures { IfOk result (λ next. next ≡ without_set rtype entry.now) }
{
    let mut rest = entry.clone()?;
    rest.del_set(rtype);
    Ok(rest)
}

// An entry without a record.
fn without_record(entry: &Entry, rtype: u16, rdata: &Rdata) -> Result<Entry, AllocError>
    ensures { IfOk result (λ next. next ≡ without_rr rtype rdata.now entry.now) }
{
    let mut rest = entry.clone()?;
    rest.del_one(rtype, rdata);
    Ok(rest)
}

/// What an operation makes of its owner's entry, where it isn't refused.
pub fn changed(alloc: Global, operation: &Operation, entry: &Entry) -> Result<Entry, AllocError>
    ensures { IfOk result (λ next. next ≡ candidate (operation_view operation.now) entry.now) }
{
    match operation {
        Operation::Add(record) => added(alloc, record, entry),
        Operation::DeleteName(_) => Ok(Entry::empty(alloc)),
        Operation::DeleteSet(_, rtype) => without_set(entry, *rtype),
        Operation::DeleteRecord(_, rtype, rdata) => without_record(entry, *rtype, rdata),
    }
}
