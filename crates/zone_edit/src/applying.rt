//! A transaction's changes: its prerequisites, then its operations in order, each tested and then stored.

ghost use Rattle.std.specs.Prelude.{◌≡◌, ◌<◌, ◌≤◌, [], length, IfOk, IsSomeAnd, map};
ghost use Rattle.zone_edit.specs.Prelude.{Records, key_of, item_limit, IsItem, SaysEntry, operation_view, prerequisite_view};
ghost use Rattle.zone_edit.specs.Prelude.{candidate, Edits, IsOfSame, Owns, Stores, done_by, WorksOnSome};
ghost use Rattle.zone_edit.specs.Prelude.{CanExchange, CanStore, TellsWant};
ghost use Rattle.zone_edit.specs.Prelude.{Edited, EditedOnce, EditedInOrder};

use crate::buffers::ItemBuffers;
use crate::prerequisites::meets_all;
use crate::reading::read_owned;
use crate::refusal::EditRefusal;
use chunk_usage::Shortage;
use dns_name::Name;
use qp_multi::{ChangeRefusal, InsertRefusal, Law, Named, Transaction};
use rr_data::Entry;
use shift_key::Key;
use std::alloc::{AllocError, Global};
use zone_answer::entry_of;
use zone_change::{Operation, Prerequisite, changed, refusal};
use zone_model::Refusal;

/// A name that owns something loses it.
fn take_out<L: Law, N: Named, K>(
    transaction: &mut Transaction<'_, '_, L, N, K>,
    name: &Name,
    key: &Key,
    before: &Entry,
) -> Result<(), Shortage>
    requires key { key.now ≡ key_of name.now }
    requires owns { IsSomeAnd transaction.old.locked.now.working (Owns name.now before.now) }
    requires some { 0 < length before.now }
    ensures of_same { IsOfSame transaction.old transaction.new }
    ensures stores { Edits (done_by result) (Stores name.now before.now [] result) transaction.old.locked.now.working transaction.new.locked.now.working }
{
    let _wire = name.wire(); // for the proof
    match transaction.delete(key) {
        Ok(()) => Ok(()),
        // The name owns something, so it is there.
        Err(ChangeRefusal::NotFound) => unreachable!(),
        Err(ChangeRefusal::Full(full)) => Err(full.shortage),
    }
}

/// A name that owns nothing gets an entry, of which this is the item.
fn put_in<L: Law, N: Named, K>(
    transaction: &mut Transaction<'_, '_, L, N, K>,
    name: &Name,
    key: &Key,
    entry: &Entry,
    item: &[u8],
) -> Result<(), Shortage>
    requires key { key.now ≡ key_of name.now }
    requires owns { IsSomeAnd transaction.old.locked.now.working (Owns name.now []) }
    requires item { IsItem item.now name.now entry.now }
    ensures of_same { IsOfSame transaction.old transaction.new }
    ensures stores { Edits (done_by result) (Stores name.now [] entry.now result) transaction.old.locked.now.working transaction.new.locked.now.working }
{
    let _wire = name.wire(); // for the proof
    match transaction.insert(key, item) {
        Ok(()) => Ok(()),
        // The name owns nothing, so it isn't there.
        Err(InsertRefusal::Exists) => unreachable!(),
        Err(InsertRefusal::Full(full)) => Err(full.shortage),
    }
}

/// A name that owns something gets another entry, of which this is the item.
fn exchange<L: Law, N: Named, K>(
    transaction: &mut Transaction<'_, '_, L, N, K>,
    name: &Name,
    key: &Key,
    before: &Entry,
    entry: &Entry,
    item: &[u8],
) -> Result<(), Shortage>
    requires { CanExchange name.now key.now before.now entry.now item.now transaction.old.locked.now.working }
    ensures of_same { IsOfSame transaction.old transaction.new }
    ensures stores { Edits (done_by result) (Stores name.now before.now entry.now result) transaction.old.locked.now.working
        transaction.new.locked.now.working }
{
    let _wire = name.wire(); // for the proof
    match transaction.replace(key, item) {
        Ok(()) => Ok(()),
        // The name owns something, so it is there.
        Err(ChangeRefusal::NotFound) => unreachable!(),
        Err(ChangeRefusal::Full(full)) => Err(full.shortage),
    }
}

/// Puts an entry under a name, where octets say what it owned before; one that owns nothing isn't in the version. What is as it was
/// isn't written. The entry's item is laid down in a buffer.
fn store<L: Law, N: Named, K>(
    transaction: &mut Transaction<'_, '_, L, N, K>,
    name: &Name,
    key: &Key,
    octets: &[u8],
    before: &Entry,
    entry: &Entry,
    out: &mut [u8],
) -> Result<(), Shortage>
    requires { CanStore name.now key.now octets.now before.now entry.now out.old transaction.old.locked.now.working }
    ensures of_same { IsOfSame transaction.old transaction.new }
    ensures stores { Edits (done_by result) (Stores name.now before.now entry.now result) transaction.old.locked.now.working
        transaction.new.locked.now.working }
{
    if entry.is_empty() {
        if before.is_empty() {
            return Ok(());
        }
        return take_out(transaction, name, key, before);
    }
    let Some(len) = entry.encode(name, out) else {
        // Changes that leave a longer item were refused.
        unreachable!();
    };
    if before.is_empty() {
        return put_in(transaction, name, key, entry, &out[..len]);
    }
    if &out[..len] == octets {
        return Ok(());
    }
    exchange(transaction, name, key, before, entry, &out[..len])
}

// The entry that octets say, and what an operation makes of it.
fn both_entries(
    alloc: Global,
    owner: &Name,
    octets: &[u8],
    operation: &Operation,
) -> Result<(Entry, Entry), AllocError>
    requires { (entry : Records) × SaysEntry owner.now octets.now entry }
    ensures { (entry : Records) → SaysEntry owner.now octets.now entry
        → IfOk result (λ x. (x.0 ≡ entry) × (x.1 ≡ candidate (operation_view operation.now) entry)) }
{
    let before = entry_of(alloc, owner, octets)?;
    let after = changed(alloc, operation, &before)?;
    Ok((before, after))
}

/// Makes the change of an operation, which has this number, in the working set. The owner's item before it lies in one buffer, and the
/// one behind it in another.
fn apply<L: Law, N: Named, K>(
    alloc: Global,
    origin: &Name,
    transaction: &mut Transaction<'_, '_, L, N, K>,
    number: u64,
    operation: &Operation,
    item_before: &mut [u8],
    out: &mut [u8],
) -> Result<(), EditRefusal>
    requires works { IsSomeAnd transaction.old.locked.now.working WorksOnSome }
    requires room { (item_limit ≤ length item_before.old) × (item_limit ≤ length out.old) }
    ensures of_same { IsOfSame transaction.old transaction.new }
    ensures applies { EditedOnce origin.now (operation_view operation.now) result transaction.old.locked.now.working transaction.new.locked.now.working }
    ensures want { TellsWant result number transaction.old.locked.now.working transaction.new.locked.now.working }
{
    let owner = operation.owner();
    let key = Key::of(owner);
    let len = read_owned(transaction, owner, &key, item_before);
    let octets = &item_before[..len];
    if let Some(refusal) = refusal(origin, operation, octets) {
        return Err(EditRefusal::Refused(refusal));
    }
    let Ok((before, entry)) = both_entries(alloc, owner, octets, operation) else {
        return Err(EditRefusal::Memory);
    };
    match store(transaction, owner, &key, octets, &before, &entry, out) {
        Ok(()) => Ok(()),
        Err(shortage) => Err(EditRefusal::Full {
            operation: number,
            shortage,
        }),
    }
}

/// Makes the changes of operations in the working set, in order, up to the first that is refused, by way of buffers for items.
fn apply_all<L: Law, N: Named, K>(
    alloc: Global,
    origin: &Name,
    transaction: &mut Transaction<'_, '_, L, N, K>,
    operations: &[Operation],
    buffers: &mut ItemBuffers,
) -> Result<(), EditRefusal>
    requires { IsSomeAnd transaction.old.locked.now.working WorksOnSome }
    ensures of_same { IsOfSame transaction.old transaction.new }
    ensures applies { EditedInOrder origin.now (map operation_view operations.now) result transaction.old.locked.now.working
        transaction.new.locked.now.working }
{
    for (index, operation) in operations.iter().enumerate() {
        let (before, after) = (&mut buffers.before, &mut buffers.after);
        let number = index as u64 + 1;
        if let Err(refusal) = apply(alloc, origin, transaction, number, operation, before, after) {
            return Err(refusal);
        }
    }
    Ok(())
}

/// Makes a transaction's changes in the working set: none where that doesn't meet the prerequisites, and else those of the operations
/// in order, up to the first that is refused, by way of buffers for items.
pub fn execute<L: Law, N: Named, K>(
    alloc: Global,
    origin: &Name,
    transaction: &mut Transaction<'_, '_, L, N, K>,
    prerequisites: &[Prerequisite],
    operations: &[Operation],
    buffers: &mut ItemBuffers,
) -> Result<(), EditRefusal>
    requires { IsSomeAnd transaction.old.locked.now.working WorksOnSome }
    ensures of_same { IsOfSame transaction.old transaction.new }
    ensures executes { Edited origin.now (record { needs = map prerequisite_view prerequisites.now; operations = map operation_view operations.now }) result
        transaction.old.locked.now.working transaction.new.locked.now.working }
{
    if !meets_all(transaction, prerequisites, &mut buffers.before) {
        return Err(EditRefusal::Refused(Refusal::Prereq));
    }
    apply_all(alloc, origin, transaction, operations, buffers)
}
