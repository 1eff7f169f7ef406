//! How an SOA record takes the place of another.
ghost use Rattle.std.specs.Prelude.{◌≡◌, ◌≤◌, ◌∷◌, [], length, IfOk, OnOk, Some, List, ℕ};
ghost use Rattle.std.specs.List.{list_any};
ghost use Rattle.zone_diff.specs.Prelude.{Adds, addition, counts_as, renumbered, soa_additions, soa_exchange, stays, without_serial};

use crate::Serial;
use crate::changes::{Change, OperationSink};
use dns_name::Name;
use rr_data::{SOA, SetView};
use std::alloc::{AllocError, Global};

// The octets of an SOA record but for its serial.
fn without_serial(alloc: Global, octets: &[u8]) -> Result<Vec<u8>, AllocError>
    ensures { IfOk result (λ v. v.items ≡ without_serial octets.now) }
{
    let front = octets.len().saturating_sub(20);
    let back = octets.len().saturating_sub(16);
    let mut rest = Vec::from_slice(alloc, &octets[..front])?;
    rest.extend_from_slice(&octets[back..])?;
    Ok(rest)
}

// The octets of an SOA record with another serial.
fn renumbered(alloc: Global, octets: &[u8]) -> Result<Vec<u8>, AllocError>
    ensures value { IfOk result (λ v. v.items ≡ renumbered octets.now) }
    ensures len { IfOk result (λ v. length v.items ≡ length octets.now) }
{
    let mut copy = Vec::from_slice(alloc, octets)?;
    let at = octets.len().saturating_sub(17);
    if at < octets.len() {
        copy[at] = octets[at].wrapping_add(1);
    }
    Ok(copy)
}

// Two SOA records count as the same.
fn counts_as(alloc: Global, serial: Serial, a: &[u8], b: &[u8]) -> Result<bool, AllocError>
    ensures { IfOk result (λ same. same ≡ counts_as serial a.now b.now) }
{
    match serial {
        Serial::Keep => Ok(a.cmp(b).is_eq()),
        Serial::Ignore => {
            let one = without_serial(alloc, a)?;
            let other = without_serial(alloc, b)?;
            Ok(one.as_slice().cmp(other.as_slice()).is_eq())
        }
    }
}

// Some record of an RRset counts as this one.
fn has_alike(
    alloc: Global,
    serial: Serial,
    octets: &[u8],
    set: &SetView<'_>,
) -> Result<bool, AllocError>
    ensures { IfOk result (λ there. there ≡ list_any (counts_as serial octets.now) set.now.records) }
{
    let mut records = set.records();
    while let Some(record) = records.next() {
        if counts_as(alloc, serial, octets, record)? {
            return Ok(true);
        }
    }
    Ok(false)
}

// An RRset has a record that counts as this one, with this time to live.
fn stays(
    alloc: Global,
    serial: Serial,
    set: &SetView<'_>,
    ttl: u32,
    octets: &[u8],
) -> Result<bool, AllocError>
    ensures { IfOk result (λ there. there ≡ stays serial set.now ttl octets.now) }
{
    if set.ttl() != ttl {
        return Ok(false);
    }
    has_alike(alloc, serial, octets, set)
}

// A record comes.
fn push_record<K: OperationSink>(
    owner: &Name,
    ttl: u32,
    octets: &[u8],
    sink: &mut K,
) -> Result<(), AllocError>
    requires { length octets.now ≤ 65535 }
    ensures { OnOk result (Adds (K.has sink.old) (K.has sink.new)
        (addition owner.now 6 ttl octets.now ∷ [])) }
{
    sink.push(
        owner,
        &Change::Comes {
            rtype: SOA,
            ttl,
            octets,
        },
    )
}

// A record comes that is there with another time to live.
fn push_twice<K: OperationSink>(
    alloc: Global,
    owner: &Name,
    ttl: u32,
    octets: &[u8],
    sink: &mut K,
) -> Result<(), AllocError>
    requires { length octets.now ≤ 65535 }
    ensures { OnOk result (Adds (K.has sink.old) (K.has sink.new)
        (addition owner.now 6 ttl (renumbered octets.now) ∷ addition owner.now 6 ttl octets.now ∷ [])) }
{
    let other = renumbered(alloc, octets)?;
    push_record(owner, ttl, &other, sink)?;
    push_record(owner, ttl, octets, sink)
}

// A record takes the place of an RRset.
fn push_exchange<K: OperationSink>(
    alloc: Global,
    serial: Serial,
    owner: &Name,
    before: &Option<SetView<'_>>,
    ttl: u32,
    octets: &[u8],
    sink: &mut K,
) -> Result<(), AllocError>
    requires { length octets.now ≤ 65535 }
    ensures { OnOk result (Adds (K.has sink.old) (K.has sink.new) (soa_exchange serial owner.now before.now ttl octets.now)) }
{
    let Some(before) = before else {
        return push_record(owner, ttl, octets, sink);
    };
    if stays(alloc, serial, before, ttl, octets)? {
        return Ok(());
    }
    if has_alike(alloc, Serial::Keep, octets, before)? {
        push_twice(alloc, owner, ttl, octets, sink)
    } else {
        push_record(owner, ttl, octets, sink)
    }
}

// The records of an RRset take the place of another one.
fn push_exchanges<K: OperationSink>(
    alloc: Global,
    serial: Serial,
    owner: &Name,
    before: &Option<SetView<'_>>,
    after: &SetView<'_>,
    sink: &mut K,
) -> Result<(), AllocError>
    ensures { OnOk result (Adds (K.has sink.old) (K.has sink.new) (soa_additions serial owner.now before.now (Some after.now))) }
{
    let ttl = after.ttl();
    let mut records = after.records();
    while let Some(octets) = records.next() {
        push_exchange(alloc, serial, owner, before, ttl, octets, sink)?;
    }
    Ok(())
}

/// The SOA after takes the place of the one before. Where its time to live alone changes it comes twice, since a record that is there
/// keeps its time to live.
pub fn push_soa<K: OperationSink>(
    alloc: Global,
    serial: Serial,
    owner: &Name,
    before: &Option<SetView<'_>>,
    after: &Option<SetView<'_>>,
    sink: &mut K,
) -> Result<(), AllocError>
    ensures { OnOk result (Adds (K.has sink.old) (K.has sink.new) (soa_additions serial owner.now before.now after.now)) }
{
    match after {
        Some(after) => push_exchanges(alloc, serial, owner, before, after, sink),
        None => Ok(()),
    }
}
