//! Names in a form that compares as octets do.
#![tactic(auto)]

ghost use Rattle.std.specs.Prelude.{◌≡◌, ◌<◌, ◌≤◌, ◌+◌, ◌++◌, ◌∷◌, [], ◌^◌, ℕ, List, length, OnOk, IfOk, MatchOption, slice_index, drop, false};
ghost use Rattle.dns_name.specs.Prelude.{Labels, is_under, Spells, IsSpelled, escaped, label_key, weight, PushesBelow, KeyBelow};

use crate::Name;
use crate::wire::first;
use std::alloc::{AllocError, Global};

// How many octets lie in one of a key's numbers.
const FRONT_OCTETS: usize = 7;

/// The sort key of a name under an apex, for collections of many names: two of one apex compare as their names do, by two
/// numbers each, and octet by octet only where these are alike. It takes memory for the octets behind the first fourteen.
#[derive(Drop, PartialEq, Eq, PartialOrd, Ord)]
pub struct SortKey {
    // The first seven octets, the seven behind them, and the others.
    front: u64,
    middle: u64,
    rest: Vec<u8>,
}

// An octet's digit in a key's number, which is 0 past the end.
fn digit_at(octets: &[u8], at: usize) -> u64
    ensures here { at < length octets.now → result ≡ slice_index octets.now at + 1 }
    ensures past { length octets.now ≤ at → result ≡ 0 }
    ensures small { result < 257 }
{
    if at < octets.len() {
        u64::from(octets[at]) + 1
    } else {
        0
    }
}

// The first octets as a number.
fn weight(octets: &[u8]) -> u64
    ensures { result ≡ weight 7 0 octets.now }
{
    let mut front = 0u64;
    for at in 0..FRONT_OCTETS {
        front = front * 512 + digit_at(octets, at);
    }
    front
}

// The octets behind those of a number.
fn behind(octets: &[u8]) -> &[u8]
    ensures { result.now ≡ drop 7 octets.now }
{
    &octets[octets.len().min(FRONT_OCTETS)..]
}

fn push_escaped(out: &mut Vec<u8>, octet: u8) -> Result<(), AllocError>
    ensures { OnOk result (out.new.items ≡ out.old.items ++ escaped octet) }
{
    if octet < 2 {
        out.push(1)?;
        out.push(octet + 1)?;
    } else {
        out.push(octet)?;
    }
    Ok(())
}

fn push_label(out: &mut Vec<u8>, label: &[u8]) -> Result<(), AllocError>
    ensures { OnOk result (out.new.items ≡ out.old.items ++ label_key label.now) }
{
    for octet in label {
        push_escaped(out, *octet)?;
    }
    out.push(0)?;
    Ok(())
}

// Whether a name is another or lies under it; pushes the sort key of what stands in front.
fn push_below(bytes: &[u8], top: &[u8], out: &mut Vec<u8>) -> Result<bool, AllocError>
    requires name { IsSpelled bytes.now }
    requires top { IsSpelled top.now }
    ensures { IfOk result (λ under. (x y : Labels) → Spells bytes.now x → Spells top.now y → PushesBelow under x y out.old.items out.new.items) }
{
    if bytes.len() <= top.len() {
        return Ok(bytes == top);
    }
    let Some((label, rest)) = first(bytes) else {
        return Ok(false);
    };
    if !push_below(rest, top, out)? {
        return Ok(false);
    }
    push_label(out, label)?;
    Ok(true)
}

impl SortKey {
    /// The key of a name under an apex, or at it; None where it is neither. The octets are laid down in `scratch`, whose
    /// own are lost.
    pub fn below(
        alloc: Global,
        name: &Name,
        apex: &Name,
        scratch: &mut Vec<u8>,
    ) -> Result<Option<SortKey>, AllocError>
        ensures { IfOk result (λ o. MatchOption o (is_under name.now apex.now ≡ false) (KeyBelow name.now apex.now)) }
    {
        scratch.clear();
        if !push_below(name.wire(), apex.wire(), scratch)? {
            return Ok(None);
        }
        let middle = behind(scratch);
        Ok(Some(SortKey {
            front: weight(scratch),
            middle: weight(middle),
            rest: Vec::from_slice(alloc, behind(middle))?,
        }))
    }
}
