//! Texts of addresses.
ghost use Rattle.std.specs.Prelude.{◌≡◌, ◌<◌, ◌≤◌, ◌+◌, ◌*◌, ◌++◌, ◌∷◌, [], length, map, Some, None, Option, IfOk, IfSome, OnOk, true, ◌==◌, ◌-◌, replicate};
ghost use Rattle.zone_text.specs.Prelude.{option_map, slice_split, list_all, list_any, position, is_ascii_hexdigit};
ghost use Rattle.zone_text.specs.Prelude.{address, address_part, digit_value, hex_from, group, groups_of, last_groups_of};
ghost use Rattle.zone_text.specs.Prelude.{last_group, parts_of, double_at, address6, by_double, PushesAll, parts_said};

use crate::words::number;
use std::alloc::{AllocError, Global};

fn address_part(part: &[u8]) -> Option<u8>
    ensures { result ≡ address_part part.now }
{
    if part.len() > 3 {
        return None;
    }
    Some(number(part, 255)? as u8)
}

// The index of the first dot.
fn first_dot(text: &[u8]) -> Option<usize>
    ensures { result ≡ position (λ b. b == 46) text.now }
{
    text.iter().position(|b| *b == b'.')
}

// Pushes the octet of one part of an address.
fn push_part(part: &[u8], out: &mut Vec<u8>) -> Result<bool, AllocError>
    ensures { IfOk result (λ good. PushesAll good out.old.items out.new.items (option_map (λ c. c ∷ []) (address_part part.now))) }
{
    match address_part(part) {
        Some(octet) => {
            out.push(octet)?;
            Ok(true)
        }
        None => Ok(false),
    }
}

// Pushes the octets of so many parts of an address.
#[tactic(auto, using(crate::proofs::AddressLemmas::part_rules))]
fn push_parts(text: &[u8], left: usize, out: &mut Vec<u8>) -> Result<bool, AllocError>
    ensures { IfOk result (λ good. PushesAll good out.old.items out.new.items (parts_said left text.now)) }
{
    let Some(dot) = first_dot(text) else {
        if left != 1 {
            return Ok(false);
        }
        return push_part(text, out);
    };
    if left <= 1 || !push_part(&text[..dot], out)? {
        return Ok(false);
    }
    let good = push_parts(&text[dot + 1..], left - 1, out)?;
    Ok(good)
}

fn colon_parts(alloc: Global, word: &[u8]) -> Result<Vec<&[u8]>, AllocError>
    ensures { IfOk result (λ v. map (λ w. w.now) v.items ≡ slice_split (λ b. b == 58) word.now) }
{
    word.split(|b| *b == b':').collect(alloc)
}

/// Pushes the four octets of an address.
#[tactic(auto, unfolding(zone_model::specs::Texts::address))]
pub fn push_address(word: &[u8], out: &mut Vec<u8>) -> Result<bool, AllocError>
    ensures { IfOk result (λ good. PushesAll good out.old.items out.new.items (address word.now)) }
{
    push_parts(word, 4, out)
}

pub fn all_hex(text: &[u8]) -> bool
    ensures { result ≡ list_all is_ascii_hexdigit text.now }
{
    text.iter().all(|c| c.is_ascii_hexdigit())
}

pub fn digit_value(digit: u8) -> u8
    requires { is_ascii_hexdigit digit ≡ true }
    ensures value { result ≡ digit_value digit }
    ensures small { result < 16 }
{
    if digit <= b'9' {
        digit - b'0'
    } else {
        digit.to_ascii_lowercase() - 87
    }
}

// The number of up to four hexadecimal digits.
#[tactic(auto, using(crate::proofs::AddressLemmas::hex_rules), unfolding(zone_model::specs::Addresses::hex_from))]
fn hex(text: &[u8]) -> u16
    requires digits { list_all is_ascii_hexdigit text.now ≡ true }
    requires short { length text.now ≤ 4 }
    ensures { result ≡ hex_from 0 text.now }
{
    let mut value = 0u32;
    for digit in text {
        value = value * 16 + u32::from(digit_value(*digit));
    }
    value as u16
}

// Pushes the two octets of a group.
fn push_group(part: &[u8], out: &mut Vec<u8>) -> Result<bool, AllocError>
    ensures { IfOk result (λ good. PushesAll good out.old.items out.new.items (group part.now)) }
{
    if part.is_empty() || part.len() > 4 || !all_hex(part) {
        return Ok(false);
    }
    let value = hex(part);
    out.push((value / 256) as u8)?;
    out.push((value % 256) as u8)?;
    Ok(true)
}

// Pushes groups.
#[tactic(auto, using(crate::proofs::AddressLemmas::group_rules), unfolding(zone_model::specs::Addresses::groups_of))]
fn push_groups(parts: &[&[u8]], out: &mut Vec<u8>) -> Result<bool, AllocError>
    ensures { IfOk result (λ good. PushesAll good out.old.items out.new.items (groups_of (map (λ w. w.now) parts.now))) }
{
    for part in parts {
        if !push_group(part, out)? {
            return Ok(false);
        }
    }
    Ok(true)
}

// The index of the first double colon.
#[tactic(auto, using(crate::proofs::AddressLemmas::double_rules), unfolding(zone_model::specs::Addresses::double_at))]
fn double_at(text: &[u8]) -> Option<usize>
    ensures place { result ≡ double_at text.now }
    ensures inside { IfSome result (λ n. n + 1 < length text.now) }
{
    for (at, octet) in text.iter().enumerate() {
        if *octet == b':' && at + 1 < text.len() && text[at + 1] == b':' {
            return Some(at);
        }
    }
    None
}

fn has_dot(part: &[u8]) -> bool
    ensures { result ≡ list_any (λ c. c == 46) part.now }
{
    part.iter().any(|c| *c == b'.')
}

// Pushes a group, or an address of version 4.
fn push_last(part: &[u8], out: &mut Vec<u8>) -> Result<bool, AllocError>
    ensures { IfOk result (λ good. PushesAll good out.old.items out.new.items (last_group part.now)) }
{
    if has_dot(part) {
        push_address(part, out)
    } else {
        push_group(part, out)
    }
}

// Pushes groups, the last two of which may be an address of version 4.
#[tactic(auto, using(crate::proofs::AddressLemmas::last_rules), unfolding(zone_model::specs::Addresses::last_groups_of))]
fn push_last_groups(parts: &[&[u8]], out: &mut Vec<u8>) -> Result<bool, AllocError>
    ensures { IfOk result (λ good. PushesAll good out.old.items out.new.items (last_groups_of (map (λ w. w.now) parts.now))) }
{
    let Some((last, front)) = parts.split_last() else {
        return Ok(true);
    };
    if !push_groups(front, out)? {
        return Ok(false);
    }
    let good = push_last(last, out)?;
    Ok(good)
}

// The parts between colons; none of an empty text.
fn parts_of(alloc: Global, text: &[u8]) -> Result<Vec<&[u8]>, AllocError>
    ensures { IfOk result (λ v. map (λ w. w.now) v.items ≡ parts_of text.now) }
{
    if text.is_empty() {
        return Ok(Vec::new(alloc));
    }
    colon_parts(alloc, text)
}

// An address without a double colon.
fn push_plain(alloc: Global, text: &[u8], out: &mut Vec<u8>) -> Result<bool, AllocError>
    ensures { IfOk result (λ good. PushesAll good out.old.items out.new.items (by_double text.now None)) }
{
    let parts = parts_of(alloc, text)?;
    let mut octets = Vec::new(alloc);
    if !push_last_groups(&parts, &mut octets)? || octets.len() != 16 {
        return Ok(false);
    }
    out.extend_from_slice(&octets)?;
    Ok(true)
}

// An address with a double colon at an index.
#[tactic(auto, using(crate::proofs::AddressLemmas::filled_rules))]
fn push_filled(alloc: Global, text: &[u8], at: usize, out: &mut Vec<u8>) -> Result<bool, AllocError>
    requires { at + 1 < length text.now }
    ensures { IfOk result (λ good. PushesAll good out.old.items out.new.items (by_double text.now (Some at))) }
{
    let front_parts = parts_of(alloc, &text[..at])?;
    let mut front = Vec::new(alloc);
    if !push_groups(&front_parts, &mut front)? {
        return Ok(false);
    }
    let back_parts = parts_of(alloc, &text[at + 2..])?;
    let mut back = Vec::new(alloc);
    if !push_last_groups(&back_parts, &mut back)? {
        return Ok(false);
    }
    if front.len() + back.len() > 14 {
        return Ok(false);
    }
    push_sixteen(&front, &back, out)?;
    Ok(true)
}

// Pushes sixteen octets, zeros between two parts.
fn push_sixteen(front: &[u8], back: &[u8], out: &mut Vec<u8>) -> Result<(), AllocError>
    requires { length front.now + length back.now ≤ 14 }
    ensures { OnOk result (out.new.items ≡ out.old.items ++ front.now ++ replicate (16 - (length front.now + length back.now)) 0 ++ back.now) }
{
    out.extend_from_slice(front)?;
    let len = out.len() + (16 - (front.len() + back.len()));
    out.resize(len, 0)?;
    out.extend_from_slice(back)?;
    Ok(())
}

/// Pushes the sixteen octets of an address of version 6.
#[tactic(auto, unfolding(zone_model::specs::Addresses::address6))]
pub fn push_address6(alloc: Global, text: &[u8], out: &mut Vec<u8>) -> Result<bool, AllocError>
    ensures { IfOk result (λ good. PushesAll good out.old.items out.new.items (address6 text.now)) }
{
    match double_at(text) {
        None => push_plain(alloc, text, out),
        Some(at) => push_filled(alloc, text, at, out),
    }
}
