//! Types and data as they are printed.
ghost use Rattle.std.specs.Prelude.{◌≡◌, ◌<◌, ◌+◌, ◌++◌, ◌∷◌, [], length, map, Some, None, Option, OnOk, OnErr, IfOk, IfSome, decimal, ◌==◌};
ghost use Rattle.rr_data.specs.Prelude.{StartsWith, option_map, option_copied, flat_map, w32, from_be_bytes, type_text, data_text};
ghost use Rattle.rr_data.specs.Prelude.{data_text_in, typed_text, fields_text, strings_text, field_text, address_text};
ghost use Rattle.rr_data.specs.Prelude.{groups_text, group_text, digit_at, generic_text, hex_digit, hex_text, string_octet};
ghost use Rattle.rr_data.specs.Prelude.{string_text, quoted_text, NameField, ShortField, PrintsField, PrintsFields, field_view};

use crate::rdata::Rdata;
use crate::splits::{number_of, short_of, split_name, split_octets, split_time};
use crate::types::{Field, Form, form_of, type_numbered};
use dns_name::Name;
use std::alloc::AllocError;
use zone_text::push_decimal;

/// Pushes the mnemonic of a type, or `TYPE` and its number (RFC 3597, section 5).
pub fn push_type(rtype: u16, out: &mut Vec<u8>) -> Result<(), AllocError>
    ensures ok { OnOk result (out.new.items ≡ out.old.items ++ type_text rtype) }
    ensures kept { StartsWith out.new.items out.old.items }
{
    match type_numbered(rtype) {
        Some(row) => out.extend_from_slice(row.mnemonic),
        None => {
            out.extend_from_slice(b"TYPE")?;
            push_decimal(out, u64::from(rtype))
        }
    }
}

// Pushes an octet's number with a dot behind it.
#[tactic(auto, using(crate::proofs::DottedLemmas::one_dotted, crate::proofs::DottedLemmas::two_dotted, crate::proofs::DottedLemmas::three_dotted))]
fn push_dotted(octet: u8, out: &mut Vec<u8>) -> Result<(), AllocError>
    ensures ok { OnOk result (out.new.items ≡ out.old.items ++ (decimal octet ++ 46 ∷ [])) }
    ensures kept { StartsWith out.new.items out.old.items }
{
    match octet {
        0..=9 => out.extend_from_slice(&[b'0' + octet, b'.']),
        10..=99 => out.extend_from_slice(&[b'0' + octet / 10, b'0' + octet % 10, b'.']),
        _ => {
            out.extend_from_slice(&[
                b'0' + octet / 100,
                b'0' + octet / 10 % 10,
                b'0' + octet % 10,
                b'.',
            ])
        }
    }
}

// Pushes octets with dots between them.
fn push_address(address: &[u8], out: &mut Vec<u8>) -> Result<(), AllocError>
    ensures ok { OnOk result (out.new.items ≡ out.old.items ++ address_text address.now) }
    ensures kept { StartsWith out.new.items out.old.items }
{
    let Some((octet, rest)) = address.split_first() else {
        return Ok(());
    };
    if rest.is_empty() {
        return push_decimal(out, u64::from(*octet));
    }
    push_dotted(*octet, out)?;
    push_address(rest, out)
}

// Pushes a group of four hexadecimal digits without leading zeros.
fn push_group(group: u16, out: &mut Vec<u8>) -> Result<(), AllocError>
    ensures ok { OnOk result (out.new.items ≡ out.old.items ++ group_text group) }
    ensures kept { StartsWith out.new.items out.old.items }
{
    push_digit_at(4096, group, out)?;
    push_digit_at(256, group, out)?;
    push_digit_at(16, group, out)?;
    out.push(hex_digit((group % 16) as u8))?;
    Ok(())
}

// Pushes the digit of a place, unless the group is too small to have one there.
fn push_digit_at(place: u16, group: u16, out: &mut Vec<u8>) -> Result<(), AllocError>
    requires { 0 < place }
    ensures ok { OnOk result (out.new.items ≡ out.old.items ++ digit_at place group) }
    ensures kept { StartsWith out.new.items out.old.items }
{
    if group < place {
        return Ok(());
    }
    out.push(hex_digit((group / place % 16) as u8))?;
    Ok(())
}

// Pushes groups with colons between them.
fn push_groups(octets: &[u8], out: &mut Vec<u8>) -> Result<(), AllocError>
    ensures ok { OnOk result (out.new.items ≡ out.old.items ++ groups_text octets.now) }
    ensures kept { StartsWith out.new.items out.old.items }
{
    let Some((first, rest)) = octets.split_first() else {
        return Ok(());
    };
    let Some((second, others)) = rest.split_first() else {
        return Ok(());
    };
    push_group(u16::from_be_bytes([*first, *second]), out)?;
    if others.is_empty() {
        return Ok(());
    }
    out.push(b':')?;
    push_groups(others, out)
}

// Pushes the text of a name that octets begin with, and answers what is behind it.
fn push_name<'a>(
    octets: &'a [u8],
    origin: Option<&Name>,
    out: &mut Vec<u8>,
) -> Result<Option<&'a [u8]>, AllocError>
    ensures ok { IfOk result (λ o. PrintsField (option_map (λ r. r.now) o) out.old.items out.new.items
        (field_text (option_copied origin.entry) NameField octets.now)) }
    ensures kept { StartsWith out.new.items out.old.items }
{
    let Some((name, rest)) = split_name(octets) else {
        return Ok(None);
    };
    name.push_text_in(origin, out)?;
    Ok(Some(rest))
}

fn push_short<'a>(octets: &'a [u8], out: &mut Vec<u8>) -> Result<Option<&'a [u8]>, AllocError>
    ensures ok { IfOk result (λ o. PrintsField (option_map (λ r. r.now) o) out.old.items out.new.items (field_text None ShortField octets.now)) }
    ensures kept { StartsWith out.new.items out.old.items }
{
    let Some((short, rest)) = split_octets(2, octets) else {
        return Ok(None);
    };
    push_decimal(out, u64::from(short_of(short)))?;
    Ok(Some(rest))
}

// Pushes the number of the four octets that were split off, and answers what is behind them.
fn push_number<'a>(
    split: Option<(&'a [u8], &'a [u8])>,
    out: &mut Vec<u8>,
) -> Result<Option<&'a [u8]>, AllocError>
    requires { IfSome split (λ x. length x.0.now ≡ 4) }
    ensures ok { IfOk result (λ o. PrintsField (option_map (λ r. r.now) o) out.old.items out.new.items
        (option_map (λ x. (decimal (from_be_bytes w32 x.0.now), x.1.now)) split.entry)) }
    ensures kept { StartsWith out.new.items out.old.items }
{
    let Some((number, rest)) = split else {
        return Ok(None);
    };
    push_decimal(out, u64::from(number_of(number)))?;
    Ok(Some(rest))
}

// Pushes the text of a field, and answers the octets behind it; None where they don't begin with one.
fn push_field<'a>(
    field: Field,
    octets: &'a [u8],
    origin: Option<&Name>,
    out: &mut Vec<u8>,
) -> Result<Option<&'a [u8]>, AllocError>
    ensures ok { IfOk result (λ o. PrintsField (option_map (λ r. r.now) o) out.old.items out.new.items
        (field_text (option_copied origin.entry) (field_view field) octets.now)) }
    ensures kept { StartsWith out.new.items out.old.items }
{
    match field {
        Field::Name => push_name(octets, origin, out),
        Field::Short => push_short(octets, out),
        Field::Number => push_number(split_octets(4, octets), out),
        Field::Time => push_number(split_time(octets), out),
        Field::Address => match split_octets(4, octets) {
            Some((address, rest)) => {
                push_address(address, out)?;
                Ok(Some(rest))
            }
            None => Ok(None),
        },
        Field::Address6 => match split_octets(16, octets) {
            Some((address, rest)) => {
                push_groups(address, out)?;
                Ok(Some(rest))
            }
            None => Ok(None),
        },
    }
}

// Pushes the fields with a space between them, where octets are just these.
#[tactic(auto, unfolding(zone_model::specs::DataText::fields_text))]
fn push_fields(
    fields: &[Field],
    octets: &[u8],
    origin: Option<&Name>,
    out: &mut Vec<u8>,
) -> Result<bool, AllocError>
    ensures ok { IfOk result (λ fits. PrintsFields fits out.old.items out.new.items
        (fields_text (option_copied origin.entry) (map field_view fields.now) octets.now)) }
    ensures kept { StartsWith out.new.items out.old.items }
{
    let Some((field, others)) = fields.split_first() else {
        return Ok(false);
    };
    let Some(rest) = push_field(*field, octets, origin, out)? else {
        return Ok(false);
    };
    if others.is_empty() {
        return Ok(rest.is_empty());
    }
    out.push(b' ')?;
    push_fields(others, rest, origin, out)
}

fn hex_digit(digit: u8) -> u8
    requires { digit < 16 }
    ensures { result ≡ hex_digit digit }
{
    if digit < 10 {
        b'0' + digit
    } else {
        b'a' + (digit - 10)
    }
}

fn push_hex(octets: &[u8], out: &mut Vec<u8>) -> Result<(), AllocError>
    ensures ok { OnOk result (out.new.items ≡ out.old.items ++ flat_map hex_text octets.now) }
    ensures kept { StartsWith out.new.items out.old.items }
{
    for octet in octets {
        out.push(hex_digit(octet / 16))?;
        out.push(hex_digit(octet % 16))?;
    }
    Ok(())
}

// Pushes the form of data of any type.
fn push_generic(octets: &[u8], out: &mut Vec<u8>) -> Result<(), AllocError>
    ensures ok { OnOk result (out.new.items ≡ out.old.items ++ generic_text octets.now) }
    ensures kept { StartsWith out.new.items out.old.items }
{
    out.extend_from_slice(b"\\# ")?;
    push_decimal(out, octets.len() as u64)?;
    if octets.is_empty() {
        return Ok(());
    }
    out.push(b' ')?;
    push_hex(octets, out)
}

// Pushes an octet of a string.
fn push_string_octet(octet: u8, out: &mut Vec<u8>) -> Result<(), AllocError>
    ensures ok { OnOk result (out.new.items ≡ out.old.items ++ string_octet octet) }
    ensures kept { StartsWith out.new.items out.old.items }
{
    if octet == b'"' || octet == b'\\' {
        return out.extend_from_slice(&[b'\\', octet]);
    }
    if octet > 31 && octet < 127 {
        return out.extend_from_slice(&[octet]);
    }
    out.extend_from_slice(&[
        b'\\',
        octet / 100 + b'0',
        octet / 10 % 10 + b'0',
        octet % 10 + b'0',
    ])
}

#[tactic(auto, using(crate::proofs::StartsLemmas::starts_chain))]
fn push_string_text(octets: &[u8], out: &mut Vec<u8>) -> Result<(), AllocError>
    ensures ok { OnOk result (out.new.items ≡ out.old.items ++ string_text octets.now) }
    ensures kept { StartsWith out.new.items out.old.items }
{
    for octet in octets {
        push_string_octet(*octet, out)?;
    }
    Ok(())
}

// Pushes a string between quotes.
fn push_quoted(octets: &[u8], out: &mut Vec<u8>) -> Result<(), AllocError>
    ensures ok { OnOk result (out.new.items ≡ out.old.items ++ quoted_text octets.now) }
    ensures kept { StartsWith out.new.items out.old.items }
{
    out.push(b'"')?;
    push_string_text(octets, out)?;
    out.extend_from_slice(b"\"")
}

// Pushes strings with a space between them, where octets are just these.
#[tactic(auto, using(crate::proofs::StringTextLemmas::strings_text_rules, crate::proofs::StartsLemmas::starts_chain))]
fn push_strings(octets: &[u8], out: &mut Vec<u8>) -> Result<bool, AllocError>
    ensures ok { IfOk result (λ fits. PrintsFields fits out.old.items out.new.items (strings_text (length octets.now) octets.now)) }
    ensures kept { StartsWith out.new.items out.old.items }
{
    let mut rest = octets;
    let mut left = octets.len();
    while left > 0 {
        let Some((len, behind)) = rest.split_first() else {
            return Ok(false);
        };
        let Some((string, others)) = split_octets(*len as usize, behind) else {
            return Ok(false);
        };
        push_quoted(string, out)?;
        if others.is_empty() {
            return Ok(true);
        }
        out.push(b' ')?;
        rest = others;
        left -= 1;
    }
    Ok(false)
}

// Pushes data in the form of its type, where it has that form.
fn push_typed(
    rtype: u16,
    octets: &[u8],
    origin: Option<&Name>,
    out: &mut Vec<u8>,
) -> Result<bool, AllocError>
    ensures ok { IfOk result (λ fits. PrintsFields fits out.old.items out.new.items (typed_text (option_copied origin.entry) rtype octets.now)) }
    ensures kept { StartsWith out.new.items out.old.items }
{
    match form_of(rtype) {
        Some(Form::Fields(fields)) => push_fields(fields, octets, origin, out),
        Some(Form::Strings) => push_strings(octets, out),
        None => Ok(false),
    }
}

// Pushes data as it is printed for a type: its fields, or `\#`, the number of octets and their digits where they aren't of
// the type's form. Names at or under an origin are relative to it. Where no memory is left, some of that may have been
// pushed.
pub fn push_data_in(
    rtype: u16,
    octets: &[u8],
    origin: Option<&Name>,
    out: &mut Vec<u8>,
) -> Result<(), AllocError>
    ensures ok { OnOk result (out.new.items ≡ out.old.items ++ data_text_in (option_copied origin.entry) rtype octets.now) }
    ensures kept { StartsWith out.new.items out.old.items }
{
    let start = out.len();
    if push_typed(rtype, octets, origin, out)? {
        return Ok(());
    }
    out.truncate(start);
    push_generic(octets, out)
}

impl Rdata {
    /// Pushes the data as it is printed for a type: its fields, or `\#`, the number of octets and their digits where
    /// they aren't of the type's form.
    pub fn push_text(&self, rtype: u16, out: &mut Vec<u8>) -> Result<(), AllocError>
        ensures ok { OnOk result (out.new.items ≡ out.old.items ++ data_text rtype self.now) }
        ensures err { OnErr result (out.new.items ≡ out.old.items) }
    {
        let start = out.len();
        let result = push_data_in(rtype, self.octets(), None, out);
        if result.is_err() {
            out.truncate(start);
        }
        result
    }
}
