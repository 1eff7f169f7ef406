//! Data that is a row of words.
ghost use Rattle.std.specs.Prelude.{map, Some, Ok, Err, Result, IfOk};
ghost use Rattle.rr_data.specs.Prelude.{All, field_octets, word_octets, read_fields, option_map, w16, w32, to_be_bytes};
ghost use Rattle.rr_data.specs.Prelude.{number, NameField, time_of, IsPlaced, token_view, PushesAll, Pushes, field_view};

use crate::numbers::{number_octets, short_octets};
use crate::refusal::RdataRefusal;
use crate::splits::MOST_SHORT;
use crate::types::Field;
use dns_name::Name;
use std::alloc::{AllocError, Global};
use zone_text::{Token, number, push_address, push_address6, time_of};

fn push_name(origin: &Name, text: &[u8], out: &mut Vec<u8>) -> Result<bool, AllocError>
    ensures { IfOk result (λ good. PushesAll good out.old.items out.new.items (field_octets origin.now NameField text.now)) }
{
    let Ok(name) = Name::read(text, origin) else {
        return Ok(false);
    };
    out.extend_from_slice(name.wire())?;
    Ok(true)
}

fn push_short(text: &[u8], out: &mut Vec<u8>) -> Result<bool, AllocError>
    ensures { IfOk result (λ good. PushesAll good out.old.items out.new.items (option_map (to_be_bytes w16) (number 65535 text.now))) }
{
    let Some(value) = number(text, MOST_SHORT) else {
        return Ok(false);
    };
    out.extend_from_slice(&short_octets(value as u16))?;
    Ok(true)
}

// Pushes the octets of a number, if there is one.
fn push_number(value: Option<u32>, out: &mut Vec<u8>) -> Result<bool, AllocError>
    ensures { IfOk result (λ good. PushesAll good out.old.items out.new.items (option_map (to_be_bytes w32) value)) }
{
    let Some(value) = value else {
        return Ok(false);
    };
    out.extend_from_slice(&number_octets(value))?;
    Ok(true)
}

// Pushes what a word says.
fn push_field(
    alloc: Global,
    origin: &Name,
    field: Field,
    text: &[u8],
    out: &mut Vec<u8>,
) -> Result<bool, AllocError>
    ensures { IfOk result (λ good. PushesAll good out.old.items out.new.items (field_octets origin.now (field_view field) text.now)) }
{
    match field {
        Field::Name => push_name(origin, text, out),
        Field::Short => push_short(text, out),
        Field::Number => push_number(number(text, u32::MAX), out),
        Field::Time => push_number(time_of(text), out),
        Field::Address => push_address(text, out),
        Field::Address6 => push_address6(alloc, text, out),
    }
}

// Pushes what a token says; false where it says nothing.
fn push_word(
    alloc: Global,
    origin: &Name,
    field: Field,
    bytes: &[u8],
    token: Token,
    out: &mut Vec<u8>,
) -> Result<bool, AllocError>
    requires { IsPlaced bytes.now token }
    ensures { IfOk result (λ good. PushesAll good out.old.items out.new.items (word_octets origin.now (field_view field) (token_view bytes.now token))) }
{
    if token.quoted {
        return Ok(false);
    }
    push_field(alloc, origin, field, token.text(bytes), out)
}

// Pushes what the words of a type's data say.
#[tactic(auto, using(crate::proofs::FieldLemmas::field_rules), unfolding(zone_model::specs::Data::read_fields))]
pub fn push_fields(
    alloc: Global,
    origin: &Name,
    bytes: &[u8],
    fields: &[Field],
    tokens: &[Token],
    out: &mut Vec<u8>,
) -> Result<(), RdataRefusal>
    requires placed { All (IsPlaced bytes.now) tokens.now }
    ensures { Pushes result out.old.items out.new.items (read_fields origin.now 0 (map field_view fields.now) (map (token_view bytes.now) tokens.now)) }
{
    let mut rest = tokens;
    for (at, field) in fields.iter().enumerate() {
        let Some((token, others)) = rest.split_first() else {
            return Err(RdataRefusal::BadRdata { at });
        };
        if !push_word(alloc, origin, *field, bytes, *token, out)? {
            return Err(RdataRefusal::BadRdata { at });
        }
        rest = others;
    }
    if !rest.is_empty() {
        return Err(RdataRefusal::BadRdata { at: fields.len() });
    }
    Ok(())
}
