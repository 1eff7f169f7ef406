//! The data of a type.
ghost use Rattle.std.specs.Prelude.{◌≡◌, [], map};
ghost use Rattle.rr_data.specs.Prelude.{All, read_typed, data_of, IsPlaced, token_view, Pushes};

use crate::fields::push_fields;
use crate::forms::form_fits;
use crate::generic::{is_generic, push_generic};
use crate::refusal::RdataRefusal;
use crate::strings::push_strings;
use crate::types::{Form, form_of};
use dns_name::Name;
use std::alloc::Global;
use zone_text::Token;

// Pushes the data of a type in the form of its own.
fn push_typed(
    alloc: Global,
    origin: &Name,
    rtype: u16,
    bytes: &[u8],
    tokens: &[Token],
    out: &mut Vec<u8>,
) -> Result<(), RdataRefusal>
    requires placed { All (IsPlaced bytes.now) tokens.now }
    ensures { Pushes result out.old.items out.new.items (read_typed origin.now rtype (map (token_view bytes.now) tokens.now)) }
{
    match form_of(rtype) {
        Some(Form::Fields(fields)) => push_fields(alloc, origin, bytes, fields, tokens, out),
        Some(Form::Strings) if !tokens.is_empty() => push_strings(bytes, tokens, out),
        _ => Err(RdataRefusal::BadRdata { at: 0 }),
    }
}

// Pushes the data that tokens say for a type, where there is nothing.
#[tactic(auto, unfolding(zone_model::specs::Data::data_of))]
pub fn push_data(
    alloc: Global,
    origin: &Name,
    rtype: u16,
    bytes: &[u8],
    tokens: &[Token],
    out: &mut Vec<u8>,
) -> Result<(), RdataRefusal>
    requires placed { All (IsPlaced bytes.now) tokens.now }
    requires empty { out.old.items ≡ [] }
    ensures { Pushes result [] out.new.items (data_of origin.now rtype (map (token_view bytes.now) tokens.now)) }
{
    if !is_generic(bytes, tokens) {
        return push_typed(alloc, origin, rtype, bytes, tokens, out);
    }
    push_generic(alloc, bytes, &tokens[1..], out)?;
    if !form_fits(rtype, out) {
        return Err(RdataRefusal::BadRdata { at: 0 });
    }
    Ok(())
}
