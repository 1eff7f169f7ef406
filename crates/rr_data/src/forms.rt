//! Octets that are of a type's form.
ghost use Rattle.std.specs.Prelude.{◌≡◌, length, map, Some, None, Option, true};
ghost use Rattle.rr_data.specs.Prelude.{option_map, NameField, TimeField, field_rest, fields_fit, strings_fit, form_fits, split_octets, field_view};

use crate::splits::{split_name, split_octets, split_time};
use crate::types::{Field, Form, form_of};

// What stands behind a field that octets begin with.
fn field_rest(field: Field, octets: &[u8]) -> Option<&[u8]>
    ensures { option_map (λ r. r.now) result ≡ field_rest (field_view field) octets.now }
{
    match field {
        Field::Name => behind_name(octets),
        Field::Short => behind_octets(2, octets),
        Field::Number | Field::Address => behind_octets(4, octets),
        Field::Time => behind_time(octets),
        Field::Address6 => behind_octets(16, octets),
    }
}

fn behind_name(octets: &[u8]) -> Option<&[u8]>
    ensures { option_map (λ r. r.now) result ≡ field_rest NameField octets.now }
{
    match split_name(octets) {
        Some((_name, rest)) => Some(rest),
        None => None,
    }
}

fn behind_octets(count: usize, octets: &[u8]) -> Option<&[u8]>
    ensures { option_map (λ r. r.now) result ≡ option_map (λ x. x.1) (split_octets count octets.now) }
{
    let (_octets, rest) = split_octets(count, octets)?;
    Some(rest)
}

fn behind_time(octets: &[u8]) -> Option<&[u8]>
    ensures { option_map (λ r. r.now) result ≡ field_rest TimeField octets.now }
{
    let (_time, rest) = split_time(octets)?;
    Some(rest)
}

// Whether octets are a row of fields.
#[tactic(auto, unfolding(zone_model::specs::DataForms::fields_fit))]
fn fields_fit(fields: &[Field], octets: &[u8]) -> bool
    ensures { result ≡ fields_fit (map field_view fields.now) octets.now }
{
    let mut rest = octets;
    for field in fields {
        match field_rest(*field, rest) {
            Some(behind) => rest = behind,
            None => return false,
        }
    }
    rest.is_empty()
}

// Whether octets are strings, each behind its length.
#[tactic(auto, using(crate::proofs::FormLemmas::strings_rules), unfolding(zone_model::specs::DataForms::strings_fit))]
fn strings_fit(octets: &[u8]) -> bool
    ensures { result ≡ strings_fit (length octets.now) octets.now }
{
    let mut rest = octets;
    let mut left = octets.len();
    while left > 0 {
        let Some((n, behind)) = rest.split_first() else {
            return true;
        };
        let len = *n as usize;
        if len > behind.len() {
            return false;
        }
        rest = &behind[len..];
        left -= 1;
    }
    true
}

// Whether octets are of a type's form.
pub fn form_fits(rtype: u16, octets: &[u8]) -> bool
    ensures { result ≡ form_fits rtype octets.now }
{
    match form_of(rtype) {
        Some(Form::Fields(fields)) => fields_fit(fields, octets),
        Some(Form::Strings) => !octets.is_empty() && strings_fit(octets),
        None => true,
    }
}
