//! The types of data that have a name here, and the form of each one's data (RFC 1035, sections 3.2.2 and 3.3; RFC 3596, section 2.1;
//! RFC 2782): one table.
ghost use Rattle.std.specs.Prelude.{◌≡◌, Some, None, Option};
ghost use Rattle.rr_data.specs.Prelude.{option_map, type_numbered, type_spelled, form_of, form_view, type_view};

use Field::{Address, Address6, Name, Number, Short, Time};
use Form::{Fields, Strings};

// A part of a type's data, which one word says.
#[derive(Clone, Copy)]
pub enum Field {
    Name,
    Short,
    Number,
    Time,
    Address,
    Address6,
}

// A type's data is a row of fields, or strings, each behind its length.
#[derive(Clone, Copy)]
pub enum Form {
    Fields(&'static [Field]),
    Strings,
}

// A type with its mnemonic.
pub struct NamedType {
    pub mnemonic: &'static [u8],
    pub number: u16,
    pub form: Form,
}

macro_rules! named {
    ($mnemonic:literal, $number:expr, $form:expr) => {
        NamedType {
            mnemonic: $mnemonic,
            number: $number,
            form: $form,
        }
    };
}

/// The type of an authoritative server.
pub const NS: u16 = 2;

/// The type of an alias.
pub const CNAME: u16 = 5;

/// The type of a zone's start of authority.
pub const SOA: u16 = 6;

const SOA_FIELDS: &[Field] = &[Name, Name, Number, Time, Time, Time, Time];

static TYPES: &[NamedType] = &[
    named!(b"A", 1, Fields(&[Address])),
    named!(b"NS", NS, Fields(&[Name])),
    named!(b"CNAME", CNAME, Fields(&[Name])),
    named!(b"SOA", SOA, Fields(SOA_FIELDS)),
    named!(b"PTR", 12, Fields(&[Name])),
    named!(b"MX", 15, Fields(&[Short, Name])),
    named!(b"TXT", 16, Strings),
    named!(b"AAAA", 28, Fields(&[Address6])),
    named!(b"SRV", 33, Fields(&[Short, Short, Short, Name])),
];

// The row of a type's number.
pub fn type_numbered(rtype: u16) -> Option<&'static NamedType>
    ensures { option_map (λ t. type_view t.now) result ≡ type_numbered rtype }
{
    for row in TYPES {
        if row.number == rtype {
            return Some(row);
        }
    }
    None
}

// The row of a mnemonic, in letters of either case.
pub fn type_spelled(text: &[u8]) -> Option<&'static NamedType>
    ensures { option_map (λ t. type_view t.now) result ≡ type_spelled text.now }
{
    for row in TYPES {
        if text.eq_ignore_ascii_case(row.mnemonic) {
            return Some(row);
        }
    }
    None
}

// The form of a type's data, where it is known.
pub fn form_of(rtype: u16) -> Option<Form>
    ensures { option_map form_view result ≡ form_of rtype }
{
    Some(type_numbered(rtype)?.form)
}
