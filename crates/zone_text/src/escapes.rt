//! Texts with escapes.
ghost use Rattle.std.specs.Prelude.{◌≡◌, ◌<◌, ◌+◌, ◌∷◌, ℕ, List, Some, None, Option, IfOk, IfSome};
ghost use Rattle.zone_text.specs.Prelude.{octets_from, unescaped, behind_view, BehindSmall, Unescapes, last_digit, PushesAll};

use std::alloc::{AllocError, Global};

// What stands behind a backslash.
#[derive(Clone, Copy)]
pub enum Behind {
    Plain,
    Slash,
    One(u8),
    Two(u8),
}

// The next byte of a text with escapes; None where it makes a bad one.
#[tactic(auto, using(crate::proofs::EscapeLemmas::string_rules), unfolding(zone_model::specs::DataWords::octets_from))]
fn next_octet(behind: Behind, octet: u8, out: &mut Vec<u8>) -> Result<Option<Behind>, AllocError>
    requires { BehindSmall behind }
    ensures gives { IfOk result (λ next. (text : List ℕ) → Unescapes out.old.items out.new.items next text (octets_from (behind_view behind) (octet ∷ text))) }
    ensures small { IfOk result (λ next. IfSome next BehindSmall) }
{
    match behind {
        Behind::Plain => {
            if octet == b'\\' {
                return Ok(Some(Behind::Slash));
            }
            out.push(octet)?;
            Ok(Some(Behind::Plain))
        }
        Behind::Slash => {
            if octet.is_ascii_digit() {
                return Ok(Some(Behind::One(octet - b'0')));
            }
            out.push(octet)?;
            Ok(Some(Behind::Plain))
        }
        Behind::One(value) => {
            if octet.is_ascii_digit() {
                return Ok(Some(Behind::Two(10 * value + (octet - b'0'))));
            }
            Ok(None)
        }
        Behind::Two(value) => {
            let Some(whole) = last_digit(value, octet) else {
                return Ok(None);
            };
            out.push(whole)?;
            Ok(Some(Behind::Plain))
        }
    }
}

// The octet of three digits, the last of which is given.
fn last_digit(value: u8, octet: u8) -> Option<u8>
    requires { value < 100 }
    ensures { result ≡ last_digit value octet }
{
    if !octet.is_ascii_digit() {
        return None;
    }
    let whole = 10 * u16::from(value) + u16::from(octet - b'0');
    if whole > 255 {
        return None;
    }
    Some(whole as u8)
}

// Pushes the octets of a text with escapes; false where it has a bad one.
#[tactic(auto, unfolding(zone_model::specs::DataWords::octets_from))]
pub fn push_unescaped(text: &[u8], out: &mut Vec<u8>) -> Result<bool, AllocError>
    ensures { IfOk result (λ good. PushesAll good out.old.items out.new.items (unescaped text.now)) }
{
    let mut behind = Behind::Plain;
    for octet in text {
        match next_octet(behind, *octet, out)? {
            Some(next) => behind = next,
            None => return Ok(false),
        }
    }
    match behind {
        Behind::Plain => Ok(true),
        _ => Ok(false),
    }
}
