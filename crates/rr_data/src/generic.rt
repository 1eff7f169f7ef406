//! Data of any type, as octets in hexadecimal digits.
ghost use Rattle.std.specs.Prelude.{◌≡◌, ◌+◌, ◌*◌, ◌++◌, map, Some, None, Ok, Err, Result, OnOk, true};
ghost use Rattle.rr_data.specs.Prelude.{All, list_all, is_ascii_hexdigit, paired, read_digits};
ghost use Rattle.rr_data.specs.Prelude.{read_generic, is_generic, IsPlaced, token_view, Pushes};

use crate::refusal::RdataRefusal;
use crate::splits::MOST_SHORT;
use std::alloc::{AllocError, Global};
use zone_text::{Token, all_hex, digit_value, number};

// Pushes the digits of tokens, of which some are left to come.
#[tactic(auto, using(crate::proofs::FormLemmas::digits_rules), unfolding(zone_model::specs::Data::read_digits))]
fn push_digits(
    bytes: &[u8],
    tokens: &[Token],
    most: usize,
    digits: &mut Vec<u8>,
) -> Result<(), RdataRefusal>
    requires placed { All (IsPlaced bytes.now) tokens.now }
    requires hex { list_all is_ascii_hexdigit digits.old.items ≡ true }
    ensures hex { OnOk result (list_all is_ascii_hexdigit digits.new.items ≡ true) }
    ensures pushes { Pushes result digits.old.items digits.new.items (read_digits 2 most (map (token_view bytes.now) tokens.now)) }
{
    let mut left = most;
    for (index, token) in tokens.iter().enumerate() {
        let text = token.text(bytes);
        if token.quoted || !all_hex(text) || text.len() > left {
            return Err(RdataRefusal::BadRdata { at: index + 2 });
        }
        digits.extend_from_slice(text)?;
        left -= text.len();
    }
    if left > 0 {
        return Err(RdataRefusal::BadRdata {
            at: tokens.len() + 2,
        });
    }
    Ok(())
}

// Pushes octets of two digits each.
#[tactic(auto, unfolding(zone_model::specs::DataWords::paired))]
fn push_pairs(digits: &[u8], out: &mut Vec<u8>) -> Result<(), AllocError>
    requires { list_all is_ascii_hexdigit digits.now ≡ true }
    ensures { OnOk result (out.new.items ≡ out.old.items ++ paired digits.now) }
{
    let mut rest = digits;
    while rest.len() >= 2 {
        out.push(16 * digit_value(rest[0]) + digit_value(rest[1]))?;
        rest = &rest[2..];
    }
    Ok(())
}

/// The word `\#` begins data of any type.
pub fn is_generic(bytes: &[u8], tokens: &[Token]) -> bool
    requires { All (IsPlaced bytes.now) tokens.now }
    ensures { result ≡ is_generic (map (token_view bytes.now) tokens.now) }
{
    match tokens.first() {
        Some(token) => !token.quoted && token.text(bytes) == b"\\#".as_slice(),
        None => false,
    }
}

/// Pushes what stands behind `\#`: the number of octets, and their digits.
#[tactic(auto, unfolding(zone_model::specs::Data::read_generic))]
pub fn push_generic(
    alloc: Global,
    bytes: &[u8],
    tokens: &[Token],
    out: &mut Vec<u8>,
) -> Result<(), RdataRefusal>
    requires placed { All (IsPlaced bytes.now) tokens.now }
    ensures { Pushes result out.old.items out.new.items (read_generic (map (token_view bytes.now) tokens.now)) }
{
    let Some((token, words)) = tokens.split_first() else {
        return Err(RdataRefusal::BadRdata { at: 1 });
    };
    if token.quoted {
        return Err(RdataRefusal::BadRdata { at: 1 });
    }
    let Some(octets) = number(token.text(bytes), MOST_SHORT) else {
        return Err(RdataRefusal::BadRdata { at: 1 });
    };
    let mut digits = Vec::new(alloc);
    push_digits(bytes, words, 2 * octets as usize, &mut digits)?;
    push_pairs(&digits, out)?;
    Ok(())
}
