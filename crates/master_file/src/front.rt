//! What stands before a record's data.
ghost use Rattle.std.specs.Prelude.{◌≡◌, ◌≤◌, ◌+◌, length, map, Some, None, Option, Ok, Err, Result, IfOk, false};
ghost use Rattle.master_file.specs.Prelude.{All, front_of, time_word, type_word, class_word, is_time};
ghost use Rattle.master_file.specs.Prelude.{name_word, is_directive, IsPlaced, token_view, Reads, front_view};

use crate::classes::class_named;
use dns_name::Name;
use rr_data::read_type;
use zone_model::ZoneKind;
use zone_text::{Token, ZoneRefusal, refuse, time_of};

/// The time, if one is written, the type, and how many tokens stand before the data.
#[derive(Clone, Copy)]
pub struct Front {
    pub time: Option<u32>,
    pub rtype: u16,
    pub len: usize,
}

pub fn time_word(bytes: &[u8], token: Token) -> Option<u32>
    requires { IsPlaced bytes.now token }
    ensures { result ≡ time_word (token_view bytes.now token) }
{
    time_of(token.plain(bytes)?)
}

pub fn type_word(bytes: &[u8], token: Token) -> Option<u16>
    requires { IsPlaced bytes.now token }
    ensures { result ≡ type_word (token_view bytes.now token) }
{
    read_type(token.plain(bytes)?)
}

fn class_word(bytes: &[u8], token: Token) -> Option<bool>
    requires { IsPlaced bytes.now token }
    ensures { result ≡ class_word (token_view bytes.now token) }
{
    class_named(token.plain(bytes)?)
}

fn is_time(bytes: &[u8], token: Token) -> bool
    requires { IsPlaced bytes.now token }
    ensures { result ≡ is_time (token_view bytes.now token) }
{
    match token.plain(bytes) {
        Some([octet, ..]) => octet.is_ascii_digit(),
        _ => false,
    }
}

pub fn is_directive(bytes: &[u8], token: Token) -> bool
    requires { IsPlaced bytes.now token }
    ensures { result ≡ is_directive (token_view bytes.now token) }
{
    match token.plain(bytes) {
        Some([octet, ..]) => *octet == b'$',
        _ => false,
    }
}

pub fn name_word(bytes: &[u8], origin: &Name, token: Token) -> Option<Name>
    requires { IsPlaced bytes.now token }
    ensures { result ≡ name_word origin.now (token_view bytes.now token) }
{
    let text = token.plain(bytes)?;
    match Name::read(text, origin) {
        Ok(name) => Some(name),
        Err(_) => None,
    }
}

/// The words behind an owner up to the type.
#[tactic(auto, unfolding(zone_model::specs::MasterFile::front_of))]
pub fn front_of(bytes: &[u8], last: u32, tokens: &[Token]) -> Result<Front, ZoneRefusal>
    requires placed { All (IsPlaced bytes.now) tokens.now }
    ensures front { Reads result (front_view bytes.now tokens.now) (front_of last None false (map (token_view bytes.now) tokens.now)) }
    ensures len { IfOk result (λ f. f.len ≤ length tokens.now) }
{
    let mut time = None;
    let mut classed = false;
    for (index, token) in tokens.iter().enumerate() {
        if time.is_none() && is_time(bytes, *token) {
            match time_word(bytes, *token) {
                Some(written) => time = Some(written),
                None => return Err(refuse(token.line, ZoneKind::BadTtl)),
            }
        } else {
            let class = if classed {
                None
            } else {
                class_word(bytes, *token)
            };
            match class {
                Some(true) => classed = true,
                Some(false) => return Err(refuse(token.line, ZoneKind::BadClass)),
                None => {
                    return match type_word(bytes, *token) {
                        Some(rtype) => Ok(Front {
                            time,
                            rtype,
                            len: index + 1,
                        }),
                        None => Err(refuse(token.line, ZoneKind::UnknownType)),
                    };
                }
            }
        }
    }
    Err(refuse(last, ZoneKind::UnknownType))
}
