//! The words of a script's line.
ghost use Rattle.std.specs.Prelude.{◌≡◌, ◌≤◌, ℕ, List, map, Option, IfSome};
ghost use Rattle.job_script.specs.Prelude.{option_map, All, IsPlaced, token_view};
ghost use Rattle.job_model.specs.Words as words;

use dns_name::Name;
use std::alloc::Global;
use zone_text::{Token, number};

/// The most names that are wanted at once.
const NAME_LIMIT: u32 = 1000;

/// What a line is read with: memory, the bytes that it stands in, the origin that its names are relative to, and its number.
#[derive(Clone, Copy)]
pub struct Line<'a> {
    pub alloc: Global,
    pub bytes: &'a [u8],
    pub origin: &'a Name,
    pub number: u32,
}

/// Whether a token is a command word.
pub fn says(bytes: &[u8], token: Token, word: &[u8]) -> bool
    requires { IsPlaced bytes.now token }
    ensures { result ≡ words.says (token_view bytes.now token) word.now }
{
    if token.quoted || (token.upto - token.from) as usize != word.len() {
        return false;
    }
    token.text(bytes) == word
}

/// The token that stands alone.
pub fn lone(tokens: &[Token]) -> Option<Token>
    ensures lone { (bytes : List ℕ) → option_map (token_view bytes) result ≡ words.lone (map (token_view bytes) tokens.now) }
    ensures placed { (bytes : List ℕ) → All (IsPlaced bytes) tokens.now → IfSome result (IsPlaced bytes) }
{
    let (first, behind) = tokens.split_first()?;
    if behind.is_empty() {
        Some(*first)
    } else {
        None
    }
}

/// The two tokens that stand alone.
pub fn pair(tokens: &[Token]) -> Option<(Token, Token)>
    ensures pair { (bytes : List ℕ) → option_map (λ p. (token_view bytes p.0, token_view bytes p.1)) result ≡ words.pair (map (token_view bytes) tokens.now) }
    ensures placed { (bytes : List ℕ) → All (IsPlaced bytes) tokens.now → IfSome result (λ p. IsPlaced bytes p.0 × IsPlaced bytes p.1) }
{
    let (first, behind) = tokens.split_first()?;
    let second = lone(behind)?;
    Some((*first, second))
}

/// How many names a token says.
pub fn names_word(bytes: &[u8], token: Token) -> Option<u32>
    requires { IsPlaced bytes.now token }
    ensures { result ≡ words.names_word (token_view bytes.now token) }
{
    if token.quoted {
        return None;
    }
    let most = number(token.text(bytes), NAME_LIMIT)?;
    if most == 0 { None } else { Some(most) }
}
