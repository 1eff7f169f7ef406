//! The first line of a part.
ghost use Rattle.std.specs.Prelude.{◌≡◌, ◌≤◌, ◌<◌, ◌∷◌, [], ◌^◌, length, map, IfErr};
ghost use Rattle.zone_list.specs.Prelude.{All, lines_of, first_line, IsPlaced, token_view, Reads, IsTold, is_head, origin_word, head_says};

use dns_name::Name;
use master_file::name_word;
use std::alloc::Global;
use zone_model::ZoneKind;
use zone_text::{Token, ZoneRefusal, refuse, scan_entry};

/// Whether a line begins a part.
pub fn is_head(line: &[u8]) -> bool
    ensures { result ≡ is_head line.now }
{
    if line.len() < 6 {
        return false;
    }
    &line[..5] == b"%zone".as_slice() && (line[5] == b' ' || line[5] == b'\t')
}

// The origin that the tokens of a first line say, which has this number.
fn origin_word(number: u32, bytes: &[u8], tokens: &[Token]) -> Result<Name, ZoneRefusal>
    requires { All (IsPlaced bytes.now) tokens.now }
    ensures says { Reads result (λ n. n) (origin_word number (map (token_view bytes.now) tokens.now)) }
    ensures told { IfErr result IsTold }
{
    if tokens.len() != 2 {
        return Err(refuse(number, ZoneKind::BadToken));
    }
    match name_word(bytes, &Name::root(), tokens[1]) {
        Some(origin) => Ok(origin),
        None => Err(refuse(number, ZoneKind::BadName)),
    }
}

/// The origin that the one line of a text says, which has this number.
#[tactic(auto, unfolding(crate::specs::Lists::head_says))]
pub fn head_says(alloc: Global, number: u32, head: &[u8]) -> Result<Name, ZoneRefusal>
    requires short { length head.now ≤ 2 ^ 24 }
    requires early { number ≤ 2 ^ 24 }
    requires line { lines_of head.now ≡ first_line head.now ∷ [] }
    ensures { Reads result (λ n. n) (head_says number (first_line head.now)) }
{
    match scan_entry(Vec::new(alloc), head, 0, number) {
        Ok(entry) => origin_word(number, head, &entry.tokens),
        Err(refusal) => Err(refusal),
    }
}
