//! A text as the dots and octets that it stands for.
ghost use Rattle.std.specs.Prelude.{◌≡◌, ◌<◌, ◌≤◌, length, MatchOption, None, Some, ⊤};
ghost use Rattle.dns_name.specs.Prelude.{escaped_octet, escape_len, IsPieceAt};

// What stands at a place of a text.
pub enum Piece {
    // The end of a label.
    Dot,
    // An octet of a label, in lower case, and the place behind the bytes that stand for it.
    Octet(u8, usize),
    // A backslash that begins no escape.
    Bad,
}

// The octet that the bytes behind a backslash stand for, and how many these are.
#[tactic(auto, using(std::proofs::lemmas::Bool::Decides::nat_tests), unfolding(zone_model::specs::Escapes::escaped_octet))]
fn escaped(bytes: &[u8]) -> Option<(u8, usize)>
    ensures octet { MatchOption result (escaped_octet bytes.now ≡ None) (λ x. escaped_octet bytes.now ≡ Some x.0) }
    ensures len { MatchOption result ⊤ (λ x. (x.1 ≡ escape_len bytes.now) × (x.1 ≤ length bytes.now)) }
{
    if bytes.is_empty() {
        return None;
    }
    if !bytes[0].is_ascii_digit() {
        return Some((bytes[0], 1));
    }
    if bytes.len() < 3 || !bytes[1].is_ascii_digit() || !bytes[2].is_ascii_digit() {
        return None;
    }
    let number = 100 * u16::from(bytes[0] - b'0')
        + 10 * u16::from(bytes[1] - b'0')
        + u16::from(bytes[2] - b'0');
    if number > 255 {
        return None;
    }
    Some((number as u8, 3))
}

pub fn piece_at(text: &[u8], at: usize) -> Piece
    requires { at < length text.now }
    ensures { IsPieceAt text.now at result }
{
    let octet = text[at];
    if octet == b'.' {
        return Piece::Dot;
    }
    if octet != b'\\' {
        return Piece::Octet(octet.to_ascii_lowercase(), at + 1);
    }
    match escaped(&text[at + 1..]) {
        Some((octet, len)) => Piece::Octet(octet.to_ascii_lowercase(), at + 1 + len),
        None => Piece::Bad,
    }
}
