//! The tokens of one line by itself.
ghost use Rattle.std.specs.Prelude.{◌≡◌, ◌≤◌, ◌<◌, ◌^◌, length, drop, IfOk};
ghost use Rattle.zone_text.specs.Prelude.{IsLine, LineSays, first_line};

use crate::entry_tokens::new_scan;
use crate::lexer::{Scan, scan_tokens};
use crate::lines::line_at;
use crate::refusal::ZoneRefusal;
use crate::token::Token;

/// The tokens of a line, whether it has a parenthesis, and the byte that the next line begins at. A parenthesis that the
/// line leaves open is none of this call's business.
#[derive(Drop)]
pub struct LexedLine {
    pub tokens: Vec<Token>,
    pub parens: bool,
    pub next: u32,
}

fn line_of(scan: Scan, next: u32) -> LexedLine
    ensures tokens { result.tokens.items ≡ scan.tokens.items }
    ensures parens { result.parens ≡ scan.parens }
    ensures next { result.next ≡ next }
{
    let Scan { tokens, parens, .. } = scan;
    LexedLine {
        tokens,
        parens,
        next,
    }
}

/// The tokens of the line that begins at byte `from`, which has the number `line`. Lines behind it are not read: where a
/// parenthesis stays open, `parens` tells that there is one. The tokens lie in the memory of those lent, which are lost.
pub fn line_tokens(
    lent: Vec<Token>,
    bytes: &[u8],
    from: u32,
    line: u32,
) -> Result<LexedLine, ZoneRefusal>
    requires inside { from < length bytes.now }
    requires short { length bytes.now ≤ 2 ^ 24 }
    ensures says { LineSays bytes.now line (first_line (drop from bytes.now)) result }
    ensures lexed { IfOk result (IsLine bytes.now from) }
{
    let (upto, next) = line_at(bytes, from);
    let mut scan = new_scan(lent);
    match scan_tokens(&mut scan, bytes, from, upto, line) {
        Ok(()) => Ok(line_of(scan, next)),
        Err(refusal) => Err(refusal),
    }
}
