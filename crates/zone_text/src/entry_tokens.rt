//! The tokens of an entry.
ghost use Rattle.std.specs.Prelude.{◌≡◌, ◌≤◌, ◌<◌, ◌+◌, ◌^◌, ℕ, List, length, drop, IfOk};
ghost use Rattle.zone_text.specs.Prelude.{EntrySays, IsEntry, entry_from, fresh, begins_blank};
ghost use Rattle.zone_text.specs.Prelude.{lines_of, HasScanned, ReadsLine, Reads, lexed_view, scan_view, Begun};

use crate::lexer::{Begun, Scan, scan_tokens};
use crate::lines::line_at;
use crate::refusal::{ZoneRefusal, refuse};
use crate::token::Token;
use std::alloc::Global;
use zone_model::ZoneKind;

/// The tokens of an entry, whether it begins with a space or tab, whether a parenthesis was met, and the byte and the line
/// that the next entry begins at.
#[derive(Drop)]
pub struct Lexed {
    pub tokens: Vec<Token>,
    pub blank: bool,
    pub parens: bool,
    pub next: u32,
    pub next_line: u32,
}

// The line that begins at a byte; the byte that the next one begins at.
#[tactic(auto, using(crate::proofs::EntryLemmas::entry_rules))]
fn scan_line(scan: &mut Scan, bytes: &[u8], at: u32, line: u32) -> Result<u32, ZoneRefusal>
    requires inside { at < length bytes.now }
    requires short { length bytes.now ≤ 2 ^ 24 }
    requires scanned { HasScanned bytes.now at scan.old }
    ensures reads { ReadsLine bytes.now at line scan.old scan.new result }
    ensures scanned { IfOk result (λ next. (HasScanned bytes.now next scan.new) × (scan.new.begun ≡ Begun.Apart) × (at < next) × (next ≤ length bytes.now)) }
{
    let (upto, next) = line_at(bytes, at);
    match scan_tokens(scan, bytes, at, upto, line) {
        Ok(()) => Ok(next),
        Err(refusal) => Err(refusal),
    }
}

// A scan of which nothing has begun. What the tokens were is lost, their memory is kept.
pub fn new_scan(mut tokens: Vec<Token>) -> Scan
    ensures fresh { (bytes : List ℕ) (at : ℕ) → scan_view bytes at result ≡ fresh }
    ensures scanned { (bytes : List ℕ) (at : ℕ) → HasScanned bytes at result }
{
    tokens.clear();
    Scan {
        tokens,
        begun: Begun::Apart,
        depth: 0,
        outer: 0,
        parens: false,
    }
}

// The entry begins with a space or tab.
fn is_blank(bytes: &[u8], from: u32) -> bool
    requires { from ≤ length bytes.now }
    ensures { result ≡ begins_blank (drop from bytes.now) }
{
    match bytes[from as usize..].first() {
        Some(octet) => *octet == b' ' || *octet == b'\t',
        None => false,
    }
}

// The tokens of the entry that begins at a byte, in the memory of others.
#[tactic(auto, using(crate::proofs::EntryLemmas::end_rules), unfolding(zone_model::specs::Tokens::entry_from))]
pub fn scan_entry(
    lent: Vec<Token>,
    bytes: &[u8],
    from: u32,
    line: u32,
) -> Result<Lexed, ZoneRefusal>
    requires inside { from ≤ length bytes.now }
    requires short { length bytes.now ≤ 2 ^ 24 }
    requires lines { line + length bytes.now < 2 ^ 32 }
    ensures reads { Reads result (lexed_view bytes.now) (entry_from line (lines_of (drop from bytes.now)) fresh) }
    ensures lexed { IfOk result (IsEntry bytes.now from line) }
{
    let blank = is_blank(bytes, from);
    let mut scan = new_scan(lent);
    let mut at = from;
    let mut n = line;
    while (at as usize) < bytes.len() {
        at = scan_line(&mut scan, bytes, at, n)?;
        n += 1;
        if scan.depth == 0 {
            return Ok(finished(scan, blank, at, n));
        }
    }
    if scan.depth > 0 {
        return Err(refuse(scan.outer, ZoneKind::OpenParen));
    }
    Ok(finished(scan, blank, at, n))
}

fn finished(scan: Scan, blank: bool, next: u32, next_line: u32) -> Lexed
    ensures tokens { result.tokens.items ≡ scan.tokens.items }
    ensures parens { result.parens ≡ scan.parens }
    ensures blank { result.blank ≡ blank }
    ensures next { result.next ≡ next }
    ensures next_line { result.next_line ≡ next_line }
{
    let Scan { tokens, parens, .. } = scan;
    Lexed {
        tokens,
        blank,
        parens,
        next,
        next_line,
    }
}

/// The tokens of the entry that begins at byte `from`, which stands on a line of the number `line` (RFC 1035, section 5.1):
/// those of this line and of each further one while a parenthesis is open at its end. At the end of the bytes there are none.
pub fn tokens(alloc: Global, bytes: &[u8], from: u32, line: u32) -> Result<Lexed, ZoneRefusal>
    requires inside { from ≤ length bytes.now }
    requires short { length bytes.now ≤ 2 ^ 24 }
    requires lines { line + length bytes.now < 2 ^ 32 }
    ensures says { EntrySays bytes.now line (lines_of (drop from bytes.now)) result }
    ensures lexed { IfOk result (IsEntry bytes.now from line) }
{
    scan_entry(Vec::new(alloc), bytes, from, line)
}
