//! The tokens of a line.
ghost use Rattle.std.specs.Prelude.{◌≡◌, ◌<◌, ◌≤◌, ◌+◌, ◌^◌, ◌++◌, ◌∷◌, [], length, slice_index, OnOk, Result, Ok, Err, true, false, if◌then◌else◌};
ghost use Rattle.zone_text.specs.Prelude.{slice_range, position, All, stops_word, apart, in_word, in_quote, step, steps, line_end, line_tokens, parts_words};
ghost use Rattle.zone_text.specs.Prelude.{Word, Quote, scan_view, ended, Gives, HasScanned, IsInside, IsNextStep, IsStretch, MayEnd, Begun};

use crate::refusal::{ZoneRefusal, refuse};
use crate::token::Token;
use std::alloc::Global;
use zone_model::ZoneKind;

// What the byte before belongs to, with the byte that it began at.
#[derive(Clone, Copy)]
pub enum Begun {
    Apart,
    Comment,
    Word(u32),
    Quote(u32),
    Escape(bool, u32),
}

/// The tokens so far.
#[derive(Drop)]
pub struct Scan {
    pub tokens: Vec<Token>,
    pub begun: Begun,
    pub depth: u32,
    pub outer: u32,
    pub parens: bool,
}

// A byte that isn't in a token, a comment or behind a backslash.
fn apart(scan: &mut Scan, bytes: &[u8], at: u32, line: u32) -> Result<(), ZoneRefusal>
    requires inside { at < length bytes.now }
    requires short { length bytes.now ≤ 2 ^ 24 }
    requires scanned { HasScanned bytes.now at scan.old }
    ensures gives { Gives result (scan_view bytes.now (at + 1) scan.new) (apart line (slice_index bytes.now at) (scan_view bytes.now at scan.old)) }
    ensures scanned { OnOk result (HasScanned bytes.now (at + 1) scan.new) }
{
    match bytes[at as usize] {
        b' ' | b'\t' => scan.begun = Begun::Apart,
        b';' => scan.begun = Begun::Comment,
        b'"' => scan.begun = Begun::Quote(at + 1),
        b'(' => {
            if scan.depth == 0 {
                scan.outer = line;
            }
            scan.depth += 1;
            scan.parens = true;
            scan.begun = Begun::Apart;
        }
        b')' => {
            if scan.depth == 0 {
                return Err(refuse(line, ZoneKind::BadToken));
            }
            scan.depth -= 1;
            scan.begun = Begun::Apart;
        }
        b'\\' => scan.begun = Begun::Escape(false, at),
        _ => scan.begun = Begun::Word(at),
    }
    Ok(())
}

// Ends a token before a byte; a quote behind its text is passed as well.
fn end_token(
    scan: &mut Scan,
    bytes: &[u8],
    from: u32,
    at: u32,
    quoted: bool,
    line: u32,
) -> Result<(), ZoneRefusal>
    requires { MayEnd bytes.now from at scan.old }
    ensures gives { Gives result (scan_view bytes.now at scan.new) (ended bytes.now from at quoted line scan.old) }
    ensures behind { Gives result (scan_view bytes.now (at + 1) scan.new) (ended bytes.now from at quoted line scan.old) }
    ensures scanned { OnOk result (HasScanned bytes.now at scan.new) }
    ensures scanned_behind { OnOk result (HasScanned bytes.now (at + 1) scan.new) }
{
    scan.tokens.push(Token {
        from,
        upto: at,
        quoted,
        line,
    })?;
    scan.begun = Begun::Apart;
    Ok(())
}

fn parts_words(octet: u8) -> bool
    ensures { result ≡ parts_words octet }
{
    matches!(octet, b' ' | b'\t' | b';' | b'"' | b'(' | b')')
}

#[tactic(auto, using(crate::proofs::ScanLemmas::range_more))]
fn in_word(scan: &mut Scan, bytes: &[u8], from: u32, at: u32, line: u32) -> Result<(), ZoneRefusal>
    requires { IsInside bytes.now from at scan.old }
    ensures gives { Gives result (scan_view bytes.now (at + 1) scan.new)
        (in_word line (slice_index bytes.now at) (slice_range bytes.now from at) (scan_view bytes.now at scan.old)) }
    ensures scanned { OnOk result (HasScanned bytes.now (at + 1) scan.new) }
{
    let octet = bytes[at as usize];
    if parts_words(octet) {
        end_token(scan, bytes, from, at, false, line)?;
        return apart(scan, bytes, at, line);
    }
    if octet == b'\\' {
        scan.begun = Begun::Escape(false, from);
        return Ok(());
    }
    scan.begun = Begun::Word(from);
    Ok(())
}

#[tactic(auto, using(crate::proofs::ScanLemmas::range_more))]
fn in_quote(scan: &mut Scan, bytes: &[u8], from: u32, at: u32, line: u32) -> Result<(), ZoneRefusal>
    requires { IsInside bytes.now from at scan.old }
    ensures gives { Gives result (scan_view bytes.now (at + 1) scan.new)
        (in_quote line (slice_index bytes.now at) (slice_range bytes.now from at) (scan_view bytes.now at scan.old)) }
    ensures scanned { OnOk result (HasScanned bytes.now (at + 1) scan.new) }
{
    let octet = bytes[at as usize];
    if octet == b'"' {
        return end_token(scan, bytes, from, at, true, line);
    }
    if octet == b'\\' {
        scan.begun = Begun::Escape(true, from);
        return Ok(());
    }
    scan.begun = Begun::Quote(from);
    Ok(())
}

#[tactic(auto, using(crate::proofs::ScanLemmas::range_more))]
fn escaped(scan: &mut Scan, bytes: &[u8], quoted: bool, from: u32, at: u32)
    requires { IsInside bytes.now from at scan.old }
    ensures gives { let text = slice_range bytes.now from at ++ slice_index bytes.now at ∷ [] in
        scan_view bytes.now (at + 1) scan.new ≡ record (scan_view bytes.now at scan.old) { begun = (if quoted then Quote text else Word text) } }
    ensures scanned { HasScanned bytes.now (at + 1) scan.new }
{
    if quoted {
        scan.begun = Begun::Quote(from);
    } else {
        scan.begun = Begun::Word(from);
    }
}

// The next byte of a line.
#[tactic(auto, unfolding(zone_model::specs::Tokens::step))]
fn step(scan: &mut Scan, bytes: &[u8], at: u32, line: u32) -> Result<(), ZoneRefusal>
    requires inside { at < length bytes.now }
    requires short { length bytes.now ≤ 2 ^ 24 }
    requires scanned { HasScanned bytes.now at scan.old }
    ensures gives { Gives result (scan_view bytes.now (at + 1) scan.new) (step line (slice_index bytes.now at) (scan_view bytes.now at scan.old)) }
    ensures scanned { OnOk result (HasScanned bytes.now (at + 1) scan.new) }
{
    match scan.begun {
        Begun::Apart => apart(scan, bytes, at, line),
        Begun::Comment => Ok(()),
        Begun::Word(from) => in_word(scan, bytes, from, at, line),
        Begun::Quote(from) => in_quote(scan, bytes, from, at, line),
        Begun::Escape(quoted, from) => {
            escaped(scan, bytes, quoted, from, at);
            Ok(())
        }
    }
}

// The end of a line.
#[tactic(auto, unfolding(zone_model::specs::Tokens::line_end))]
fn line_end(scan: &mut Scan, bytes: &[u8], at: u32, line: u32) -> Result<(), ZoneRefusal>
    requires inside { (at ≤ length bytes.now) × (length bytes.now ≤ 2 ^ 24) }
    requires scanned { HasScanned bytes.now at scan.old }
    ensures gives { Gives result (scan_view bytes.now at scan.new) (line_end line (scan_view bytes.now at scan.old)) }
    ensures scanned { OnOk result (HasScanned bytes.now at scan.new) }
    ensures apart { OnOk result (scan.new.begun ≡ Begun.Apart) }
{
    match scan.begun {
        Begun::Apart => Ok(()),
        Begun::Comment => {
            scan.begun = Begun::Apart;
            Ok(())
        }
        Begun::Word(from) => end_token(scan, bytes, from, at, false, line),
        Begun::Quote(_) => Err(refuse(line, ZoneKind::OpenQuote)),
        Begun::Escape(_, _) => Err(refuse(line, ZoneKind::BadToken)),
    }
}

// A byte that parts words, or a backslash. Most bytes of words lie past `)`, where only two are of these.
fn stops_word(octet: u8) -> bool
    ensures { result ≡ stops_word octet }
{
    if octet > b')' {
        octet == b';' || octet == b'\\'
    } else {
        parts_words(octet)
    }
}

// The index of the first byte that doesn't just join a word.
fn first_stop(text: &[u8]) -> Option<usize>
    ensures { result ≡ position stops_word text.now }
{
    text.iter().position(|octet| stops_word(*octet))
}

// The byte up to which each joins a word: the first that doesn't, or `upto`.
fn word_end(bytes: &[u8], at: u32, upto: u32) -> u32
    requires { IsStretch bytes.now at upto }
    ensures order { at ≤ result }
    ensures inside { result ≤ upto }
    ensures joins { All (λ c. stops_word c ≡ false) (slice_range bytes.now at result) }
    ensures stops { result < upto → stops_word (slice_index bytes.now result) ≡ true }
{
    match first_stop(&bytes[at as usize..upto as usize]) {
        Some(n) => at + n as u32,
        None => upto,
    }
}

// The index of the next byte that `step` has to take: in a word, that of the first byte that doesn't just join it.
fn next_step(scan: &Scan, bytes: &[u8], at: u32, upto: u32) -> u32
    requires stretch { IsStretch bytes.now at upto }
    requires scanned { HasScanned bytes.now at scan.now }
    ensures { IsNextStep bytes.now at upto scan.now result }
{
    match scan.begun {
        Begun::Word(_) => word_end(bytes, at, upto),
        _ => at,
    }
}

// The bytes of a line up to its end.
#[tactic(auto, using(crate::proofs::ScanLemmas::steps_more), unfolding(zone_model::specs::Tokens::steps))]
fn steps(scan: &mut Scan, bytes: &[u8], from: u32, upto: u32, line: u32) -> Result<(), ZoneRefusal>
    requires stretch { IsStretch bytes.now from upto }
    requires scanned { HasScanned bytes.now from scan.old }
    ensures gives { Gives result (scan_view bytes.now upto scan.new) (steps line (slice_range bytes.now from upto) (scan_view bytes.now from scan.old)) }
    ensures scanned { OnOk result (HasScanned bytes.now upto scan.new) }
{
    let mut at = next_step(scan, bytes, from, upto);
    while at < upto {
        step(scan, bytes, at, line)?;
        at = next_step(scan, bytes, at + 1, upto);
    }
    Ok(())
}

// The tokens of a line.
#[tactic(auto, unfolding(zone_model::specs::Tokens::line_tokens))]
pub fn scan_tokens(
    scan: &mut Scan,
    bytes: &[u8],
    from: u32,
    upto: u32,
    line: u32,
) -> Result<(), ZoneRefusal>
    requires stretch { IsStretch bytes.now from upto }
    requires scanned { HasScanned bytes.now from scan.old }
    ensures gives { Gives result (scan_view bytes.now upto scan.new) (line_tokens line (slice_range bytes.now from upto) (scan_view bytes.now from scan.old)) }
    ensures scanned { OnOk result (HasScanned bytes.now upto scan.new) }
    ensures apart { OnOk result (scan.new.begun ≡ Begun.Apart) }
{
    steps(scan, bytes, from, upto, line)?;
    line_end(scan, bytes, upto, line)
}
