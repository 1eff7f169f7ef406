//! The line of a refusal.
ghost use Rattle.std.specs.Prelude.{◌≡◌, ◌≤◌, ◌+◌, ◌++◌, IfOk, length, codes, decimal};
ghost use Rattle.qp_main.specs.Prelude.{pieces_text, zone_kind_text, script_kind_text, refusal_text};

use dns_name::Octets;
use itoa::Buffer;
use job_model::ScriptKind;
use job_report::{Pieces, push_pair};
use session_lines::script_kind_name;
use std::alloc::{AllocError, Global};
use zone_model::ZoneKind;

fn zone_kind_name(kind: ZoneKind) -> &'static [u8]
    ensures text { result.now ≡ zone_kind_text kind }
    ensures short { length result.now ≤ 13 }
{
    match kind {
        ZoneKind::BadName => b"BadName",
        ZoneKind::BadToken => b"BadToken",
        ZoneKind::OpenParen => b"OpenParen",
        ZoneKind::OpenQuote => b"OpenQuote",
        ZoneKind::NoOwner => b"NoOwner",
        ZoneKind::NoTtl => b"NoTtl",
        ZoneKind::BadTtl => b"BadTtl",
        ZoneKind::BadClass => b"BadClass",
        ZoneKind::UnknownType => b"UnknownType",
        ZoneKind::BadRdata => b"BadRdata",
        ZoneKind::Include => b"Include",
        ZoneKind::OutsideZone => b"OutsideZone",
        ZoneKind::CnameAndOther => b"CnameAndOther",
        ZoneKind::SoaRule => b"SoaRule",
        ZoneKind::LongEntry => b"LongEntry",
        ZoneKind::Memory => b"Memory",
        ZoneKind::Repeated => b"Repeated",
        ZoneKind::TooManyZones => b"TooManyZones",
    }
}

// The line of a refusal. It lies in place, and takes no memory.
fn refusal_line(what: &[u8], number: u64, kind: &[u8]) -> Octets
    requires short { length what.now + length kind.now ≤ 20 }
    ensures { result ≡ refusal_text what.now number kind.now }
{
    let mut digits = Buffer::new();
    let mut line = Octets::new();
    line.append(what);
    line.append(b" refused line ");
    line.append(digits.format(number).as_bytes());
    line.append(b" ");
    line.append(kind);
    line.append(b"\n");
    line
}

/// The line of a refusal of a zone, or of several.
pub fn zone_refused(line: u32, kind: ZoneKind) -> Octets
    ensures { result ≡ refusal_text (codes "zone") line (zone_kind_text kind) }
{
    refusal_line(b"zone", u64::from(line), zone_kind_name(kind))
}

/// The line of a script's refusal.
pub fn script_refused(line: u32, kind: ScriptKind) -> Octets
    ensures { result ≡ refusal_text (codes "script") line (script_kind_text kind) }
{
    refusal_line(b"script", u64::from(line), script_kind_name(kind))
}

/// The line of a zone that may need more cells than the chunks have.
pub fn no_room(alloc: Global, cells: u64, limit: u64) -> Result<Pieces, AllocError>
    ensures { IfOk result (λ text. pieces_text text ≡ codes "zone does not fit: " ++ decimal cells ++ codes " cells over " ++ decimal limit ++ codes "\n") }
{
    let mut out = Vec::new(alloc);
    push_pair(
        &mut out,
        b"zone does not fit: ",
        cells,
        b" cells over ",
        limit,
    )?;
    Ok(Pieces::of(alloc, out))
}
