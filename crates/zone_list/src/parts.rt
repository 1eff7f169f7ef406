//! Where parts begin, and what they say.
ghost use Rattle.std.specs.Prelude.{◌≡◌, ◌≤◌, ◌<◌, ◌+◌, ◌∷◌, [], ◌^◌, true, length, IfOk, IfErr};
ghost use Rattle.zone_list.specs.Prelude.{list_any, same_name, lines_of, first_line, begins_part};
ghost use Rattle.zone_list.specs.Prelude.{new_origin, part_says, Reads, IsTold, IsFront, IsAtPart, ReadsPart};

use crate::heads::{head_says, is_head};
use dns_name::Name;
use master_file::{Zone, read_zone_at};
use std::alloc::Global;
use zone_model::ZoneKind;
use zone_text::{ZoneRefusal, line_at, refuse};

// The most zones.
const ZONE_LIMIT: usize = 16;

/// The lines in front of a text's first part: the byte that they end before, and how many they are.
#[derive(Clone, Copy)]
pub struct Front {
    pub upto: u32,
    pub lines: u32,
}

/// The lines in front of the first part. Without one they are all lines.
pub fn front_of(text: &[u8]) -> Front
    requires { length text.now ≤ 2 ^ 24 }
    ensures { IsFront text.now result }
{
    let mut at = 0u32;
    let mut lines = 0u32;
    while (at as usize) < text.len() {
        let (upto, next) = line_at(text, at);
        if is_head(&text[at as usize..upto as usize]) {
            return Front { upto: at, lines };
        }
        at = next;
        lines += 1;
    }
    Front { upto: at, lines }
}

// Whether an earlier zone has the origin.
fn is_repeated(earlier: &[Zone], origin: &Name) -> bool
    ensures { result ≡ list_any (λ zone. same_name zone.origin origin.now) earlier.now }
{
    for zone in earlier {
        if zone.origin() == origin {
            return true;
        }
    }
    false
}

// The origin of a part that begins at a line, if it is new and there is room for it.
fn new_origin(number: u32, earlier: &[Zone], origin: Name) -> Result<Name, ZoneRefusal>
    ensures says { Reads result (λ n. n) (new_origin number earlier.now origin) }
    ensures told { IfErr result IsTold }
{
    if is_repeated(earlier, &origin) {
        return Err(refuse(number, ZoneKind::Repeated));
    }
    if earlier.len() >= ZONE_LIMIT {
        return Err(refuse(number, ZoneKind::TooManyZones));
    }
    Ok(origin)
}

// The zone of the part that begins at a line: its first line, and those behind it.
#[tactic(auto, unfolding(crate::specs::Lists::part_says))]
fn part_says(
    alloc: Global,
    number: u32,
    head: &[u8],
    lines: &[u8],
    earlier: &[Zone],
) -> Result<Zone, ZoneRefusal>
    requires early { number ≤ 2 ^ 24 }
    requires short_head { length head.now ≤ 2 ^ 24 }
    requires short { length lines.now ≤ 2 ^ 24 }
    requires line { lines_of head.now ≡ first_line head.now ∷ [] }
    ensures { Reads result (λ z. z) (part_says earlier.now (record { number = number; head = first_line head.now; lines = lines_of lines.now })) }
{
    let word = head_says(alloc, number, head)?;
    let origin = new_origin(number, earlier, word)?;
    match read_zone_at(alloc, lines, number + 1, &origin) {
        Ok(zone) => Ok(zone),
        Err(refused) => Err(refused),
    }
}

/// The zone of the part that a text begins with joins the earlier ones. Answers the byte behind the part, and its number of lines.
pub fn read_part(
    alloc: Global,
    text: &[u8],
    number: u32,
    zones: &mut Vec<Zone>,
) -> Result<(u32, u32), ZoneRefusal>
    requires some { 0 < length text.now }
    requires short { length text.now ≤ 2 ^ 24 }
    requires early { number ≤ 2 ^ 24 }
    requires begins { begins_part (lines_of text.now) ≡ true }
    ensures reads { ReadsPart text.now number zones.old.items zones.new.items result }
    ensures places { IfOk result (λ x. (0 < x.0) × (x.0 ≤ length text.now) × (x.1 ≤ x.0) × IsAtPart text.now x.0) }
{
    let (_, body) = line_at(text, 0);
    let front = front_of(&text[body as usize..]);
    let end = body + front.upto;
    match part_says(
        alloc,
        number,
        &text[..body as usize],
        &text[body as usize..end as usize],
        zones,
    ) {
        Ok(zone) => {
            zones.push(zone)?;
            Ok((end, front.lines + 1))
        }
        Err(refusal) => Err(refusal),
    }
}
