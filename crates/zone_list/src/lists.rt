//! The zones of an input.
ghost use Rattle.std.specs.Prelude.{◌≡◌, ◌≤◌, ◌^◌, length, IfOk};
ghost use Rattle.zone_list.specs.Prelude.{lines_of, begins_part, zones_of, AreListed, Reads};

use crate::heads::is_head;
use crate::parts::read_part;
use master_file::Zone;
use std::alloc::Global;
use zone_model::ZoneKind;
use zone_text::{ZoneRefusal, line_at, refuse};

// Whether the first line begins a part.
fn begins_part(text: &[u8]) -> bool
    requires { length text.now ≤ 2 ^ 24 }
    ensures { result ≡ begins_part (lines_of text.now) }
{
    if text.is_empty() {
        return false;
    }
    let (upto, _) = line_at(text, 0);
    is_head(&text[..upto as usize])
}

/// The zones of the parts that bytes say, in order, or the first refusal from the top.
#[tactic(auto, unfolding(crate::specs::Lists::zones_of))]
pub fn read_zones(alloc: Global, bytes: &[u8]) -> Result<Vec<Zone>, ZoneRefusal>
    requires short { length bytes.now ≤ 2 ^ 24 }
    ensures zones { Reads result (λ v. v.items) (zones_of (lines_of bytes.now)) }
    ensures listed { IfOk result (λ v. AreListed v.items) }
{
    if !begins_part(bytes) {
        return Err(refuse(1, ZoneKind::BadToken));
    }
    let mut zones = Vec::new(alloc);
    let mut at = 0u32;
    let mut number = 1u32;
    while (at as usize) < bytes.len() {
        let (behind, lines) = read_part(alloc, &bytes[at as usize..], number, &mut zones)?;
        at += behind;
        number += lines;
    }
    Ok(zones)
}
