//! The zone that bytes say.
ghost use Rattle.std.specs.Prelude.{◌≡◌, ◌<◌, ◌≤◌, ◌+◌, ◌-◌, [], ◌^◌, length, drop, None, Ok, Err, Result, IfOk, IsTrue, ◌↔◌};
ghost use Rattle.master_file.specs.Prelude.{IsStrictlySortedBy, keys_of, name_cmp, lines_of, zone_of, zone_from};
ghost use Rattle.master_file.specs.Prelude.{at_first, Reads, zone_at, reader_view, ReadsAll, ReadsNext, AllHeld};

use crate::entries::read_entry;
use crate::items::{IntoItems, LentItems};
use crate::owned::Owned;
use crate::owners::Owners;
use crate::records::Reader;
use dns_name::{Name, SortKey};
use rr_data::Rdata;
use std::alloc::Global;
use std::collections::BTreeMap;
use std::marker::Model;
use std::mem::replace;
use zone_model::ZoneKind;
use zone_text::{Token, ZoneRefusal, refuse, scan_entry};

fn new_reader(alloc: Global, apex: &Name) -> Reader
    ensures first { reader_view result ≡ at_first apex.now }
    ensures none { result.owners.owned.entries ≡ [] }
{
    Reader {
        origin: *apex,
        set_time: None,
        last_time: None,
        minimum: None,
        owner: None,
        rdata: Rdata::new(Vec::new(alloc)),
        owners: Owners::new(alloc),
    }
}

// The entry that begins at a byte; the byte and line of the next one. Its tokens lie in memory that is lent.
#[tactic(auto, using(crate::proofs::ZoneLemmas::zone_rules))]
fn read_next(
    alloc: Global,
    bytes: &[u8],
    at: u32,
    line: u32,
    apex: &Name,
    reader: &mut Reader,
    lent: &mut Vec<Token>,
) -> Result<(u32, u32), ZoneRefusal>
    requires inside { at < length bytes.now }
    requires short { length bytes.now ≤ 2 ^ 24 }
    requires early { line ≤ 2 ^ 26 }
    requires held { AllHeld apex.now reader.old.owners.owned.entries }
    ensures held { IfOk result (λ _. AllHeld apex.now reader.new.owners.owned.entries) }
    ensures reads { ReadsNext bytes.now apex.now at line (reader_view reader.old) (reader_view reader.new) result }
    ensures places { IfOk result (λ x. (at < x.0) × (x.0 ≤ length bytes.now) × (x.1 + at ≤ line + x.0)
        × (x.1 + length (lines_of (drop x.0 bytes.now)) ≡ line + length (lines_of (drop at bytes.now)))) }
{
    let lexed = scan_entry(replace(lent, Vec::new(alloc)), bytes, at, line)?;
    read_entry(alloc, apex, line, lexed.blank, bytes, &lexed.tokens, reader)?;
    let behind = (lexed.next, lexed.next_line);
    *lent = lexed.tokens;
    Ok(behind)
}

// All entries, the first of which begins on a line of this number, and the number of the line behind them.
#[tactic(auto, using(crate::proofs::ZoneLemmas::end_rules))]
fn read_entries(
    alloc: Global,
    bytes: &[u8],
    first_line: u32,
    apex: &Name,
    reader: &mut Reader,
) -> Result<u32, ZoneRefusal>
    requires short { length bytes.now ≤ 2 ^ 24 }
    requires early { first_line ≤ 2 ^ 25 }
    requires held { AllHeld apex.now reader.old.owners.owned.entries }
    ensures held { IfOk result (λ _. AllHeld apex.now reader.new.owners.owned.entries) }
    ensures zone { ReadsAll result (reader_view reader.new) (zone_from apex.now first_line (lines_of bytes.now) None (reader_view reader.old)) }
    ensures lines { IfOk result (λ n. n ≡ length (lines_of bytes.now) + first_line) }
{
    let mut lent = Vec::new(alloc);
    let mut at = 0;
    let mut line = first_line;
    while (at as usize) < bytes.len() {
        let (next, next_line) = read_next(alloc, bytes, at, line, apex, reader, &mut lent)?;
        at = next;
        line = next_line;
    }
    Ok(line)
}

/// A zone: its origin, and its names with their entries, in canonical order.
#[derive(Drop)]
pub struct Zone {
    origin: Name,
    owned: BTreeMap<SortKey, Owned>,
}

impl Model for Zone {
    ghost use Rattle.zone_model.specs.MasterFile as says;
    ghost use Rattle.master_file.specs.Owners.{version_of, AllHeld};

    ghost Value = { says.Zone };

    ghost view = { λ z. record { origin = z.origin; pairs = version_of z.owned.entries } };

    ghost invariant = { λ z. AllHeld z.origin z.owned.entries };
}

impl Zone {
    pub fn origin(&self) -> &Name
        ensures { result.now ≡ self.now.origin }
    {
        &self.origin
    }

    /// How many names own records. The names rise.
    pub fn len(&self) -> usize
        ensures len { result ≡ length self.now.pairs }
        ensures ordered { IsStrictlySortedBy name_cmp (keys_of self.now.pairs) }
    {
        self.owned.len()
    }

    /// It has no names. A zone that was read has its origin.
    pub fn is_empty(&self) -> bool
        ensures { IsTrue result ↔ (self.now.pairs ≡ []) }
    {
        self.owned.is_empty()
    }

    /// What its names own, item by item.
    pub fn into_items(self) -> IntoItems
        ensures { result ≡ self.pairs }
    {
        IntoItems::new(self.owned)
    }

    /// The same, and the zone stays.
    pub fn items(&self) -> LentItems<'_>
        ensures { result ≡ self.now.pairs }
    {
        LentItems::new(&self.owned)
    }
}

/// The same as `read_zone` where the first line has another number.
pub fn read_zone_at(
    alloc: Global,
    bytes: &[u8],
    first_line: u32,
    origin: &Name,
) -> Result<Zone, ZoneRefusal>
    requires short { length bytes.now ≤ 2 ^ 24 }
    requires early { first_line ≤ 2 ^ 25 }
    ensures zone { Reads result (λ z. z.pairs) (zone_at first_line origin.now (lines_of bytes.now)) }
    ensures origin { IfOk result (λ z. z.origin ≡ origin.now) }
{
    let mut reader = new_reader(alloc, origin);
    let line = read_entries(alloc, bytes, first_line, origin, &mut reader)?;
    let Reader { mut owners, .. } = reader;
    if !owners.has_soa(alloc, origin)? {
        return Err(refuse(line, ZoneKind::SoaRule));
    }
    let Owners { owned, .. } = owners;
    Ok(Zone {
        origin: *origin,
        owned,
    })
}

/// The zone of an origin that bytes say, from the first line to the last, or the first entry from the top that is
/// refused. Names that don't end with a dot are relative to the origin until a directive sets another.
#[tactic(auto, unfolding(zone_model::specs::MasterFile::zone_of))]
pub fn read_zone(alloc: Global, bytes: &[u8], origin: &Name) -> Result<Zone, ZoneRefusal>
    requires short { length bytes.now ≤ 2 ^ 24 }
    ensures zone { Reads result (λ z. z.pairs) (zone_of origin.now (lines_of bytes.now)) }
    ensures origin { IfOk result (λ z. z.origin ≡ origin.now) }
{
    read_zone_at(alloc, bytes, 1, origin)
}
