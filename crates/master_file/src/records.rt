//! What the records of a file take from those before them.
ghost use Rattle.std.specs.Prelude.{◌≡◌, ◌<◌, ◌+◌, ◌-◌, ◌==◌, if◌then◌else◌, ℕ, List, map, Some, Option, slice_index};
ghost use Rattle.master_file.specs.Prelude.{minimum_of, time_for, line_of, soa_type, token_view, reader_view};

use crate::owners::Owners;
use dns_name::Name;
use rr_data::{Rdata, SOA};
use zone_text::Token;

/// What the entries so far leave.
#[derive(Drop)]
pub struct Reader {
    pub origin: Name,
    pub set_time: Option<u32>,
    pub last_time: Option<u32>,
    pub minimum: Option<u32>,
    pub owner: Option<Name>,
    /// The data of the last record; its memory serves the next one.
    pub rdata: Rdata,
    /// The records so far.
    pub owners: Owners,
}

fn octet_at(octets: &[u8], at: usize) -> u32
    ensures value { result ≡ slice_index octets.now at }
    ensures small { result < 256 }
{
    if at < octets.len() {
        u32::from(octets[at])
    } else {
        0
    }
}

// The last number of data.
fn minimum_of(octets: &[u8]) -> u32
    ensures { result ≡ minimum_of octets.now }
{
    let at = octets.len().saturating_sub(4);
    let high = octet_at(octets, at) * 256 + octet_at(octets, at + 1);
    (high * 256 + octet_at(octets, at + 2)) * 256 + octet_at(octets, at + 3)
}

/// The minimum in force behind a record: its own where it is the SOA.
pub fn minimum_behind(rtype: u16, octets: &[u8], reader: &Reader) -> Option<u32>
    ensures { result ≡ (if rtype == soa_type then Some (minimum_of octets.now) else reader.now.minimum) }
{
    if rtype == SOA {
        Some(minimum_of(octets))
    } else {
        reader.minimum
    }
}

/// The time of a record: written, set by a directive, last written, or an SOA's minimum.
pub fn time_for(written: Option<u32>, rtype: u16, octets: &[u8], reader: &Reader) -> Option<u32>
    ensures { result ≡ time_for written rtype octets.now (reader_view reader.now) }
{
    if written.is_some() {
        return written;
    }
    if reader.set_time.is_some() {
        return reader.set_time;
    }
    if reader.last_time.is_some() {
        return reader.last_time;
    }
    minimum_behind(rtype, octets, reader)
}

/// The line of the token at an index, or the last line where there is none.
#[tactic(auto, using(crate::proofs::RecordLemmas::line_rules))]
pub fn line_of(last: u32, tokens: &[Token], at: usize) -> u32
    ensures { (bytes : List ℕ) → result ≡ line_of last at (map (token_view bytes) tokens.now) }
{
    if at < tokens.len() {
        tokens[at].line
    } else {
        last
    }
}
