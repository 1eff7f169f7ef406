//! Where the RRset of a type stands among the RRsets of an entry.
ghost use Rattle.std.specs.Prelude.{◌<◌, ◌≤◌, length, None, MatchResult};
ghost use Rattle.rr_data.specs.Prelude.{RisingSets, AreLower, StandsAt, MissingAt};

use crate::rrset::RrSet;
use std::cmp::Ordering;

// An index before which all RRsets have lower types, and behind which none has.
fn start_of(sets: &[RrSet], rtype: u16) -> usize
    requires { RisingSets None sets.now }
    ensures within { result ≤ length sets.now }
    ensures lower { AreLower rtype sets.now result }
{
    let mut at = 0;
    let mut end = sets.len();
    while at < end {
        let middle = at + (end - at) / 2;
        if sets[middle].rtype() < rtype {
            at = middle + 1;
        } else {
            end = middle;
        }
    }
    at
}

// The index of the RRset of a type, or else where it would stand. The walk to it begins right there.
pub fn place_of(sets: &[RrSet], rtype: u16) -> Result<usize, usize>
    requires { RisingSets None sets.now }
    ensures { MatchResult result (StandsAt rtype sets.now) (MissingAt rtype sets.now) }
{
    let mut at = start_of(sets, rtype);
    while at < sets.len() {
        match rtype.cmp(&sets[at].rtype()) {
            Ordering::Less => return Err(at),
            Ordering::Equal => return Ok(at),
            Ordering::Greater => at += 1,
        }
    }
    Err(sets.len())
}
