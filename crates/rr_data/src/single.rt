//! The items of single records.
ghost use Rattle.std.specs.Prelude.{◌<◌, ◌≤◌, ◌∷◌, [], length, IfOk, MatchOption};
ghost use Rattle.rr_data.specs.Prelude.{fresh, item, item_limit, IsItem};

use crate::entry::ITEM_LIMIT;
use crate::numbers::{number_octets, short_octets};
use dns_name::Name;
use std::alloc::{AllocError, Global};

/// The item of a name that owns one record, in one piece of memory of its length; None where it would have over 65,535
/// octets.
pub fn single_item(
    alloc: Global,
    owner: &Name,
    rtype: u16,
    ttl: u32,
    octets: &[u8],
) -> Result<Option<Vec<u8>>, AllocError>
    requires { length octets.now ≤ 65535 }
    ensures { IfOk result (λ o. MatchOption o (item_limit < length (item owner.now (fresh rtype ttl octets.now ∷ [])))
        (λ v. IsItem v.items owner.now (fresh rtype ttl octets.now ∷ []))) }
{
    let wire = owner.wire();
    let len = wire.len() + 12 + octets.len();
    if len > ITEM_LIMIT {
        return Ok(None);
    }
    let mut item = Vec::with_capacity(alloc, len)?;
    item.extend_from_slice(wire)?;
    item.extend_from_slice(&short_octets(1))?;
    item.extend_from_slice(&short_octets(rtype))?;
    item.extend_from_slice(&number_octets(ttl))?;
    item.extend_from_slice(&short_octets(1))?;
    item.extend_from_slice(&short_octets(octets.len() as u16))?;
    item.extend_from_slice(octets)?;
    Ok(Some(item))
}
