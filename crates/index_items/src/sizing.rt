//! How large the trie of a zone is. It is counted, and not made.
ghost use Rattle.std.specs.Prelude.{◌<◌, ◌≤◌, ◌^◌, IfOk, length};
ghost use Rattle.zone_model.specs.Records.{item_limit};
ghost use Rattle.job_model.specs.Sizes.{trie_entries};
ghost use Rattle.trie_model.specs.Keys.{Rises};
ghost use Rattle.trie_size.specs.Sizes.{IsSizeOf};

use master_file::{LentItems, Zone};
use rr_data::item_buffer;
use std::alloc::{AllocError, Global};
use trie_size::TrieSize;

/// More names than memory holds.
pub const MANY_NAMES: usize = 1 << 40;

// The size of the trie of all items. Each is laid down in the buffer that is lent.
fn count_items(mut left: LentItems<'_>, octets: &mut [u8]) -> TrieSize
    requires room { item_limit ≤ length octets.old }
    requires few { length left < 2 ^ 40 }
    requires rising { Rises (trie_entries left) }
    ensures { IsSizeOf result (trie_entries left.entry) }
{
    let mut size = TrieSize::new();
    while let Some(len) = left.next(octets) {
        size.add(&octets[..len]);
    }
    size
}

/// The size of the trie of a zone's names.
pub fn zone_size(alloc: Global, zone: &Zone) -> Result<TrieSize, AllocError>
    requires { Rises (trie_entries zone.now.pairs) }
    ensures { IfOk result (λ size. IsSizeOf size (trie_entries zone.now.pairs)) }
{
    if zone.len() >= MANY_NAMES {
        return Err(AllocError);
    }
    let mut octets = item_buffer(alloc)?;
    Ok(count_items(zone.items(), &mut octets))
}
