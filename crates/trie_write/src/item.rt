//! Items: what a trie holds for a name.

ghost use Rattle.std.specs.Prelude.{◌≡◌, ◌<◌, ◌≤◌, ◌^◌, ℕ, List, length, slice_index, true};
ghost use Rattle.zone_model.specs.Keys.{most_item_octets};
ghost use Rattle.trie_write.specs.Named.{begins_with_name};

use dns_name::Name;
use packed_node::ITEM_LIMIT;
use shift_key::Key;
use std::alloc::{AllocError, Global};
use thiserror::Error;

/// The octets of a name and what belongs to it: 1 to 65,535 octets that begin with the name's wire form.
#[derive(Drop)]
pub struct Item {
    octets: Vec<u8>,
    ghost short: { length octets.items ≤ most_item_octets },
    ghost named: { begins_with_name octets.items ≡ true },
    ghost small: { (i : ℕ) → slice_index octets.items i < 2 ^ 8 },
}

/// Why there is no such item.
#[derive(Clone, Copy, PartialEq, Eq, Debug, Error)]
pub enum ItemRefusal {
    /// It would have so many octets, over 65,535.
    #[error("an item of {bytes} octets, where 65535 are the most")]
    Long { bytes: u64 },
    /// Want of memory.
    #[error("out of memory")]
    Memory,
}

impl From<AllocError> for ItemRefusal {
    ghost use Rattle.trie_write.specs.declared.item.ItemRefusal.TheVariants.{Memory};

    ghost from_gives = { λ _ refusal. refusal ≡ Memory };

    fn from(_: AllocError) -> ItemRefusal {
        ItemRefusal::Memory
    }
}

impl Item {
    ghost use Rattle.std.specs.Prelude.{◌++◌, ◌↔◌, IfOk, Err};
    ghost use Rattle.zone_model.specs.Names.{wire};
    ghost use Rattle.zone_model.specs.Keys.{key_of, Leads};
    ghost use Rattle.trie_model.specs.Keys.{IsEntry};
    ghost use Rattle.trie_write.specs.Entries.{entry_of};

    /// The item of a name: its wire form, and behind it the payload.
    pub fn of(alloc: Global, name: &Name, payload: &[u8]) -> Result<Item, ItemRefusal>
        ensures item { IfOk result (λ item. entry_of item ≡ record { key = key_of name.now; item = wire name.now ++ payload.now }) }
        ensures long { (bytes : ℕ) → (result ≡ Err (ItemRefusal.Long bytes)) ↔ ((bytes ≡ length (wire name.now ++ payload.now)) × (most_item_octets < bytes)) }
    {
        let owner = name.wire();
        let bytes = owner.len() + payload.len();
        if bytes > ITEM_LIMIT as usize {
            return Err(ItemRefusal::Long {
                bytes: bytes as u64,
            });
        }
        let mut octets = Vec::with_capacity(alloc, bytes)?;
        octets.extend_from_slice(owner)?;
        octets.extend_from_slice(payload)?;
        Ok(Item { octets })
    }

    /// The key of its name.
    pub fn key(&self) -> Key
        ensures { result ≡ (entry_of self.now).key }
    {
        Key::of(&Name::from_wire(&self.octets).unwrap())
    }

    /// The octets, the name's first.
    pub fn octets(&self) -> &[u8]
        ensures octets { result.now ≡ (entry_of self.now).item }
        ensures entry { IsEntry (entry_of self.now) }
        ensures leads { Leads (entry_of self.now).key (entry_of self.now).item }
    {
        &self.octets
    }
}
