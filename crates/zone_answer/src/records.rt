//! What a name owns.

ghost use Rattle.std.specs.Prelude.{◌≡◌, ◌≤◌, IfOk, List, ℕ, length};
ghost use Rattle.zone_answer.specs.Prelude.{CanFetch, Records, Version, SaysEntry, IsHeld, IsRead, Shows};

use dns_name::Name;
use rr_data::{DecodeRefusal, Entry, ItemView};
use shift_key::Key;
use std::alloc::{AllocError, Global};
use trie_read::Reading;

/// A name whose item was read into a buffer.
#[derive(Drop)]
pub struct Held {
    pub name: Name,
    /// How many octets the item has; 0 where the name owns nothing.
    pub len: usize,
}

impl Held {
    /// What it owns.
    pub fn view<'a>(&self, item: &'a [u8]) -> ItemView<'a>
        requires { (entry : Records) × IsHeld item.now self.now entry }
        ensures { (entry : Records) → IsHeld item.now self.now entry → result ≡ entry }
    {
        ItemView::of(&self.name, &item[..self.len])
    }
}

/// What octets say that a name owns; nothing where there are none.
pub fn entry_of(alloc: Global, name: &Name, octets: &[u8]) -> Result<Entry, AllocError>
    requires { (entry : Records) × SaysEntry name.now octets.now entry }
    ensures { (entry : Records) → SaysEntry name.now octets.now entry → IfOk result (λ e. e ≡ entry) }
{
    let _wire = name.wire(); // for the proof
    if octets.is_empty() {
        return Ok(Entry::empty(alloc));
    }
    match Entry::decode(alloc, octets) {
        Ok(entry) => Ok(entry),
        Err(DecodeRefusal::Memory) => Err(AllocError),
        // What a version has was encoded.
        Err(DecodeRefusal::Malformed) => unreachable!(),
    }
}

/// Reads the item of what a name owns into the beginning of a buffer, by the name's key, and gives its length; 0 where the name owns
/// nothing.
pub fn read_owned<V: Reading>(version: &mut V, name: &Name, key: &Key, item: &mut [u8]) -> usize
    requires { CanFetch (V.holds version.old) name.now key.now item.old }
    ensures same { version.new ≡ version.old }
    ensures within { result ≤ length item.new }
    ensures read { (zone : Version) → Shows (V.holds version.old) zone → IsRead name.now zone item.new result }
{
    let _wire = name.wire(); // for the proof
    match version.fetch(key, item) {
        Some(len) => len,
        None => 0,
    }
}
