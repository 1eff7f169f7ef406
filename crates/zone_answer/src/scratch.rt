//! What a response is made with.

ghost use Rattle.std.specs.Prelude.{◌≤◌, length};
ghost use Rattle.zone_model.specs.Keys.{most_item_octets};

use crate::walker::Walker;
use rr_data::item_buffer;
use std::alloc::{AllocError, Global};

/// Buffers that items are read into, those of an answer and those of addresses, and a walker. One value serves many questions, of any
/// versions: it takes longer to clear than a name to find.
#[derive(Drop)]
pub struct Scratch {
    pub item: Vec<u8>,
    pub other: Vec<u8>,
    pub walker: Walker,
    ghost room: { most_item_octets ≤ length item.items },
    ghost other_room: { most_item_octets ≤ length other.items },
}

impl Scratch {
    /// With nothing in it. `AllocError` is want of memory.
    pub fn new(alloc: Global) -> Result<Scratch, AllocError> {
        let item = item_buffer(alloc)?;
        let other = item_buffer(alloc)?;
        Ok(Scratch {
            item,
            other,
            walker: Walker::new(),
        })
    }
}
