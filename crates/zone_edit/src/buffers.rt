//! Where items lie while operations are applied.

ghost use Rattle.std.specs.Prelude.{◌≡◌, length};
ghost use Rattle.zone_model.specs.Records.{item_limit};

use rr_data::item_buffer;
use std::alloc::{AllocError, Global};

/// The items of a name before an operation and after it. One value serves many transactions: it takes longer to clear than an item to
/// write.
#[derive(Drop)]
pub struct ItemBuffers {
    pub before: Vec<u8>,
    pub after: Vec<u8>,
    ghost room_before: { length before.items ≡ item_limit },
    ghost room_after: { length after.items ≡ item_limit },
}

impl ItemBuffers {
    /// With nothing in them. `AllocError` is want of memory.
    pub fn new(alloc: Global) -> Result<ItemBuffers, AllocError> {
        let before = item_buffer(alloc)?;
        let after = item_buffer(alloc)?;
        Ok(ItemBuffers { before, after })
    }
}
