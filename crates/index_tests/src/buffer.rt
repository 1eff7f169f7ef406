//! Room for an item that is read.
ghost use Rattle.std.specs.Prelude.{◌≡◌, length};
ghost use Rattle.zone_model.specs.Keys.{most_item_octets};

use std::alloc::Global;

/// Room for any item, made once and lent to each question: it takes longer to clear than most items to read.
#[derive(Drop)]
pub(crate) struct Buffer {
    pub(crate) octets: Vec<u8>,
    ghost room: { length octets.items ≡ most_item_octets },
}

impl Buffer {
    /// With nothing in it. None for want of memory.
    pub(crate) fn new(alloc: Global) -> Option<Buffer> {
        let octets = vec![in alloc; 0; 65_535].ok()?;
        Some(Buffer { octets })
    }
}
