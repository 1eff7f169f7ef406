//! The items that version 0 of a zone is opened with.
ghost use Rattle.std.specs.Prelude.{IfOk};
ghost use Rattle.qp_main.specs.Prelude.{AreItemsOf};

use index_items::zone_items as items_of;
use master_file::Zone;
use std::alloc::{AllocError, Global};
use trie_write::Item;

/// The items of a zone's names, in order.
pub fn zone_items(alloc: Global, zone: Zone) -> Result<Vec<Item>, AllocError>
    ensures { IfOk result (λ items. AreItemsOf items.items zone.pairs) }
{
    items_of(alloc, zone)
}
