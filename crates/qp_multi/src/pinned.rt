//! The item of a key, in the version that a seat has pinned.
ghost use Rattle.std.specs.Prelude.{◌≡◌, ◌≤◌, List, length};
ghost use Rattle.qp_multi.specs.Prelude.{most_item_octets, Entry, Fetched, IsHeld, pinned_image, Holds};

use crate::meaning::{Law, Meaning, Operations, Version};
use chunk_cells::read_item;
use shared_cells::{PinnedCells, PinnedSeat, Shared};
use shift_key::Key;

/// Reads the item of a key into the beginning of `out`, and gives its length; `None` where the key is not there. The table is looked up once, and
/// not for each cell.
pub(crate) fn fetch_pinned<L: Law>(
    shared: &Shared<Version, Operations, Meaning<L>>,
    seat: &mut PinnedSeat<Version, Operations>,
    key: &Key,
    out: &mut [u8],
) -> Option<usize>
    requires table { seat.old.place.table_id ≡ shared.now.table.shared.table_id }
    requires held { IsHeld (Holds (pinned_image seat.old.place.me.0.progress) seat.old.root) }
    requires room { most_item_octets ≤ length out.old }
    ensures same { seat.new ≡ seat.old }
    ensures item { (es : List Entry) → Holds (pinned_image seat.old.place.me.0.progress) seat.old.root es → Fetched key.now es out.old out.new result }
{
    let root = seat.root;
    let mut cells = PinnedCells::new(shared, seat);
    match trie_read::get(&mut cells, root, key) {
        None => None,
        Some(leaf) => Some(read_item(&mut cells, leaf, out)),
    }
}
