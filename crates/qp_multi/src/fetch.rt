//! The working set, read by its transaction.
ghost use Rattle.std.specs.Prelude.{◌≡◌, ◌≤◌, List, length};
ghost use Rattle.qp_multi.specs.Prelude.{most_item_octets, Entry, Fetched, StandsFor};
ghost use Rattle.qp_multi.specs.Clearings.{CanRead, IsSeatedStill};

use crate::meaning::{Law, Meaning, Operations, Version};
use crate::writer::WorkingVersion;
use chunk_usage::Usage;
use packed_node::Ref;
use shared_cells::{JoinedSeat, Lent, Shared};
use shift_key::Key;
use std::marker::Brand;
use trie_read::{CellReading, Reading};

/// Reads the item of a key, in the trie of a root, into the beginning of `out`, and gives its length. The cells' seat is named.
fn fetch_item<L: Law, B: Lent<Version, Operations>>(
    shared: &Shared<Version, Operations, Meaning<L>>,
    seat: JoinedSeat<Version, Operations>,
    _usage: &Usage,
    root: Option<Ref>,
    key: &Key,
    out: &mut [u8],
) -> (JoinedSeat<Version, Operations>, Option<usize>)
    requires reads { CanRead shared.now.table.shared.table_id seat _usage.now root }
    requires lent { (seat.place.table_id ≡ B.table) × (seat.place.me.0 ≡ B.view) }
    requires room { most_item_octets ≤ length out.old }
    ensures same { IsSeatedStill seat result.0 }
    ensures item { (es : List Entry) → StandsFor seat.place.me.0 _usage.now root es → Fetched key.now es out.old out.new result.1 }
{
    let number = seat.version;
    let cells = seat.lend::<Meaning<L>, B>(shared);
    let mut reading = CellReading {
        cells,
        root,
        number,
    };
    let found = reading.fetch(key, out);
    let CellReading { cells, .. } = reading;
    (cells.into_joined(), found)
}

impl WorkingVersion {
    ghost use Rattle.qp_multi.specs.Attempts.{IsWorkingOf};
    ghost use Rattle.qp_multi.specs.WorkingVersions.{IsSame, working_set};

    /// Reads the item of a key of the working set into the beginning of `out`, and gives its length; `None` where the key is not
    /// there.
    pub(crate) fn fetch<L: Law>(
        self,
        shared: &Shared<Version, Operations, Meaning<L>>,
        key: &Key,
        out: &mut [u8],
    ) -> (WorkingVersion, Option<usize>)
        requires working { IsWorkingOf shared.now.table.shared.table_id self }
        requires room { most_item_octets ≤ length out.old }
        ensures table { result.0.seat.place.table_id ≡ self.seat.place.table_id }
        ensures same { IsSame self result.0 }
        ensures item { Fetched key.now (working_set self) out.old out.new result.1 }
    {
        let WorkingVersion {
            seat,
            usage,
            base,
            root,
            log,
        } = self;
        let (seat, found) = fetch_item::<L, Brand>(shared, seat, &usage, root, key, out);
        let working = WorkingVersion {
            seat,
            usage,
            base,
            root,
            log,
        };
        (working, found)
    }
}
