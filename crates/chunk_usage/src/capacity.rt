//! How many chunks an index needs, so that a transaction finds room.

ghost use Rattle.std.specs.Prelude.{◌≡◌, ◌↔◌, ◌+◌, ◌*◌, ◌/◌, ◌<◌, ◌^◌, IsTrue};
ghost use Rattle.trie_model.specs.Capacity.{filled_cells, is_roomy, IsLeast};

/// A chunk is left for another only once so many of its cells are filled.
pub const FILLED_CELLS: u64 = 769;

// The fewest and the most chunks of an index.
const FEWEST_CHUNKS: u32 = 16;

const MOST_CHUNKS: u32 = 4096;

/// Half of the chunks that are enough.
fn half_needed(passes: u32, cells: u64, operations: u32) -> u64
    requires { cells < 2 ^ 40 }
    ensures { result ≡ (passes + 2) * (cells / 257 + 9) + 40 * operations + cells / filled_cells + 4 }
{
    let kept = (u64::from(passes) + 2) * (cells / 257 + 9);
    kept + 40 * u64::from(operations) + cells / FILLED_CELLS + 4
}

/// Whether so many chunks are enough for so many passes, cells of a version, and operations of a transaction.
pub fn roomy(passes: u32, cells: u64, operations: u32, chunks: u32) -> bool
    requires { cells < 2 ^ 40 }
    ensures { IsTrue result ↔ is_roomy passes cells operations chunks }
{
    half_needed(passes, cells, operations) <= u64::from(chunks / 2)
}

/// The least number of chunks, of those that an index may have, that is enough; None exactly where none is.
pub fn least(passes: u32, cells: u64, operations: u32) -> Option<u32>
    requires { cells < 2 ^ 40 }
    ensures { IsLeast passes cells operations result }
{
    let half = half_needed(passes, cells, operations);
    if half > u64::from(MOST_CHUNKS / 2) {
        return None;
    }
    let chunks = 2 * half as u32;
    Some(chunks.max(FEWEST_CHUNKS))
}
