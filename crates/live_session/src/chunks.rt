//! How many chunks a session's index has.
ghost use Rattle.std.specs.Prelude.{◌≡◌, ◌≤◌, IfSome};
ghost use Rattle.live_session.specs.Chunks.{ChunksFor, IsLeastFor};

use qp_multi::room_in;

// Where nothing else is asked for: the least number of chunks, and the most.
const FEWEST: u32 = 64;

const MOST: u32 = 4096;

// The least number of chunks that has room for four times so many cells; the most that there are where none has.
fn least_for(cells: u64) -> u32
    ensures { IsLeastFor cells result }
{
    for chunks in FEWEST..MOST {
        if cells <= room_in(chunks) / 4 {
            return chunks;
        }
    }
    MOST
}

/// The number of chunks that is asked for, or the least that has room for four times a zone's cells.
pub fn chunks_for(asked: Option<u32>, cells: u64) -> u32
    requires { IfSome asked (λ n. (16 ≤ n) × (n ≤ 4096)) }
    ensures chunks { ChunksFor asked cells result }
    ensures limits { (16 ≤ result) × (result ≤ 4096) }
{
    match asked {
        Some(chunks) => chunks,
        None => least_for(cells),
    }
}
