//! What is told of how large the trie of a zone is.
ghost use Rattle.std.specs.Prelude.{◌≤◌, IfOk, Ok};
ghost use Rattle.qp_main.specs.Prelude.{Version, IsSizeOf, trie_entries, Checks, IsAnswerDue};

use crate::refusal_lines::no_room;
use crate::size_lines::size_line;
use crate::status::Status;
use job_report::Pieces;
use qp_multi::room_in;
use std::alloc::{AllocError, Global};
use trie_size::TrieSize;

/// The status and the text for a zone whose trie has this size.
pub fn report_size(
    alloc: Global,
    chunks: u32,
    size: &TrieSize,
) -> Result<(Status, Pieces), AllocError>
    requires some { 1 ≤ chunks }
    ensures { (zone : Version) → IsSizeOf size.now (trie_entries zone) → IfOk result (IsAnswerDue (Checks chunks (Ok zone))) }
{
    let cells = size.cells();
    let limit = room_in(chunks);
    if cells > limit {
        return Ok((Status::DoesNotFit, no_room(alloc, cells, limit)?));
    }
    let line = size_line(alloc, size.names(), size.nodes())?;
    Ok((Status::Done, line))
}
