//! The line of how large a zone is, or of what a job needs.
ghost use Rattle.std.specs.Prelude.{◌≡◌, ◌++◌, OnOk, IfOk, codes};
ghost use Rattle.qp_main.specs.Prelude.{size_text, pieces_text, chunks_text, needs_text};

use job_report::{Pieces, push_pair, push_size};
use std::alloc::{AllocError, Global};
use zone_text::push_decimal;

/// The line of a zone that was checked: how many names and nodes version 0 has.
pub fn size_line(alloc: Global, names: u64, nodes: u64) -> Result<Pieces, AllocError>
    ensures { IfOk result (λ text. pieces_text text ≡ codes "v0 " ++ size_text names nodes) }
{
    let mut out = Vec::new(alloc);
    out.extend_from_slice(b"v0 ")?;
    push_size(&mut out, names, nodes)?;
    Ok(Pieces::of(alloc, out))
}

// How many chunks are enough.
fn push_chunks(out: &mut Vec<u8>, chunks: Option<u32>) -> Result<(), AllocError>
    ensures { OnOk result (out.new.items ≡ out.old.items ++ chunks_text chunks) }
{
    match chunks {
        Some(chunks) => push_decimal(out, u64::from(chunks)),
        None => out.extend_from_slice(b"none"),
    }
}

/// The line of what a job needs: chunks, or none where no number is enough; cells; operations of a transaction.
pub fn needs_line(
    alloc: Global,
    chunks: Option<u32>,
    cells: u64,
    operations: u32,
) -> Result<Pieces, AllocError>
    ensures { IfOk result (λ text. pieces_text text ≡ needs_text chunks cells operations) }
{
    let mut out = Vec::new(alloc);
    out.extend_from_slice(b"chunks ")?;
    push_chunks(&mut out, chunks)?;
    push_pair(
        &mut out,
        b" cells ",
        cells,
        b" operations ",
        u64::from(operations),
    )?;
    Ok(Pieces::of(alloc, out))
}
