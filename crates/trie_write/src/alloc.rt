//! Cells for what is written.

ghost use Rattle.std.specs.Prelude.{◌≡◌, ◌+◌, ◌-◌, ◌^◌, ◌≤◌, ℕ, IfOk, IfErr, Some, length, slice_get};
ghost use Rattle.trie_write.specs.Prelude.{Cell, Handed, MayWrite, Wrote, CanAsk, CanCopyApart, IsCopiedApart, IsRoom, LacksRoom, TakesCells};

use super::change::Span;
use chunk_cells::CellWrite;
use chunk_usage::{Shortage, Space};
use packed_node::{Cell, Ref};
use trie_space::copy_twigs;

/// Room for n cells side by side, in a chunk that the cells know as given.
pub fn room_for<C: CellWrite, U: Space>(
    cells: &mut C,
    usage: &mut U,
    n: u32,
) -> Result<Ref, Shortage>
    requires { CanAsk C.kept C.given U.account cells.old usage.old n }
    ensures room { IfOk result (λ at. IsRoom C.kept C.given U.account usage.old cells.new usage.new at n) }
    ensures all { (q : ℕ) (c : Cell) → C.has cells.old q c → C.has cells.new q c }
    ensures lacks { IfErr result (λ f. LacksRoom C.has U.account U.lacks cells.old usage.old cells.new usage.new (λ m. m ≡ n) f) }
    ensures takes { TakesCells C.has C.kept C.given U.account cells.old usage.old cells.new usage.new n }
{
    let grant = usage.alloc(n)?;
    if let Some(chunk) = grant.given {
        cells.give(chunk);
        return Ok(grant.at);
    }
    Ok(grant.at)
}

/// Writes cells side by side.
pub fn put_row<C: CellWrite>(cells: &mut C, at: Ref, row: &[Cell])
    requires within { at + length row.now ≤ 2 ^ 22 }
    requires blank { MayWrite C.kept C.given cells.old at (length row.now) }
    ensures written { (i : ℕ) (c : Cell) → slice_get row.now i ≡ Some c → C.has cells.new (at + i) c }
    ensures wrote { Wrote C.has C.kept C.given cells.old cells.new at (length row.now) }
{
    for (i, cell) in row.iter().enumerate() {
        cells.put(at + i as u32, *cell);
    }
}

/// Writes cells side by side into new ones.
pub fn lay_row<C: CellWrite, U: Space>(
    cells: &mut C,
    usage: &mut U,
    row: &[Cell],
) -> Result<Ref, Shortage>
    requires { CanAsk C.kept C.given U.account cells.old usage.old (length row.now) }
    ensures handed { IfOk result (λ at. Handed (U.account usage.old) (U.account usage.new) at (length row.now)) }
    ensures written { IfOk result (λ at. (i : ℕ) (c : Cell) → slice_get row.now i ≡ Some c → C.has cells.new (at + i) c) }
    ensures lacks { IfErr result (λ f. LacksRoom C.has U.account U.lacks cells.old usage.old cells.new usage.new (λ m. m ≡ length row.now) f) }
    ensures takes { TakesCells C.has C.kept C.given U.account cells.old usage.old cells.new usage.new (length row.now) }
{
    let at = room_for(cells, usage, row.len() as u32)?;
    put_row(cells, at, row);
    Ok(at)
}

/// Copies some cells but for a few from a place on, which are left out, and leaves a gap there.
pub fn copy_apart<C: CellWrite, U: Space>(
    cells: &mut C,
    usage: &mut U,
    from: Span,
    index: u32,
    skip: u32,
    gap: u32,
) -> Result<Ref, Shortage>
    requires { CanCopyApart C.has C.kept C.given U.account cells.old usage.old from index skip gap }
    ensures copied { IfOk result (λ to. IsCopiedApart C.has C.kept C.given U.account cells.old usage.old cells.new usage.new from index skip gap to) }
    ensures lacks { IfErr result (λ f. LacksRoom C.has U.account U.lacks cells.old usage.old cells.new usage.new (λ m. m ≡ from.n - skip + gap) f) }
    ensures takes { TakesCells C.has C.kept C.given U.account cells.old usage.old cells.new usage.new (from.n - skip + gap) }
{
    let to = room_for(cells, usage, from.n - skip + gap)?;
    copy_twigs(cells, from.at, to, index);
    let rest = index + skip;
    copy_twigs(cells, from.at + rest, to + index + gap, from.n - rest);
    Ok(to)
}
