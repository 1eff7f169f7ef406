//! How many cells a trie has, and whether it has more than so many.

ghost use Rattle.std.specs.Prelude.{◌≡◌, ◌+◌, ◌<◌, ◌≤◌, ◌^◌, ◌-◌, ℕ, suc, List, length, min, Some, None, IfSome};
ghost use Rattle.trie_write.specs.Prelude.{Entry, Rises, cells_of, Tree, entries_of, entries_of_items, Front};

use super::Item;
use super::branch_points::{BranchPoint, from_offset, point_ahead};
use chunk_cells::cells_for;

/// The trie of the first of some items.
#[derive(Clone, Copy)]
struct Counted<'a> {
    /// How many cells it has.
    cells: u64,
    /// The items that are left.
    rest: &'a [Item],
    /// Where the first of these parts from the last of the trie.
    next: Option<BranchPoint>,
}

/// How many cells the trie of these items has: one for each node, and those of the items. Where 64 bits don't hold the
/// number, the greatest that they hold.
pub fn cells(items: &[Item]) -> u64
    requires { Rises (entries_of_items items.now) }
    ensures { result ≡ min (cells_of (entries_of_items items.now)) u64.MAX }
{
    if items.is_empty() {
        return 0;
    }
    count_front(items, 0).cells
}

/// How many cells the trie of these items has, where that is more than so many. Nothing is counted where there is room for a leaf and
/// a branch for each item, since a trie of n names has at most n - 1 branches.
pub fn cells_beyond(items: &[Item], limit: u64) -> Option<u64>
    requires rising { Rises (entries_of_items items.now) }
    requires limit { limit < u64.MAX }
    ensures beyond { IfSome result (λ n. (n ≡ min (cells_of (entries_of_items items.now)) u64.MAX) × (limit < n)) }
    ensures within { result ≡ None → cells_of (entries_of_items items.now) ≤ limit }
{
    if most_cells(items) <= limit {
        return None;
    }
    let needed = cells(items);
    if needed <= limit {
        return None;
    }
    Some(needed)
}

/// A number that the cells of these items' trie don't exceed, or the greatest of 64 bits.
fn most_cells(items: &[Item]) -> u64
    requires { Rises (entries_of_items items.now) }
    ensures { min (cells_of (entries_of_items items.now)) u64.MAX ≤ result }
{
    let mut most = 0u64;
    let mut rest = items;
    while let Some((item, others)) = rest.split_first() {
        most = most.saturating_add(2 + cells_for(item.octets().len() as u16) as u64);
        rest = others;
    }
    most
}

/// The trie of the first items, as many as agree before `low`.
#[cycle(count)]
fn count_front<'a>(items: &'a [Item], low: u16) -> Counted<'a>
    requires some { 0 < length items.now }
    requires rising { Rises (entries_of_items items.now) }
    requires low { low ≤ 504 }
    ensures counted { (t : Tree)
        × Front low (entries_of_items items.now) (entries_of_items result.rest.now) result.next t × (result.cells ≡ min (cells_of (entries_of t)) u64.MAX) }
    ensures shorter { length result.rest.now < length items.now }
{
    let (item, rest) = items.split_first().unwrap();
    let mut front = Counted {
        cells: 1 + cells_for(item.octets().len() as u16) as u64,
        rest,
        next: point_ahead(item, rest),
    };
    while let Some(above) = from_offset(front.next, low) {
        front = count_branch(front, above);
    }
    front
}

/// The trie with a branch above it, whose first twig it is.
#[cycle(count)]
fn count_branch<'a>(first: Counted<'a>, point: BranchPoint) -> Counted<'a>
    requires first { (es : List Entry) × (t : Tree) × Front (suc point.offset) es (entries_of_items first.rest.now) (Some point) t
        × (first.cells ≡ min (cells_of (entries_of t)) u64.MAX) }
    requires point { first.next ≡ Some point }
    ensures counted { (es : List Entry) (t : Tree) → Front (suc point.offset) es (entries_of_items first.entry.rest.now) (Some point) t
        → first.entry.cells ≡ min (cells_of (entries_of t)) u64.MAX
        → (new : Tree) × Front point.offset es (entries_of_items result.rest.now) result.next new × (result.cells ≡ min (cells_of (entries_of new)) u64.MAX) }
    ensures shorter { length result.rest.now < length first.entry.rest.now }
{
    let mut cells = first.cells.saturating_add(1);
    let mut rest = first.rest;
    let mut next = first.next;
    while let Some(_beside) = from_offset(next, point.offset) {
        let twig = count_front(rest, point.offset + 1);
        cells = cells.saturating_add(twig.cells);
        rest = twig.rest;
        next = twig.next;
    }
    Counted { cells, rest, next }
}
