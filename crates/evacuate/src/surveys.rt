//! What makes lists: walks over a trie, or over the span of a chunk in it, that tell on which paths chunks have cells.

ghost use Rattle.std.specs.Prelude.{◌≡◌, ◌≤◌, ℕ, List};
ghost use Rattle.evacuate.specs.Prelude.{HasItem, Tree, IsTop, IsStood};

use super::finding::position_from;
use super::sparse::extent_behind;
use chunk_cells::CellRead;
use chunk_usage::{Gap, Path, Span, Usage};
use packed_node::{Cell, Node, Ref, chunk_of};

// At most so many spans are walked over before lists are gone through.
const MOST_SPANS: u32 = 32;

/// Lists a path for the chunks of an item's extents. The item begins here, and has so many octets.
fn pass_item<C: CellRead>(cells: &mut C, usage: &mut Usage, at: Ref, len: u16, path: Path)
    requires there { (item : List ℕ) × HasItem (C.has cells.old) at len item }
    ensures cells { cells.new ≡ cells.old }
    ensures usage { usage.new ≡ usage.old }
{
    usage.pass(chunk_of(at), path);
    if let Some(next) = extent_behind(cells, at, len) {
        pass_item(cells, usage, next.at, next.len, path);
    }
}

/// Lists the paths below a node that lie in a span, and gives that of the first leaf: it leads past all twigs above, and doesn't fork there.
/// The node lies on a path that began with so many steps. Offsets are at least `low`.
fn survey_below<C: CellRead>(
    cells: &mut C,
    usage: &mut Usage,
    node: Cell,
    low: u16,
    path: Path,
    steps: u32,
    within: Option<Span>,
) -> Option<Path>
    requires top { (t : Tree) × IsTop (C.has cells.old) low node t }
    requires low { low ≤ 504 }
    ensures cells { cells.new ≡ cells.old }
    ensures usage { usage.new ≡ usage.old }
{
    let span = within?;
    match Node::of(node) {
        Node::Leaf(leaf) => {
            pass_item(cells, usage, leaf.at, leaf.len, path);
            Some(path)
        }
        Node::Branch(branch) => {
            let mut first = None;
            let mut position = position_from(branch, 0);
            for i in 0..branch.twig_count() {
                let twig = cells.cell(branch.twigs + i);
                let on = path.then(steps, position);
                let low = branch.offset + 1;
                let within = span.behind(position);
                let leaf = survey_below(
                    cells,
                    usage,
                    twig,
                    low,
                    on,
                    steps.saturating_add(1),
                    within,
                );
                first = first.or(leaf);
                position = position_from(branch, position.saturating_add(1));
            }
            if let Some(first) = first {
                usage.pass(chunk_of(branch.twigs), first);
            }
            first
        }
    }
}

/// Lists for chunks whose lists lack something, and for all sparse ones, on which paths the trie of a root has cells in them.
pub fn survey<C: CellRead>(cells: &mut C, usage: &mut Usage, root: Ref)
    requires stood { IsStood C.has cells.old usage.old root }
    ensures cells { cells.new ≡ cells.old }
    ensures usage { usage.new ≡ usage.old }
{
    usage.begin_walk();
    let top = cells.cell(root);
    let _first = survey_below(cells, usage, top, 0, Path::none(), 0, Some(Span::all()));
    usage.end_walk();
}

/// Lists for a chunk on which paths of its span the trie of a root has cells in it.
pub fn survey_gap<C: CellRead>(cells: &mut C, usage: &mut Usage, root: Ref, gap: Gap)
    requires stood { IsStood C.has cells.old usage.old root }
    ensures cells { cells.new ≡ cells.old }
    ensures usage { usage.new ≡ usage.old }
{
    usage.begin_walk_of(gap.chunk);
    let top = cells.cell(root);
    let _first = survey_below(cells, usage, top, 0, Path::none(), 0, Some(gap.span));
    usage.end_walk();
}

/// Whether the list of some sparse chunk lacks something, once that was looked for in all spans that are known.
pub fn is_still_lacking<C: CellRead>(cells: &mut C, usage: &mut Usage, root: Ref) -> bool
    requires stood { IsStood C.has cells.old usage.old root }
    ensures cells { cells.new ≡ cells.old }
    ensures usage { usage.new ≡ usage.old }
{
    if !usage.is_any_lacking() {
        return false;
    }
    survey_gaps(cells, usage, root);
    usage.is_any_lacking()
}

/// The same as `survey_gap` for all sparse chunks whose lists lack something, where their spans are known.
fn survey_gaps<C: CellRead>(cells: &mut C, usage: &mut Usage, root: Ref)
    requires stood { IsStood C.has cells.old usage.old root }
    ensures cells { cells.new ≡ cells.old }
    ensures usage { usage.new ≡ usage.old }
{
    for turn in 0..MOST_SPANS {
        let Some(gap) = usage.gap() else { return };
        survey_gap(cells, usage, root, gap);
    }
}
