//! Nodes, packed into cells and read back.

use packed_node::{Branch, Cell, Leaf, Node, bitmap, chunk_of, unpack};

fn cell(big: u64, small: u64) -> Cell {
    Cell { big, small }
}

/// Whether a cell says this node, which is packed into it and read back.
fn says(cell: Cell, node: Node) -> bool {
    match unpack(cell) {
        Some(found) => {
            let packed = found.pack();
            found == node && packed == cell && Node::of(packed) == node
        }
        None => false,
    }
}

/// Whether a branch has twigs at these positions, or none, and so many at smaller ones.
fn has_twigs(branch: Branch, rows: &[(u8, bool, u32)]) -> bool {
    rows.iter().all(|(position, there, index)| {
        *position < 47
            && branch.has_twig(*position) == *there
            && branch.twig_index(*position) == *index
    })
}

#[test]
fn a_branch_is_packed_by_its_layout(rt: HostRuntime) {
    let bitmap = bitmap::with(bitmap::pair(0, 30), 39);
    assert!(rt; bitmap::without(bitmap, 30) == bitmap::pair(39, 0));
    let branch = Branch {
        offset: 8,
        bitmap,
        twigs: 5127,
    };
    assert!(rt; says(cell(0x0010_0201_0000_0005, 5127), Node::Branch(branch)));
    assert!(rt; chunk_of(branch.twigs) == 5);
    assert!(rt; bitmap.count_ones() == 3 && branch.twig_count() == 3);
    let rows = [(0, true, 0), (1, false, 1), (30, true, 1), (39, true, 2)];
    assert!(rt; has_twigs(branch, &rows));
}

fn are_no_nodes(cells: &[(u64, u64)]) -> bool {
    cells
        .iter()
        .all(|(big, small)| unpack(cell(*big, *small)).is_none())
}

// No length, one too long, two tags that mean nothing, one twig, an offset too large, a place past the last.
const NO_NODES: &[(u64, u64)] = &[
    (0, 0),
    (4 * 65_536, 0),
    (2, 0),
    (3, 0),
    (5, 0),
    (504 << 49 | 13, 0),
    (4, 1 << 22),
];

#[test]
fn other_words_are_no_node(rt: HostRuntime) {
    let leaf = Leaf {
        len: 28,
        at: 4_194_303,
    };
    assert!(rt; says(cell(112, 4_194_303), Node::Leaf(leaf)));
    assert!(rt; are_no_nodes(NO_NODES));
}
