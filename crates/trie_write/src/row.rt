//! The twigs of one branch, as they are made.

ghost use Rattle.std.specs.Prelude.{◌≡◌, ◌<◌, ◌≤◌, ◌++◌, ◌∷◌, [], length};

use packed_node::Cell;
use std::marker::Model;

/// Up to 47 cells, in order.
#[derive(Drop)]
pub struct Row {
    cells: [Cell; 47],
    len: usize,
}

impl Model for Row {
    ghost use Rattle.std.specs.Prelude.{List, take, ◌≤◌};
    ghost use Rattle.packed_node.specs.declared.Cell.{Cell};

    ghost Value = { List Cell };

    ghost view = { λ r. take r.len r.cells };

    ghost invariant = { λ r. r.len ≤ 47 };
}

impl Row {
    pub fn new() -> Row
        ensures { result ≡ [] }
    {
        Row {
            cells: [Cell { big: 0, small: 0 }; 47],
            len: 0,
        }
    }

    pub fn push(&mut self, cell: Cell)
        requires { length self.old < 47 }
        ensures { self.new ≡ self.old ++ cell ∷ [] }
    {
        self.cells[self.len] = cell;
        self.len += 1;
    }

    pub fn as_slice(&self) -> &[Cell]
        ensures cells { result.now ≡ self.now }
        ensures few { length self.now ≤ 47 }
    {
        &self.cells[..self.len]
    }
}
