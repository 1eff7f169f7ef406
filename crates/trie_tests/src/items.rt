//! An item of 28 octets, written and read.

ghost use Rattle.std.specs.Prelude.{◌≡◌, false, length, replicate};

use crate::made::lone;
use chunk_cells::{
    CellRead, CellWrite, Extents, PlainCells, cells_for, read_front, read_item, write_item,
};
use packed_node::{Cell, Leaf};
use std::test::Fail;

// The name ns.example. with one address record of 300 seconds, 192.0.2.1.
const ITEM: [u8; 28] = [
    2, b'n', b's', 7, b'e', b'x', b'a', b'm', b'p', b'l', b'e', 0, 0, 1, 0, 1, 0, 0, 1, 44, 0, 1,
    0, 4, 192, 0, 2, 1,
];

// The cells of the item.
const FIRST: Cell = Cell {
    big: 0x6d61_7865_0773_6e02,
    small: 0x0100_0100_0065_6c70,
};

const SECOND: Cell = Cell {
    big: 0x0400_0100_2c01_0000,
    small: 0x0102_00c0,
};

// The item lies in cells 1030 and 1031, and there is a cell behind them. Whether they are as they should be, and the item is read back.
fn is_written_and_read(cells: &mut PlainCells, after: Cell) -> bool
    requires { ⟦<PlainCells as CellWrite>⟧.given cells.old ≡ replicate 2 false }
{
    cells.give(1);
    cells.put(1032, after);
    let leaf = Leaf { len: 28, at: 1030 };
    write_item(cells, &lone(leaf), &ITEM);
    let mut out = [9; 4096];
    let len = read_item(cells, leaf, &mut out);
    let mut front = [9; 256];
    let front_len = read_front(cells, leaf, &mut front);
    let first = cells.cell(1030);
    let second = cells.cell(1031);
    let third = cells.cell(1032);
    // The last octet of its last cell is there, and none behind it.
    len == 28
        && front_len == 28
        && out.starts_with(&ITEM)
        && front.starts_with(&ITEM)
        && out[31] == 0
        && out[32] == 9
        && first == FIRST
        && second == SECOND
        && third == after
}

#[test]
fn an_item_is_written_and_read(rt: HostRuntime) -> Result<(), Fail> {
    assert!(rt; cells_for(28) == 2);
    let mut cells = PlainCells::new(rt.alloc(), 2)?;
    assert!(rt; is_written_and_read(&mut cells, Cell { big: 7, small: 8 }));
    Ok(())
}

// An item of 4,097 octets that begins in cell 1030: its 256th cell says where the other two begin.
fn is_linked(cells: &mut PlainCells, item: &[u8]) -> bool
    requires given { ⟦<PlainCells as CellWrite>⟧.given cells.old ≡ replicate 3 false }
    requires size { length item.now ≡ 4097 }
{
    cells.give(1);
    cells.give(2);
    let at = [1030, 2048, 0, 0, 0, 0, 0, 0, 0, 0, 0, 0, 0, 0, 0, 0, 0];
    write_item(cells, &Extents { len: 4097, at }, item);
    let link = cells.cell(1285);
    let last = cells.cell(2049);
    let due = Cell {
        big: 0,
        small: 2048,
    };
    link == due && last == Cell { big: 7, small: 0 }
}

#[test]
fn a_long_item_is_linked(rt: HostRuntime) -> Result<(), Fail> {
    let item = vec![in rt.alloc(); 7; 4097]?;
    let mut cells = PlainCells::new(rt.alloc(), 3)?;
    assert!(rt; is_linked(&mut cells, &item));
    Ok(())
}

#[test]
fn a_chunk_is_given_again(rt: HostRuntime) -> Result<(), Fail> {
    let mut cells = PlainCells::new(rt.alloc(), 2)?;
    cells.give(1);
    cells.free(1);
    cells.give(1);
    Ok(())
}
