// Records cleared, reset, and written one at a time.
ghost use Rattle.std.specs.Prelude.{◌≡◌, ◌<◌, ◌≤◌, length, slice_set};
ghost use Rattle.tile.specs.Shapes.{cells};
ghost use Rattle.tile.specs.Tiles.{cell};
ghost use Rattle.passes.specs.Writing.{with_reading, with_ties, weights, fresh, reset, rewritten};

use tile::{Cell, Shape};

// A record with the bracket 0..top, and all else 0.
fn fresh(top: u16) -> Cell
    ensures { result ≡ fresh top }
{
    Cell {
        high: top,
        ..Cell::default()
    }
}

// The same reading, class and ties; all else as in a fresh record.
fn reset_cell(cell: Cell, top: u16) -> Cell
    ensures { result ≡ reset top cell }
{
    Cell {
        reading: cell.reading,
        class: cell.class,
        right: cell.right,
        down: cell.down,
        ..fresh(top)
    }
}

fn with_reading(cell: Cell, reading: u16, class: u8) -> Cell
    ensures { result ≡ with_reading reading class cell }
{
    Cell {
        reading,
        class,
        ..cell
    }
}

fn with_ties(cell: Cell, right: u16, down: u16) -> Cell
    ensures { result ≡ with_ties (weights right down) cell }
{
    Cell {
        right,
        down,
        ..cell
    }
}

// Makes every record fresh. That there is a record for each cell is asked of the slice: a struct over a `&mut` would have to say
// in each contract that it still holds the same one.
pub fn clear(shape: Shape, tile: &mut [Cell])
    requires { cells shape ≤ length tile.old }
    ensures { tile.new ≡ rewritten (cells shape) (λ _. fresh shape.top) tile.old }
{
    tile[..shape.cells()].fill(fresh(shape.top()));
}

// Keeps readings, classes and ties, and writes the rest of every record as `clear` does.
pub fn reset(shape: Shape, tile: &mut [Cell])
    requires { cells shape ≤ length tile.old }
    ensures { tile.new ≡ rewritten (cells shape) (λ u. reset shape.top (cell tile.old u)) tile.old }
{
    for cell in &mut tile[..shape.cells()] {
        *cell = reset_cell(*cell, shape.top());
    }
}

// Writes one cell's reading and class. These, and the two ties below, come plain, as a host hands them to the calls.
pub fn write_reading(tile: &mut [Cell], at: usize, reading: u16, class: u8)
    requires { at < length tile.old }
    ensures { tile.new ≡ slice_set tile.old at (with_reading reading class (cell tile.old at)) }
{
    tile[at] = with_reading(tile[at], reading, class);
}

// Writes one cell's ties.
pub fn write_ties(tile: &mut [Cell], at: usize, right: u16, down: u16)
    requires { at < length tile.old }
    ensures { tile.new ≡ slice_set tile.old at (with_ties (weights right down) (cell tile.old at)) }
{
    tile[at] = with_ties(tile[at], right, down);
}
