// Heights copied out of the records.
ghost use Rattle.std.specs.Prelude.{◌≡◌, ◌≤◌, length};
ghost use Rattle.tile.specs.Shapes.{cells};
ghost use Rattle.passes.specs.Copying.{copied};

use tile::{Cell, Shape};

// The height of a cell whose bracket holds one height.
pub fn low_end(cell: &Cell) -> u16
    ensures { result ≡ cell.now.low }
{
    cell.low
}

// Copies the low end of every cell.
pub fn copy_low_ends(shape: Shape, tile: &[Cell], heights: &mut [u16])
    requires whole { cells shape ≤ length tile.now }
    requires room { cells shape ≤ length heights.old }
    ensures { heights.new ≡ copied (cells shape) tile.now heights.old }
{
    for (at, cell) in tile[..shape.cells()].iter().enumerate() {
        heights[at] = low_end(cell);
    }
}
