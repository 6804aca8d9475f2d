// Brackets narrowed by the marks of a cut.
ghost use Rattle.std.specs.Prelude.{◌≡◌, ◌≤◌};
ghost use Rattle.limits.specs.Limits.{most_top};
ghost use Rattle.passes.specs.Writing.{with_bracket};
ghost use Rattle.passes.specs.Rounds.{half_marked, narrowed, Narrowable};

use tile::{Bracket, Cell, Shape};

// The upper half of a cell's bracket where its mark is 1, else the lower.
fn half_marked(cell: Cell) -> Bracket
    requires { (cell.low ≤ most_top) × (cell.high ≤ most_top) }
    ensures { result ≡ half_marked cell }
{
    let Bracket { low, high } = cell.bracket();
    let middle = cell.bracket().middle();
    if cell.mark == 1 {
        Bracket {
            low: middle + 1,
            high,
        }
    } else {
        Bracket { low, high: middle }
    }
}

fn with_bracket(cell: Cell, bracket: Bracket) -> Cell
    ensures { result ≡ with_bracket bracket cell }
{
    Cell {
        low: bracket.low,
        high: bracket.high,
        ..cell
    }
}

// Narrows every bracket.
pub fn narrow(shape: Shape, tile: &mut [Cell])
    requires { Narrowable shape tile.old }
    ensures { tile.new ≡ narrowed shape tile.old }
{
    for cell in &mut tile[..shape.cells()] {
        *cell = with_bracket(*cell, half_marked(*cell));
    }
}
