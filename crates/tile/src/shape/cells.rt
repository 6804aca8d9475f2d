// The cells of a shape, and which of them are neighbours.
ghost use Rattle.std.specs.Prelude.{◌≡◌};
ghost use Rattle.tile.specs.Shapes.{cells};
ghost use Rattle.tile.specs.Ties.{neighbour_within, TiesJoinCells};

use crate::shape::Shape;
use crate::side::Side;

impl Shape {
    /// How many cells there are.
    pub fn cells(self) -> usize
        ensures { result ≡ cells self }
    {
        self.rows * self.columns
    }

    /// The neighbour of a cell on a side: none where the cell lies outside the shape, or at its end.
    pub fn neighbour(self, cell: usize, side: Side) -> Option<usize>
        ensures { result ≡ neighbour_within self cell side }
    {
        if cell >= self.cells() {
            return None;
        }
        match side {
            Side::Rightward if cell % self.columns + 1 < self.columns => Some(cell + 1),
            Side::Downward if cell + self.columns < self.cells() => Some(cell + self.columns),
            _ => None,
        }
    }
}

// Both ends of every tie are cells, whatever the ties weigh.
pub fn ties_join_cells()
    ensures { TiesJoinCells }
{}
