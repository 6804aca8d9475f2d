// How a shape is made, and what it was made of.
ghost use Rattle.std.specs.Prelude.{◌≡◌, ◌≤◌, ◌↔◌, IsTrue};
ghost use Rattle.limits.specs.Limits.{most_strip_rows};
ghost use Rattle.tile.specs.Shapes.{Ranged, MadeWithin, Made, MadeStrip};

use crate::shape::Shape;
use crate::shape::error::ShapeError;
use limits::{MAX_COLUMNS, MAX_ROWS, MAX_STRIP_ROWS, MAX_TOP};

// Are rows, columns and top within their bounds?
fn is_ranged(most_rows: usize, rows: usize, columns: usize, top: u16) -> bool
    ensures { IsTrue result ↔ Ranged most_rows rows columns top }
{
    (1..=most_rows).contains(&rows)
        && (1..=MAX_COLUMNS).contains(&columns)
        && (1..=MAX_TOP).contains(&top)
}

impl Shape {
    /// The shape of a tile.
    pub fn new(rows: usize, columns: usize, top: u16) -> Result<Shape, ShapeError>
        ensures { Made rows columns top result }
    {
        Shape::within(MAX_ROWS, rows, columns, top)
    }

    /// The shape of several tiles below one another, which are cut as one.
    pub fn of_strip(rows: usize, columns: usize, top: u16) -> Result<Shape, ShapeError>
        ensures { MadeStrip rows columns top result }
    {
        Shape::within(MAX_STRIP_ROWS, rows, columns, top)
    }

    // The shape, if it has at most so many rows.
    fn within(most_rows: usize, rows: usize, columns: usize, top: u16) -> Result<Shape, ShapeError>
        requires { most_rows ≤ most_strip_rows }
        ensures { MadeWithin most_rows rows columns top result }
    {
        if is_ranged(most_rows, rows, columns, top) {
            Ok(Shape { rows, columns, top })
        } else {
            Err(ShapeError)
        }
    }

    /// How many rows there are.
    pub fn rows(self) -> usize
        ensures { result ≡ self.rows }
    {
        self.rows
    }

    /// How many columns there are.
    pub fn columns(self) -> usize
        ensures { result ≡ self.columns }
    {
        self.columns
    }

    /// The greatest height.
    pub fn top(self) -> u16
        ensures { result ≡ self.top }
    {
        self.top
    }
}
