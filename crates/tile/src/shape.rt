// The shape of a tile: how many rows and columns it has, and its greatest height.
pub mod cells;
pub mod error;
pub mod making;

ghost use Rattle.std.specs.Prelude.{◌≤◌};
ghost use Rattle.limits.specs.Limits.{most_columns, most_strip_rows, most_top};

/// How many rows and columns a tile has, and its greatest height.
#[derive(Clone, Copy, PartialEq, Eq, Debug)]
pub struct Shape {
    rows: usize,
    columns: usize,
    top: u16,
    ghost tall: { (1 ≤ rows) × (rows ≤ most_strip_rows) },
    ghost wide: { (1 ≤ columns) × (columns ≤ most_columns) },
    ghost high: { (1 ≤ top) × (top ≤ most_top) },
}
