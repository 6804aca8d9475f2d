// The states of a tile: plain numbers, moved from call to call. The host keeps the records and lends them to each call.
mod checking;
pub mod draft_calls;
pub mod level_calls;
pub mod round_calls;

ghost use Rattle.std.specs.Prelude.{◌≤◌};
ghost use Rattle.limits.specs.Limits.{most_rows, most_rounds};
ghost use Rattle.tile.specs.Halving.{RoundsOver};

use tile::Shape;

/// Readings, classes and ties are being written.
#[derive(Drop)]
pub struct Draft {
    shape: Shape,
    ghost tall: { shape.rows ≤ most_rows },
}

/// The rounds are under way.
#[derive(Drop)]
pub struct Rounding {
    shape: Shape,
    done: u8,
    ghost tall: { shape.rows ≤ most_rows },
    ghost few: { done ≤ most_rounds },
}

// A `Rounding` has the same numbers; a struct for what both hold would put one more name into each of their contracts.
/// The rounds due are done: every cell has one height.
#[derive(Drop)]
pub struct Level {
    shape: Shape,
    done: u8,
    ghost tall: { shape.rows ≤ most_rows },
    ghost few: { done ≤ most_rounds },
    ghost over: { RoundsOver shape.top done },
}
