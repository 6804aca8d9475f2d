// The error of rows, columns or a top out of range.
use limits::Refusal;
use std::error::Error;
use std::fmt;

/// Rows, columns or top are out of range.
#[derive(Clone, Copy, PartialEq, Eq, Debug)]
pub struct ShapeError;

impl fmt::Display for ShapeError {
    ghost use Rattle.std.specs.Prelude.{Some, codes};

    ghost output = { λ _. Some (codes "rows, columns or top out of range") };

    fn fmt<W: fmt::Write>(&self, f: &mut fmt::Formatter<W>) -> fmt::Result {
        f.write_str("rows, columns or top out of range")
    }
}

impl Error for ShapeError {}

impl From<ShapeError> for Refusal {
    ghost use Rattle.std.specs.Prelude.{◌≡◌};
    ghost use Rattle.limits.specs.declared.refusal.Refusal.TheVariants.{Range};

    ghost from_gives = { λ _ refusal. refusal ≡ Range };

    fn from(_error: ShapeError) -> Refusal {
        Refusal::Range
    }
}
