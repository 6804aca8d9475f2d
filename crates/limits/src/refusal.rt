// Why a call is refused.
ghost use Rattle.std.specs.Prelude.{◌≡◌};
ghost use Rattle.limits.specs.Refusals.{number};

use std::error::Error;
use std::fmt;

/// Why a call is refused. The checks are made in the order of the cases.
#[derive(Clone, Copy, PartialEq, Eq, Debug)]
pub enum Refusal {
    /// Rows, columns, top or the greatest level of a price rule is out of range, where a tile is started or a rule is made.
    Range = 1,
    /// There are fewer records than the tile has cells.
    FewRecords = 2,
    /// A reading, class, tie or bracket is not as the tile's rules say.
    Corrupt = 3,
    /// The row or the column lies outside the tile.
    Outside = 4,
    /// The reading is above the tile's top, or the class above the greatest class.
    Reading = 5,
    /// The tie is above the greatest tie, or is not 0 where the tile ends.
    Tie = 6,
    /// There are fewer entries of workspace than the tile has cells.
    FewEntries = 7,
    /// The greatest level of the price rule is below the tile's top.
    Ceiling = 8,
    /// All rounds that are due are done.
    NoRoundLeft = 9,
    /// Rounds that are due are not done.
    RoundsLeft = 10,
}

impl Refusal {
    /// The number that the refusal is reported by.
    pub fn number(self) -> u8
        ensures { result ≡ number self }
    {
        self as u8
    }
}

impl fmt::Display for Refusal {
    ghost use Rattle.std.specs.Prelude.{Some};
    ghost use Rattle.limits.specs.Refusals.{refusal_text};

    ghost output = { λ refusal. Some (refusal_text refusal) };

    fn fmt<W: fmt::Write>(&self, f: &mut fmt::Formatter<W>) -> fmt::Result {
        f.write_str(match self {
            Refusal::Range => "rows, columns, top or level out of range",
            Refusal::FewRecords => "fewer records than cells",
            Refusal::Corrupt => "a reading, class, tie or bracket is spoilt",
            Refusal::Outside => "row or column outside the tile",
            Refusal::Reading => "reading above the top, or class too great",
            Refusal::Tie => "tie too great, or off the edge",
            Refusal::FewEntries => "fewer entries of workspace than cells",
            Refusal::Ceiling => "greatest level of the rule below the top",
            Refusal::NoRoundLeft => "no round is left",
            Refusal::RoundsLeft => "rounds are left",
        })
    }
}

impl Error for Refusal {}
