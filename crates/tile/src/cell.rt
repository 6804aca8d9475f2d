// The record of one cell.
ghost use Rattle.std.specs.Prelude.{◌≡◌};
ghost use Rattle.tile.specs.Records.{stored_tie, stored_flow, stored_bracket, share_bracket};

use crate::bracket::Bracket;
use crate::side::Side;

/// The record of one cell. The host owns the records of a tile, row by row, and may write anything into them. They are laid out as in
/// C, so that a host in C may own them too.
#[repr(C)]
#[derive(Clone, Copy, PartialEq, Eq, Debug, Default)]
pub struct Cell {
    /// What was read at the cell.
    pub reading: u16,
    /// The trust class of the reading.
    pub class: u8,
    /// The weight of the tie to the neighbour on the right.
    pub right: u16,
    /// The weight of the tie to the neighbour below.
    pub down: u16,
    /// What runs over the tie to the right, away from this cell; negative when it runs toward it.
    pub right_flow: i32,
    /// What runs over the tie downward, away from this cell; negative when it runs toward it.
    pub down_flow: i32,
    /// The lowest height that the cell may still take.
    pub low: u16,
    /// The highest height that the cell may still take.
    pub high: u16,
    /// What it costs the cell to be in the upper half of its bracket.
    pub charge: i32,
    /// 1 when the last cut put the cell into the upper half, else 0.
    pub mark: u8,
    /// A number that the cut maker keeps for the cell.
    pub rank: u16,
}

impl Cell {
    /// The weight of the tie that the record stores on a side.
    pub fn tie(&self, side: Side) -> u16
        ensures { result ≡ stored_tie self.now side }
    {
        match side {
            Side::Rightward => self.right,
            Side::Downward => self.down,
        }
    }

    /// The flow over that tie, away from the cell.
    pub fn flow(&self, side: Side) -> i32
        ensures { result ≡ stored_flow self.now side }
    {
        match side {
            Side::Rightward => self.right_flow,
            Side::Downward => self.down_flow,
        }
    }

    /// The heights that the cell may still take.
    pub fn bracket(&self) -> Bracket
        ensures { result ≡ stored_bracket self.now }
    {
        Bracket {
            low: self.low,
            high: self.high,
        }
    }

    /// Have the two cells the same bracket, one whose low end differs from its high end? Then a tie between them is live.
    pub fn shares_bracket(&self, other: &Cell) -> bool
        ensures { result ≡ share_bracket self.now other.now }
    {
        self.bracket() == other.bracket() && !self.bracket().is_settled()
    }
}
