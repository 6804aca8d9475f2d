// Whether a tile may be handed to a cut maker.
ghost use Rattle.std.specs.Prelude.{◌≡◌, ◌≤◌, ◌↔◌, length, IsTrue, IfSome};
ghost use Rattle.tile.specs.Shapes.{cells};
ghost use Rattle.flow.specs.Points.{Cuttable};

use limits::{MAX_CHARGE, MAX_TIE};
use tile::{Cell, Shape, Side};

/// A tile with a record for each cell of its shape. A cell comes by its number: its ties lead to others of the same chart.
#[derive(Drop)]
pub struct Chart<'a> {
    pub shape: Shape,
    pub tile: &'a [Cell],
    pub ghost whole: { cells shape ≤ length tile.now },
}

impl<'a> Chart<'a> {
    ghost use Rattle.std.specs.Prelude.{◌<◌, Some, IsSome, MatchOption};
    ghost use Rattle.std.specs.Prelude.{if◌then◌else◌};
    ghost use Rattle.tile.specs.Records.{stored_tie};
    ghost use Rattle.tile.specs.Ties.{neighbour_within};
    ghost use Rattle.tile.specs.Tiles.{cell};
    ghost use Rattle.flow.specs.Networks.{is_live};
    ghost use Rattle.flow.specs.Charts.{SideFits, CellFits, AllFit};

    /// The chart of a tile that has a record for each cell.
    pub fn of(shape: Shape, tile: &'a [Cell]) -> Option<Chart<'a>>
        ensures { MatchOption result (length tile.now < cells shape) (λ chart. (chart.shape ≡ shape) × (chart.tile.now ≡ tile.now)) }
    {
        if tile.len() < shape.cells() {
            return None;
        }
        Some(Chart { shape, tile })
    }

    /// The neighbour on a side, where the tie to it is live.
    pub fn live_neighbour(&self, at: usize, side: Side) -> Option<usize>
        requires { at < cells self.now.shape }
        ensures live { IsSome result ↔ IsTrue (is_live self.now.shape self.now.tile.now at side) }
        ensures found { IfSome result (λ other. Some other ≡ neighbour_within self.now.shape at side) }
        ensures inside { IfSome result (λ other. other < cells self.now.shape) }
    {
        let other = self.shape.neighbour(at, side)?;
        self.tile[at]
            .shares_bracket(&self.tile[other])
            .then_some(other)
    }

    /// The weight of the tie on a side, where it is live; else 0, as of no tie.
    pub fn live_weight(&self, at: usize, side: Side) -> u16
        requires { at < cells self.now.shape }
        ensures { result ≡ (if is_live self.now.shape self.now.tile.now at side then stored_tie (cell self.now.tile.now at) side else 0) }
    {
        if self.live_neighbour(at, side).is_some() {
            self.tile[at].tie(side)
        } else {
            0
        }
    }

    // Are the tie and the flow on one side as a cut maker wants them?
    fn side_fits(&self, at: usize, side: Side) -> bool
        requires { at < cells self.now.shape }
        ensures { IsTrue result ↔ SideFits self.now.shape self.now.tile.now at side }
    {
        let tie = self.tile[at].tie(side);
        let flow = self.tile[at].flow(side);
        tie <= MAX_TIE
            && flow.unsigned_abs() <= u32::from(tie)
            && (tie == 0 || self.shape.neighbour(at, side).is_some())
            && (flow == 0 || self.live_neighbour(at, side).is_some())
    }

    // Is one cell as a cut maker wants it?
    fn cell_fits(&self, at: usize) -> bool
        requires { at < cells self.now.shape }
        ensures { IsTrue result ↔ CellFits self.now.shape self.now.tile.now at }
    {
        self.tile[at].charge.unsigned_abs() <= MAX_CHARGE
            && self.side_fits(at, Side::Rightward)
            && self.side_fits(at, Side::Downward)
    }

    // Are all cells?
    fn fits(&self) -> bool
        ensures { IsTrue result ↔ AllFit self.now.shape self.now.tile.now }
    {
        (0..self.shape.cells()).all(|at| self.cell_fits(at))
    }
}

/// May the tile be handed to a cut maker?
pub fn is_cuttable(shape: Shape, tile: &[Cell]) -> bool
    ensures { IsTrue result ↔ Cuttable shape tile.now }
{
    tile.len() >= shape.cells() && Chart { shape, tile }.fits()
}
