// Cut makers, and one cut by any of them.
ghost use Rattle.std.specs.Prelude.{◌≤◌, List, length};
ghost use Rattle.theory.specs.Sets.{SmallestCheapestSet};
ghost use Rattle.tile.specs.declared.cell.Cell.{Cell as Record};
ghost use Rattle.tile.specs.declared.shape.Shape.{Shape as Form};
ghost use Rattle.tile.specs.Shapes.{cells};
ghost use Rattle.flow.specs.Networks.{network, charges, marks};
ghost use Rattle.flow.specs.Points.{Cuttable, FourPoints, CutMarksAreTheSmallestCheapestSet};

use tile::{Cell, Shape};

// A maker is lent plain slices, as a host has them: a value over both would make every maker and every caller take it apart
// and say that it still holds the same two, which is longer than the two conditions.
/// Cuts a charged tile, by a way of its own, with a workspace of its own.
pub trait CutMaker {
    /// What the maker keeps for each cell while it works.
    type Entry;

    /// The tiles that the maker may leave of a given tile.
    ghost leaves: { Self → Form → List Record → List Record → Type 0 };

    /// Cuts the tile: writes flows, marks and ranks. The entries may hold anything before and after.
    fn cut(&self, shape: Shape, tile: &mut [Cell], entries: &mut [Self::Entry])
        requires given { Cuttable shape tile.old }
        requires room { cells shape ≤ length entries.old }
        ensures { leaves self.now shape tile.old tile.new };

    // Each of them keeps the four points.
    ghost keeps: { (m : Self) (s : Form) (before after : List Record) → leaves m s before after → FourPoints s before after };
}

// One cut, by what the maker may leave.
fn cut_once<M: CutMaker>(maker: &M, shape: Shape, tile: &mut [Cell], entries: &mut [M::Entry])
    requires given { Cuttable shape tile.old }
    requires room { cells shape ≤ length entries.old }
    ensures leaves { M.CutMaker.leaves maker.now shape tile.old tile.new }
    ensures points { FourPoints shape tile.old tile.new }
{
    maker.cut(shape, tile, entries);
}

/// Cuts a tile once. The marks are the smallest cheapest set of the tile; flows and ranks are free within what this
/// maker may leave.
#[tactic(auto, using(crate::proofs::Certifies::cut_marks))]
pub fn run_cut<M: CutMaker>(maker: &M, shape: Shape, tile: &mut [Cell], entries: &mut [M::Entry])
    requires given { Cuttable shape tile.old }
    requires room { cells shape ≤ length entries.old }
    ensures leaves { M.CutMaker.leaves maker.now shape tile.old tile.new }
    ensures points { FourPoints shape tile.old tile.new }
    ensures smallest { SmallestCheapestSet (network shape tile.old) (charges tile.old) (marks tile.new) }
{
    cut_once(maker, shape, tile, entries);
}

/// Whoever cuts, the four points make the marks the smallest cheapest set.
pub fn four_points_suffice()
    ensures { CutMarksAreTheSmallestCheapestSet }
{}
