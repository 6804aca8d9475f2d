// The two cut makers.
ghost use Rattle.std.specs.Prelude.{◌≤◌, length};
ghost use Rattle.flow.specs.Sides.{Admissible, Cut};
ghost use Rattle.flow.specs.Points.{FourPoints, Cuttable};
ghost use Rattle.tile.specs.Shapes.{cells};
ghost use Rattle.cut.specs.Lent.{InPlace};
ghost use Rattle.cut.specs.Climbs.{Settled, Swept};

use crate::entry::Step;
use crate::pairing::pair_up;
use crate::ranks::mark_all;
use crate::{augmenting_paths, push_relabel};
use flow::Flows;
use flow::maker::CutMaker;
use tile::{Cell, Shape};

// What a maker does again and again, with a workspace of entries. Flows and workspace come one by one: a struct over two `&mut`
// would have to say in each contract that it still holds both.
trait Sweep {
    type Entry;

    // Answers whether a surplus cell was met; then flow has moved.
    fn sweep(flows: &mut Flows, work: &mut [Self::Entry]) -> bool
        requires { length flows.old.tile.now ≤ length work.old }
        ensures { InPlace (λ c t t'. Swept c t t' result) flows.old flows.new };
}

// Sweeps until no surplus cell is met.
fn sweep_all<S: Sweep>(flows: &mut Flows, work: &mut [S::Entry])
    requires { length flows.old.tile.now ≤ length work.old }
    ensures { InPlace Settled flows.old flows.new }
{
    while S::sweep(flows, work) {}
}

// Settles the flows, first between neighbours and then by sweeps.
fn settle<S: Sweep>(flows: &mut Flows, work: &mut [S::Entry])
    requires { length flows.old.tile.now ≤ length work.old }
    ensures { InPlace Settled flows.old flows.new }
{
    pair_up(flows);
    sweep_all::<S>(flows, work);
}

// Settles the flows of a whole list of records.
fn settle_whole<S: Sweep>(tile: &mut [Cell], columns: usize, work: &mut [S::Entry])
    requires sound { Admissible columns tile.old }
    requires rooms { length tile.old ≤ length work.old }
    ensures { Settled columns tile.old tile.new }
{
    settle::<S>(&mut Flows { tile, columns }, work);
}

// Cuts a whole list of records: settles the flows, and marks the cells that have a rank.
fn cut_whole<S: Sweep>(tile: &mut [Cell], columns: usize, work: &mut [S::Entry])
    requires sound { Admissible columns tile.old }
    requires rooms { length tile.old ≤ length work.old }
    ensures { Cut columns tile.old tile.new }
{
    settle_whole::<S>(tile, columns, work);
    mark_all(tile);
}

// Cuts the records of the cells, which stand first.
fn cut_cells<S: Sweep>(shape: Shape, tile: &mut [Cell], work: &mut [S::Entry])
    requires given { Cuttable shape tile.old }
    requires room { cells shape ≤ length work.old }
    ensures { FourPoints shape tile.old tile.new }
{
    let n = shape.cells();
    cut_whole::<S>(&mut tile[0..n], shape.columns(), work);
}

/// Pushes flow along a shortest residual path from a deficit cell to a surplus cell, until none is left.
/// Its workspace holds step records.
#[derive(Clone, Copy)]
pub struct AugmentingPaths;

impl Sweep for AugmentingPaths {
    type Entry = Step;

    fn sweep(flows: &mut Flows, work: &mut [Step]) -> bool {
        augmenting_paths::sweep(flows, work)
    }
}

impl CutMaker for AugmentingPaths {
    type Entry = Step;

    ghost leaves = { λ _ s before after. FourPoints s before after };

    ghost keeps = { λ _ _ _ _ points. points };

    fn cut(&self, shape: Shape, tile: &mut [Cell], entries: &mut [Step]) {
        cut_cells::<AugmentingPaths>(shape, tile, entries);
    }
}

/// Ranks the cells, and moves flow tie by tie towards lower ranks. Its workspace holds cell numbers.
#[derive(Clone, Copy)]
pub struct PushRelabel;

impl Sweep for PushRelabel {
    type Entry = u16;

    fn sweep(flows: &mut Flows, work: &mut [u16]) -> bool {
        push_relabel::sweep(flows, work)
    }
}

impl CutMaker for PushRelabel {
    type Entry = u16;

    ghost leaves = { λ _ s before after. FourPoints s before after };

    ghost keeps = { λ _ _ _ _ points. points };

    fn cut(&self, shape: Shape, tile: &mut [Cell], entries: &mut [u16]) {
        cut_cells::<PushRelabel>(shape, tile, entries);
    }
}
