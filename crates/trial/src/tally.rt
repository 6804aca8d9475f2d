// What a group of tiles comes to.
ghost use Rattle.std.specs.Prelude.{◌<◌, ◌↔◌, IsTrue};
ghost use Rattle.tile.specs.Shapes.{cells};
ghost use Rattle.trial.specs.Marks.{SameMarks};

use flow::Chart;
use std::fmt;
use tile::{Cell, Shape, Side};

/// How many tiles were cut alike by both makers, how many cells are marked, what the marked sets cost, and a check sum of
/// all marks.
#[derive(Clone, Copy, Default)]
pub struct Tally {
    pub alike: u64,
    pub marked: u64,
    pub cost: i64,
    pub check: u64,
}

impl fmt::Display for Tally {
    fn fmt<W: fmt::Write>(&self, f: &mut fmt::Formatter<W>) -> fmt::Result {
        let Tally {
            alike,
            marked,
            cost,
            check,
        } = *self;
        write!(
            f,
            "alike {alike}, marked {marked}, cost {cost}, check {check}"
        )
    }
}

/// Do two tiles have the same marks?
pub fn same_marks(first: &[Cell], second: &[Cell]) -> bool
    ensures { IsTrue result ↔ SameMarks first.now second.now }
{
    first.len() == second.len() && first.iter().zip(second).all(|(a, b)| a.mark == b.mark)
}

// What the tie on a side adds to the cost of the marked set.
fn cut_cost(chart: &Chart, at: usize, side: Side) -> i64
    requires { at < cells chart.now.shape }
{
    match chart.live_neighbour(at, side) {
        Some(other) if chart.tile[at].mark != chart.tile[other].mark => {
            i64::from(chart.tile[at].tie(side))
        }
        _ => 0,
    }
}

impl Tally {
    // Adds one cell of a tile that was cut.
    fn add_cell(&mut self, chart: &Chart, at: usize)
        requires { at < cells chart.now.shape }
    {
        let cell = chart.tile[at];
        let mark = u64::from(cell.mark);
        self.marked = self.marked.saturating_add(mark);
        self.check = self
            .check
            .wrapping_mul(3)
            .wrapping_add(mark)
            .wrapping_add(at as u64)
            % 1_000_003;
        if cell.mark == 1 {
            self.cost = self.cost.saturating_add(i64::from(cell.charge));
        }
        for side in [Side::Rightward, Side::Downward] {
            self.cost = self.cost.saturating_add(cut_cost(chart, at, side));
        }
    }

    // Adds a tile that was cut. It goes by number, by which a cell's ties are found.
    pub(crate) fn add(&mut self, shape: Shape, tile: &[Cell]) {
        let Some(chart) = Chart::of(shape, tile) else {
            return;
        };
        for at in 0..shape.cells() {
            self.add_cell(&chart, at);
        }
    }
}
