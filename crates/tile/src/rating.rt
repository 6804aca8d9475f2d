// The energy of the heights that records hold.
ghost use Rattle.std.specs.Prelude.{◌≡◌, ◌*◌, ◌^◌, ◌<◌, ◌≤◌, length};
ghost use Rattle.theory.specs.Grids.{gap};
ghost use Rattle.tile.specs.Shapes.{cells};
ghost use Rattle.tile.specs.Rating.{Rated};

use crate::cell::Cell;
use crate::shape::Shape;
use crate::side::Side;
use price::PriceRule;

// What a tie costs: its weight times the absolute difference of the heights at its ends.
fn tie_cost(weight: u16, near: u16, far: u16) -> u64
    ensures value { result ≡ weight * gap near far }
    ensures few { result < 2 ^ 32 }
{
    u64::from(weight) * u64::from(near.abs_diff(far))
}

// A tile that is rated under a price rule: there is a record for each cell.
#[derive(Drop)]
struct Rating<'a, P: PriceRule> {
    rule: &'a P,
    shape: Shape,
    tile: &'a [Cell],
    ghost whole: { cells shape ≤ length tile.now },
}

impl<'a, P: PriceRule> Rating<'a, P> {
    ghost use Rattle.std.specs.Prelude.{sum, map};
    ghost use Rattle.std.specs.List.{range_with_len};
    ghost use Rattle.tile.specs.Tiles.{survey, heights};
    ghost use Rattle.tile.specs.Rating.{side_cost, cell_cost};

    // What the tie on a side of a cell costs; 0 where there is none.
    fn side_cost(&self, at: usize, side: Side) -> u64
        requires { at < cells self.now.shape }
        ensures value { result ≡ side_cost self.now.shape (survey self.now.tile.now) (heights self.now.tile.now) at side }
        ensures few { result < 2 ^ 32 }
    {
        match self.shape.neighbour(at, side) {
            Some(other) => {
                let cell = &self.tile[at];
                tie_cost(cell.tie(side), cell.low, self.tile[other].low)
            }
            None => 0,
        }
    }

    // What a cell costs: the price of its height, and the ties that its record stores.
    fn cell_cost(&self, at: usize) -> u64
        requires { at < cells self.now.shape }
        ensures value { result ≡ cell_cost (P.PriceRule.rule self.now.rule.now) self.now.shape (survey self.now.tile.now) (heights self.now.tile.now) at }
        ensures few { result < 2 ^ 34 }
    {
        let cell = &self.tile[at];
        let price = self.rule.price(cell.reading, cell.class, cell.low);
        let right = self.side_cost(at, Side::Rightward);
        let down = self.side_cost(at, Side::Downward);
        u64::from(price) + right + down
    }

    // The costs of all cells.
    fn costs(&self) -> u64
        ensures { result ≡ sum (map (cell_cost (P.PriceRule.rule self.now.rule.now) self.now.shape (survey self.now.tile.now) (heights self.now.tile.now)) (range_with_len 0 (cells self.now.shape))) }
    {
        (0..self.shape.cells()).map(|at| self.cell_cost(at)).sum()
    }
}

/// The energy of the grid of low ends over the survey that the records hold, whatever they hold. None where there are fewer records
/// than cells.
#[tactic(auto, using(crate::proofs::Costs::costs_all))]
pub fn energy<P: PriceRule>(rule: &P, shape: Shape, tile: &[Cell]) -> Option<u64>
    ensures { Rated (P.PriceRule.rule rule.now) shape tile.now result }
{
    if tile.len() < shape.cells() {
        return None;
    }
    Some(Rating { rule, shape, tile }.costs())
}
