// The calls once every cell has one height.
ghost use Rattle.std.specs.Prelude.{◌≡◌};
ghost use Rattle.filter.specs.Calls.{ReopenDoes, HeightDoes, CostDoes};
ghost use Rattle.filter.specs.Runs.{draft, level, reopened, GoesOn};
ghost use Rattle.filter.specs.Laws.{EveryRunKeepsTheLaw};

use crate::answers::Refused;
use crate::states::round_calls::reopen;
use crate::states::{Draft, Level};
use limits::Refusal;
use passes::low_end;
use price::PriceRule;
use tile::{Cell, energy};

impl Level {
    /// How many rows the tile has.
    pub fn rows(&self) -> usize
        ensures { result ≡ self.now.shape.rows }
    {
        self.shape.rows()
    }

    /// How many columns the tile has.
    pub fn columns(&self) -> usize
        ensures { result ≡ self.now.shape.columns }
    {
        self.shape.columns()
    }

    /// The greatest height of the tile.
    pub fn top(&self) -> u16
        ensures { result ≡ self.now.shape.top }
    {
        self.shape.top()
    }

    /// The height of the cell in a row and a column.
    pub fn height(&self, tile: &[Cell], row: usize, column: usize) -> Result<u16, Refusal>
        ensures { HeightDoes self.now tile.now row column result }
    {
        let at = self.check_height(tile, row, column)?;
        Ok(low_end(&tile[at]))
    }

    /// The energy of the heights under a price rule.
    pub fn cost<P: PriceRule>(&self, tile: &[Cell], rule: &P) -> Result<u64, Refusal>
        ensures { CostDoes (P.PriceRule.rule rule.now) self.now tile.now result }
    {
        self.check_cost(tile, rule.greatest())?;
        Ok(energy(rule, self.shape, tile).unwrap())
    }

    /// Goes back to a draft: keeps readings, classes and ties, and resets the rest as start does.
    pub fn reopen(self, tile: &mut [Cell]) -> Result<Draft, Refused<Level>>
        ensures does { ReopenDoes self self.shape self.done tile.old result tile.new }
        ensures goes_on { GoesOn (level self) tile.old level draft reopened result tile.new }
        ensures law { EveryRunKeepsTheLaw }
    {
        reopen(Draft { shape: self.shape }, self.done, tile, self)
    }
}
