// The calls that make and fill a draft.
ghost use Rattle.std.specs.Prelude.{◌≡◌};
ghost use Rattle.passes.specs.Writing.{weights};
ghost use Rattle.filter.specs.Checks.{place, TileChecked};
ghost use Rattle.filter.specs.Calls.{StartDoes, PutDoes, TieDoes, BeginDoes};
ghost use Rattle.filter.specs.Runs.{draft, rounding, put_at, tied_at, begun, Begins, GoesOn};
ghost use Rattle.filter.specs.Laws.{EveryRunKeepsTheLaw};

use crate::answers::Refused;
use crate::states::checking::{check_tile, is_whole};
use crate::states::{Draft, Rounding};
use limits::Refusal;
use passes::{clear, write_reading, write_ties};
use tile::{Cell, Shape};

/// Makes the records a new draft: every bracket 0..top, and all else 0.
pub fn start(rows: usize, columns: usize, top: u16, tile: &mut [Cell]) -> Result<Draft, Refusal>
    ensures does { StartDoes rows columns top tile.old result tile.new }
    ensures begins { Begins result tile.new }
    ensures law { EveryRunKeepsTheLaw }
{
    let shape = Shape::new(rows, columns, top)?;
    if !is_whole(shape, tile) {
        return Err(Refusal::FewRecords);
    }
    clear(shape, tile);
    Ok(Draft { shape })
}

// The rounds of a draft that is closed: none is done.
fn no_round_done(draft: Draft) -> Rounding
    ensures shape { result.shape ≡ draft.shape }
    ensures done { result.done ≡ 0 }
{
    Rounding {
        shape: draft.shape,
        done: 0,
    }
}

impl Draft {
    /// How many rows the tile has.
    pub fn rows(&self) -> usize
        ensures { result ≡ self.now.shape.rows }
    {
        self.shape.rows()
    }

    /// How many columns the tile has.
    pub fn columns(&self) -> usize
        ensures { result ≡ self.now.shape.columns }
    {
        self.shape.columns()
    }

    /// The greatest height of the tile.
    pub fn top(&self) -> u16
        ensures { result ≡ self.now.shape.top }
    {
        self.shape.top()
    }

    /// Is there a sound record for each cell? Every call on a draft checks this first.
    pub fn check(&self, tile: &[Cell]) -> Result<(), Refusal>
        ensures { TileChecked self.now.shape 0 tile.now (λ e. result ≡ Err e) (result ≡ Ok tt) }
    {
        check_tile(self.shape, 0, tile)
    }

    /// Writes one cell's reading and class.
    pub fn put(
        self,
        tile: &mut [Cell],
        row: usize,
        column: usize,
        reading: u16,
        class: u8,
    ) -> Result<Draft, Refused<Draft>>
        ensures does { PutDoes self tile.old row column reading class result tile.new }
        ensures goes_on { GoesOn (draft self) tile.old draft draft (put_at (place self.shape row column) reading class) result tile.new }
        ensures law { EveryRunKeepsTheLaw }
    {
        match self.check_put(tile, row, column, reading, class) {
            Ok(at) => {
                write_reading(tile, at, reading, class);
                Ok(self)
            }
            Err(why) => Err(Refused { state: self, why }),
        }
    }

    /// Writes one cell's ties to its neighbours on the right and below.
    pub fn tie(
        self,
        tile: &mut [Cell],
        row: usize,
        column: usize,
        right: u16,
        down: u16,
    ) -> Result<Draft, Refused<Draft>>
        ensures does { TieDoes self tile.old row column (weights right down) result tile.new }
        ensures goes_on { GoesOn (draft self) tile.old draft draft (tied_at (place self.shape row column) (weights right down)) result tile.new }
        ensures law { EveryRunKeepsTheLaw }
    {
        match self.check_tie(tile, row, column, right, down) {
            Ok(at) => {
                write_ties(tile, at, right, down);
                Ok(self)
            }
            Err(why) => Err(Refused { state: self, why }),
        }
    }

    /// Closes the draft, so that rounds can be done. Writes nothing.
    pub fn begin(self, tile: &[Cell]) -> Result<Rounding, Refused<Draft>>
        ensures does { BeginDoes self tile.now result }
        ensures goes_on { GoesOn (draft self) tile.now draft rounding begun result tile.now }
        ensures law { EveryRunKeepsTheLaw }
    {
        if let Err(why) = check_tile(self.shape, 0, tile) {
            return Err(Refused { state: self, why });
        }
        Ok(no_round_done(self))
    }
}
