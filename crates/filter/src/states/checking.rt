// The checks that calls share, in the order of the refusals' numbers.
ghost use Rattle.std.specs.Prelude.{◌≡◌, ◌<◌, ◌≤◌, ◌↔◌, length, IsTrue, IfOk, nat_le};
ghost use Rattle.limits.specs.declared.refusal.Refusal.TheVariants.{Outside};
ghost use Rattle.limits.specs.Checking.{Checked};
ghost use Rattle.tile.specs.Halving.{RoundsOver};
ghost use Rattle.tile.specs.Shapes.{cells};
ghost use Rattle.passes.specs.Writing.{weights};
ghost use Rattle.filter.specs.Checks.{Inside, place, TileChecked, PutChecked, TieChecked, RoundChecked, FinishChecked, HeightChecked, CostChecked};

use crate::states::{Draft, Level, Rounding};
use limits::Refusal;
use passes::{are_ties_sound, is_reading_sound, is_sound};
use tile::bracket::rounds_due;
use tile::{Cell, Shape};

// Is there a record for each cell?
pub(crate) fn is_whole(shape: Shape, tile: &[Cell]) -> bool
    ensures { IsTrue result ↔ (cells shape ≤ length tile.now) }
{
    tile.len() >= shape.cells()
}

// The number of the cell in a row and a column, where they lie within the shape. They come plain, as a host hands them to the calls.
fn place(shape: Shape, row: usize, column: usize) -> Result<usize, Refusal>
    ensures place { Checked 4 Outside (Inside shape row column) (λ e. result ≡ Err e) (result ≡ Ok (place shape row column)) }
    ensures inside { IfOk result (λ at. at < cells shape) }
{
    if row < shape.rows() && column < shape.columns() {
        Ok(row * shape.columns() + column)
    } else {
        Err(Refusal::Outside)
    }
}

// Are as many rounds done as are due?
fn are_done(done: u8, due: u8) -> bool
    ensures { result ≡ nat_le due done }
{
    due <= done
}

// Are the rounds due done?
pub(crate) fn are_rounds_over(shape: Shape, done: u8) -> bool
    ensures { IsTrue result ↔ (RoundsOver shape.top done) }
{
    are_done(done, rounds_due(shape.top()))
}

// Every call but start begins with this check: there is a record for each cell, and all are sound after so many rounds.
pub(crate) fn check_tile(shape: Shape, done: u8, tile: &[Cell]) -> Result<(), Refusal>
    ensures { TileChecked shape done tile.now (λ e. result ≡ Err e) (result ≡ Ok tt) }
{
    if !is_whole(shape, tile) {
        return Err(Refusal::FewRecords);
    }
    if !is_sound(shape, done, tile) {
        return Err(Refusal::Corrupt);
    }
    Ok(())
}

impl Draft {
    // The cell whose reading and class are to be written, where they may be.
    pub(crate) fn check_put(
        &self,
        tile: &[Cell],
        row: usize,
        column: usize,
        reading: u16,
        class: u8,
    ) -> Result<usize, Refusal>
        ensures checked { PutChecked self.now.shape tile.now row column reading class (λ e. result ≡ Err e) (result ≡ Ok (place self.now.shape row column)) }
        ensures inside { IfOk result (λ at. at < cells self.now.shape) }
    {
        check_tile(self.shape, 0, tile)?;
        let at = place(self.shape, row, column)?;
        if !is_reading_sound(self.shape.top(), reading, class) {
            return Err(Refusal::Reading);
        }
        Ok(at)
    }

    // The cell whose ties are to be written, where they may be.
    pub(crate) fn check_tie(
        &self,
        tile: &[Cell],
        row: usize,
        column: usize,
        right: u16,
        down: u16,
    ) -> Result<usize, Refusal>
        ensures checked { TieChecked self.now.shape tile.now row column (weights right down) (λ e. result ≡ Err e) (result ≡ Ok (place self.now.shape row column)) }
        ensures inside { IfOk result (λ at. at < cells self.now.shape) }
    {
        check_tile(self.shape, 0, tile)?;
        let at = place(self.shape, row, column)?;
        if !are_ties_sound(self.shape, at, right, down) {
            return Err(Refusal::Tie);
        }
        Ok(at)
    }
}

impl Rounding {
    // May a round be done with so many entries of workspace, under a rule of this greatest level?
    pub(crate) fn check_round(
        &self,
        tile: &[Cell],
        entries: usize,
        greatest: u16,
    ) -> Result<(), Refusal>
        ensures { RoundChecked self.now.shape self.now.done tile.now entries greatest (λ e. result ≡ Err e) (result ≡ Ok tt) }
    {
        check_tile(self.shape, self.done, tile)?;
        if entries < self.shape.cells() {
            return Err(Refusal::FewEntries);
        }
        if greatest < self.shape.top() {
            return Err(Refusal::Ceiling);
        }
        if are_rounds_over(self.shape, self.done) {
            return Err(Refusal::NoRoundLeft);
        }
        Ok(())
    }

    // May the rounds end?
    pub(crate) fn check_finish(&self, tile: &[Cell]) -> Result<(), Refusal>
        ensures { FinishChecked self.now.shape self.now.done tile.now (λ e. result ≡ Err e) (result ≡ Ok tt) }
    {
        check_tile(self.shape, self.done, tile)?;
        if !are_rounds_over(self.shape, self.done) {
            return Err(Refusal::RoundsLeft);
        }
        Ok(())
    }
}

impl Level {
    // The cell whose height is to be read, where it may be.
    pub(crate) fn check_height(
        &self,
        tile: &[Cell],
        row: usize,
        column: usize,
    ) -> Result<usize, Refusal>
        ensures checked { HeightChecked self.now.shape self.now.done tile.now row column (λ e. result ≡ Err e) (result ≡ Ok (place self.now.shape row column)) }
        ensures inside { IfOk result (λ at. at < cells self.now.shape) }
    {
        check_tile(self.shape, self.done, tile)?;
        place(self.shape, row, column)
    }

    // May the heights be rated, under a rule of this greatest level?
    pub(crate) fn check_cost(&self, tile: &[Cell], greatest: u16) -> Result<(), Refusal>
        ensures { CostChecked self.now.shape self.now.done tile.now greatest (λ e. result ≡ Err e) (result ≡ Ok tt) }
    {
        check_tile(self.shape, self.done, tile)?;
        if self.shape.top() > greatest {
            return Err(Refusal::Ceiling);
        }
        Ok(())
    }
}
