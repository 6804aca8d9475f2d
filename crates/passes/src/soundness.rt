// Whether records are sound.
ghost use Rattle.std.specs.Prelude.{◌≡◌, ◌+◌, ◌<◌, ◌≤◌, ◌↔◌, true, false, length, nat_lt, IsTrue, EachIndex};
ghost use Rattle.tile.specs.Records.{stored_tie};
ghost use Rattle.tile.specs.Shapes.{cells};
ghost use Rattle.tile.specs.Tiles.{cell};
ghost use Rattle.passes.specs.Writing.{weights};
ghost use Rattle.passes.specs.Soundness.{SoundReading, SoundWeight, SoundTie, SoundTies, Sound, by_side};
ghost use Rattle.tile.specs.declared.side.Side.{Side};

use crate::table::{BracketTable, PLACES, fill};
use limits::{MAX_CLASS, MAX_TIE};
use tile::{Cell, Shape, Side};

// May a cell have this reading, of this class?
pub fn is_reading_sound(top: u16, reading: u16, class: u8) -> bool
    ensures { IsTrue result ↔ (SoundReading top reading class) }
{
    reading <= top && class <= MAX_CLASS
}

// May a tie weigh so much, by whether there is a neighbour at its other end?
fn is_weight_sound(weight: u16, has_neighbour: bool) -> bool
    ensures { IsTrue result ↔ (SoundWeight has_neighbour weight) }
{
    weight <= MAX_TIE && (weight == 0 || has_neighbour)
}

// A cell comes as its shape and its number, which a struct with the condition that it lies inside would only wrap for a call.

// May the tie on a side of a cell weigh so much?
fn is_tie_sound(shape: Shape, at: usize, side: Side, weight: u16) -> bool
    requires { at < cells shape }
    ensures { IsTrue result ↔ (SoundTie shape at side weight) }
{
    is_weight_sound(weight, shape.neighbour(at, side).is_some())
}

// May the ties of a cell weigh so much?
pub fn are_ties_sound(shape: Shape, at: usize, right: u16, down: u16) -> bool
    requires { at < cells shape }
    ensures { IsTrue result ↔ (SoundTies shape at (weights right down)) }
{
    is_tie_sound(shape, at, Side::Rightward, right) && is_tie_sound(shape, at, Side::Downward, down)
}

// May the ties that a record stores weigh so much, of a cell that has a neighbour on the right and below, or has not?
fn are_weights_sound(cell: &Cell, right: bool, below: bool) -> bool
    ensures { IsTrue result ↔ ((d : Side) → SoundWeight (by_side right below d) (stored_tie cell.now d)) }
{
    is_weight_sound(cell.right, right) && is_weight_sound(cell.down, below)
}

// A tile to inspect. It is gone over row by row, so that no division tells where a row ends.
#[derive(Clone, Copy)]
struct Inspection<'t, 'b> {
    shape: Shape,
    tile: &'t [Cell],
    table: BracketTable<'b>,
    ghost whole: { cells shape ≤ length tile.now },
    ghost same: { table.top ≡ shape.top },
}

impl<'t, 'b> Inspection<'t, 'b> {
    ghost use Rattle.passes.specs.Soundness.{SoundRecord, SoundRow};

    // Is the record sound, of a cell that has a neighbour on the right and below, or has not?
    fn is_record_sound(&self, cell: &Cell, right: bool, below: bool) -> bool
        ensures { IsTrue result ↔ (SoundRecord self.now.table.top self.now.table.done (by_side right below) cell.now) }
    {
        is_reading_sound(self.table.top, cell.reading, cell.class)
            && are_weights_sound(cell, right, below)
            && self.table.has(cell.bracket())
    }

    // Are the records sound, of cells that have a neighbour on the right?
    fn are_inner_sound(&self, records: &[Cell], below: bool) -> bool
        ensures { IsTrue result ↔ (EachIndex records.now (λ c. SoundRecord self.now.table.top self.now.table.done (by_side true below) (cell records.now c))) }
    {
        records
            .iter()
            .all(|cell| self.is_record_sound(cell, true, below))
    }

    // Is the last record of a row sound? Its cell has no neighbour on the right.
    fn is_last_sound(&self, cell: &Cell, below: bool) -> bool
        ensures { IsTrue result ↔ (SoundRecord self.now.table.top self.now.table.done (by_side false below) cell.now) }
    {
        self.is_record_sound(cell, false, below)
    }

    // Is there a row below?
    fn has_below(&self, row: usize) -> bool
        requires { row < self.now.shape.rows }
        ensures { result ≡ nat_lt (row + 1) self.now.shape.rows }
    {
        row + 1 < self.shape.rows()
    }

    // Is each record of a row sound?
    fn is_row_sound(&self, row: usize) -> bool
        requires { row < self.now.shape.rows }
        ensures { IsTrue result ↔ (SoundRow self.now.shape self.now.table.done self.now.tile.now row) }
    {
        let below = self.has_below(row);
        let start = row * self.shape.columns();
        let last = start + (self.shape.columns() - 1);
        self.are_inner_sound(&self.tile[start..last], below)
            && self.is_last_sound(&self.tile[last], below)
    }
}

// Is every record sound, after so many rounds?
pub fn is_sound(shape: Shape, done: u8, tile: &[Cell]) -> bool
    requires { cells shape ≤ length tile.now }
    ensures { IsTrue result ↔ (Sound shape done tile.now) }
{
    let mut places = [0; PLACES];
    fill(shape.top(), done, &mut places);
    let table = BracketTable {
        top: shape.top(),
        done,
        highs: &places,
    };
    let inspection = Inspection { shape, tile, table };
    (0..shape.rows()).all(|row| inspection.is_row_sound(row))
}
