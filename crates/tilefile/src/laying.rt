// The second pass over a file: what it says, written into the records.
ghost use Rattle.std.specs.Prelude.{◌≡◌, ◌+◌, ◌≤◌, length};
ghost use Rattle.tile.specs.Shapes.{cells};
ghost use Rattle.passes.specs.Writing.{rewritten};
ghost use Rattle.tilefile.specs.Bytes.{number_at};
ghost use Rattle.tilefile.specs.Sections.{class_at, tie_numbers};
ghost use Rattle.tilefile.specs.Survey.{Holds, surveyed_record, entries_survey, cell_record};

use crate::fault::Section;
use crate::reader::Reader;
use tile::{Cell, Shape};

// The record of a cell by its entries, which are the next ones.
fn next_record(top: u16, readings: &mut Reader, ties: &mut Reader) -> Cell
    requires reading { readings.old.place + 3 ≤ length readings.old.bytes.now }
    requires tie { ties.old.place + 4 ≤ length ties.old.bytes.now }
    ensures readings { (readings.new.bytes ≡ readings.old.bytes) × (readings.new.place ≡ readings.old.place + 3) }
    ensures ties { (ties.new.bytes ≡ ties.old.bytes) × (ties.new.place ≡ ties.old.place + 4) }
    ensures record_of_both { result ≡ surveyed_record top (number_at readings.old.bytes.now readings.old.place) (class_at readings.old.bytes.now readings.old.place) (tie_numbers ties.old.bytes.now ties.old.place) }
{
    let (reading, class) = readings.reading_entry().unwrap();
    let (right, down) = ties.ties_entry().unwrap();
    Cell {
        reading,
        class,
        right,
        down,
        high: top,
        ..Cell::default()
    }
}

// Writes every record, from the file's two sections.
pub(crate) fn lay(shape: Shape, readings: &[u8], ties: &[u8], tile: &mut [Cell])
    requires file { Holds shape readings.now ties.now }
    requires tile { cells shape ≤ length tile.old }
    ensures { tile.new ≡ rewritten (cells shape) (cell_record shape.top (entries_survey readings.now ties.now)) tile.old }
{
    let mut from_readings = Reader::new(readings);
    let mut from_ties = Reader::new(ties);
    from_readings
        .count(Section::Readings, shape.cells())
        .unwrap();
    from_ties.count(Section::Ties, shape.cells()).unwrap();
    for cell in 0..shape.cells() {
        tile[cell] = next_record(shape.top(), &mut from_readings, &mut from_ties);
    }
}
