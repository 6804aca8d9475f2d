// What a tile file says: a first pass over its bytes checks them, a second one writes the records.
ghost use Rattle.std.specs.Prelude.{◌≡◌, ◌≤◌, [], length, take, IfOk};
ghost use Rattle.limits.specs.Limits.{most_rows};
ghost use Rattle.price.specs.Rules.{Rule};
ghost use Rattle.tile.specs.Shapes.{cells};
ghost use Rattle.passes.specs.Writing.{fresh, rewritten};
ghost use Rattle.filter.specs.Runs.{draft, Run};
ghost use Rattle.tilefile.specs.Survey.{entries_survey, Holds, Writable};
ghost use Rattle.tilefile.specs.Files.{FillDoes, LedTo};

use crate::fault::Fault;
use crate::laying::lay;
use crate::letter::Letter;
use crate::reader::Reader;
use filter::{Draft, start};
use limits::Refusal;
use tile::{Cell, Shape};

/// A file without a fault: its letter, its shape, and the file from its section Readings on and from Ties on.
#[derive(Clone, Copy)]
pub struct Contents<'a> {
    letter: Letter,
    shape: Shape,
    readings: &'a [u8],
    ties: &'a [u8],
    ghost whole: { Holds shape readings.now ties.now },
    ghost writable: { Writable shape (entries_survey readings.now ties.now) },
}

// A draft of the shape, which start accepts.
fn start_shape(shape: Shape, tile: &mut [Cell]) -> Draft
    requires rows { shape.rows ≤ most_rows }
    requires whole { cells shape ≤ length tile.old }
    ensures shape { result.shape ≡ shape }
    ensures writes { tile.new ≡ rewritten (cells shape) (λ _. fresh shape.top) tile.old }
    ensures begins { (rule : Rule) → Run rule result.shape [] (draft result) (take (cells result.shape) tile.new) }
{
    start(shape.rows(), shape.columns(), shape.top(), tile).unwrap()
}

impl<'a> Contents<'a> {
    ghost use Rattle.tilefile.specs.Contents.{CheckDoes, contents_survey};

    /// Checks a whole file, for so many records.
    pub fn check(bytes: &'a [u8], records: usize) -> Result<Contents<'a>, Fault>
        ensures { CheckDoes bytes.now records result }
    {
        let mut reader = Reader::new(bytes);
        let (letter, _shape) = reader.rule()?;
        let (shape, readings) = reader.shape(records)?;
        let ties = reader.cells(shape)?;
        Ok(Contents {
            letter,
            shape,
            readings,
            ties,
        })
    }

    /// The letter of the price rule.
    pub fn letter(&self) -> Letter
        ensures { result ≡ self.now.letter }
    {
        self.letter
    }

    /// The shape of the tile.
    pub fn shape(&self) -> Shape
        ensures { result ≡ self.now.shape }
    {
        self.shape
    }

    /// Writes the records, as start and then a put and a tie for every cell would, and answers the draft that they are.
    pub fn fill(&self, tile: &mut [Cell]) -> Result<Draft, Refusal>
        ensures does { FillDoes self.now.shape (contents_survey self.now) tile.old result tile.new }
        ensures ends_run { IfOk result (λ d. LedTo d (contents_survey self.now) tile.new) }
    {
        if tile.len() < self.shape.cells() {
            return Err(Refusal::FewRecords);
        }
        let draft = start_shape(self.shape, tile);
        lay(self.shape, self.readings, self.ties, tile);
        Ok(draft)
    }
}
