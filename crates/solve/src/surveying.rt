// From samples to a level: a draft is started, every cell is written, and the draft is solved.
//
// Each put and each tie checks the whole tile, so the time grows with the square of the number of cells: this is a small
// client of the calls, for small tiles.
ghost use Rattle.std.specs.Prelude.{◌≡◌, ◌+◌, ◌*◌, length, take};
ghost use Rattle.tile.specs.Shapes.{cells};
ghost use Rattle.filter.specs.Calls.{KeptIfRefused};
ghost use Rattle.solve.specs.Solving.{PastKept};
ghost use Rattle.solve.specs.Surveying.{At, sampled, SampleReady, WrittenTo, AllSound, SamplesDo};

use crate::checking::check_survey;
use crate::samples::{Sample, SamplesRefusal, sample_of};
use crate::solving::{count_cells, solve_checked};
use filter::{Draft, Level, start};
use flow::CutMaker;
use price::PriceRule;
use tile::Cell;

// The row and the column of a cell.
fn position(draft: &Draft, cell: usize) -> (usize, usize)
    ensures { At draft.now.shape cell result.0 result.1 }
{
    let columns = draft.columns();
    (cell / columns, cell % columns)
}

// Writes the sample of a cell: its reading and class, and its ties.
fn write_sample(draft: Draft, tile: &mut [Cell], samples: &[Sample], cell: usize) -> Draft
    requires { SampleReady draft tile.old samples.now cell }
    ensures same { result ≡ draft }
    ensures past { PastKept (cells draft.shape) tile.old tile.new }
    ensures written { WrittenTo draft tile.new (sampled (take (cell + 1) samples.now)) }
{
    let (row, column) = position(&draft, cell);
    let sample = sample_of(samples, cell);
    let draft = draft
        .put(tile, row, column, sample.reading, sample.class)
        .unwrap();
    draft
        .tie(tile, row, column, sample.right, sample.down)
        .unwrap()
}

// Writes the sample of each cell.
fn write_samples(draft: Draft, tile: &mut [Cell], samples: &[Sample]) -> Draft
    requires none { WrittenTo draft tile.old (sampled (take 0 samples.now)) }
    requires sound { AllSound draft.shape samples.now }
    ensures same { result ≡ draft }
    ensures past { PastKept (cells draft.shape) tile.old tile.new }
    ensures written { WrittenTo draft tile.new (sampled (take (cells draft.shape) samples.now)) }
{
    let cells = count_cells(&draft);
    let mut state = draft;
    for cell in 0..cells {
        state = write_sample(state, tile, samples, cell);
    }
    state
}

/// Solves the tile that the samples are, one for each cell, row by row; what comes after them is not read. The low ends of the tile
/// become the lowest cheapest grid of the samples. Every check comes before the first write: a refusal leaves tile and workspace as
/// they were. Otherwise the workspace is free, and so are flows and ranks within what the maker may leave in the last round.
pub fn solve_samples<P: PriceRule, M: CutMaker>(
    rows: usize,
    columns: usize,
    top: u16,
    samples: &[Sample],
    tile: &mut [Cell],
    rule: &P,
    maker: &M,
    entries: &mut [M::Entry],
) -> Result<Level, SamplesRefusal>
    ensures past { PastKept (rows * columns) tile.old tile.new }
    ensures workspace { KeptIfRefused result entries.old entries.new }
    ensures does { SamplesDo (P.PriceRule.rule rule.now) (M.CutMaker.leaves maker.now) rows columns top samples.now tile.old (length entries.old) result tile.new }
{
    let (records, room) = (tile.len(), entries.len());
    check_survey(rows, columns, top, samples, records, room, rule.greatest())?;
    let draft = start(rows, columns, top, tile).unwrap();
    let draft = write_samples(draft, tile, samples);
    Ok(solve_checked(draft, tile, rule, maker, entries))
}
