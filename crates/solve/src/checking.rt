// The checks of samples, all before the first write.
ghost use Rattle.std.specs.Prelude.{◌≡◌, ◌<◌, ◌≤◌, length, IsOkAnd};
ghost use Rattle.limits.specs.Limits.{most_rows};
ghost use Rattle.tile.specs.Shapes.{cells, MadeOf};
ghost use Rattle.filter.specs.Checks.{StartChecked};
ghost use Rattle.solve.specs.Solving.{RoundsChecked};
ghost use Rattle.solve.specs.Surveying.{SampleChecked, SamplesChecked, SurveyChecked};

use crate::samples::{Sample, SamplesRefusal, sample_of};
use limits::Refusal;
use passes::{are_ties_sound, is_reading_sound};
use tile::Shape;

// The shape that is asked for, if there are records enough for it.
fn shape_of(rows: usize, columns: usize, top: u16, records: usize) -> Result<Shape, Refusal>
    ensures { StartChecked rows columns top records (λ e. result ≡ Err e) (IsOkAnd result (MadeOf most_rows rows columns top)) }
{
    let shape = Shape::new(rows, columns, top)?;
    if records < shape.cells() {
        return Err(Refusal::FewRecords);
    }
    Ok(shape)
}

// May the sample be written into the cell?
fn check_sample(shape: Shape, cell: usize, sample: Sample) -> Result<(), Refusal>
    requires { cell < cells shape }
    ensures { SampleChecked shape cell sample (λ e. result ≡ Err e) (result ≡ Ok tt) }
{
    if !is_reading_sound(shape.top(), sample.reading, sample.class) {
        return Err(Refusal::Reading);
    }
    if !are_ties_sound(shape, cell, sample.right, sample.down) {
        return Err(Refusal::Tie);
    }
    Ok(())
}

// May the samples be written into the cells?
fn check_samples(shape: Shape, samples: &[Sample]) -> Result<(), Refusal>
    requires { cells shape ≤ length samples.now }
    ensures { SamplesChecked shape samples.now (cells shape) (λ e. result ≡ Err e) (result ≡ Ok tt) }
{
    for cell in 0..shape.cells() {
        check_sample(shape, cell, sample_of(samples, cell))?;
    }
    Ok(())
}

// Do entries and rule suffice for rounds?
fn check_rounds(shape: Shape, entries: usize, greatest: u16) -> Result<(), Refusal>
    ensures { RoundsChecked shape entries greatest (λ e. result ≡ Err e) (result ≡ Ok tt) }
{
    if entries < shape.cells() {
        return Err(Refusal::FewEntries);
    }
    if greatest < shape.top() {
        return Err(Refusal::Ceiling);
    }
    Ok(())
}

// May the samples be solved in so many records, with so many entries of workspace, under a rule of this greatest level?
pub(crate) fn check_survey(
    rows: usize,
    columns: usize,
    top: u16,
    samples: &[Sample],
    records: usize,
    entries: usize,
    greatest: u16,
) -> Result<(), SamplesRefusal>
    ensures { SurveyChecked rows columns top records samples.now entries greatest (λ e. result ≡ Err e) (λ _. result ≡ Ok tt) }
{
    let shape = shape_of(rows, columns, top, records)?;
    if samples.len() < shape.cells() {
        return Err(SamplesRefusal::FewSamples);
    }
    check_samples(shape, samples)?;
    check_rounds(shape, entries, greatest)?;
    Ok(())
}
