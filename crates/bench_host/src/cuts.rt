// One cut of a charged tile, by either maker. The entries of augmenting paths are no plain numbers, so C cannot own them: they lie on
// the stack.
ghost use Rattle.std.specs.Prelude.{◌≡◌, ◌↔◌, IsTrue, length, negsuc};
ghost use Rattle.flow.specs.Points.{FourPoints};
ghost use Rattle.bench_host.specs.Calls.{most_strip_cells, MayBeCut, CutDoes};

use crate::codes::{DONE, REFUSED};
use cut::{AugmentingPaths, PushRelabel, Step};
use flow::{CutMaker, is_cuttable, run_cut};
use limits::{MAX_COLUMNS, MAX_STRIP_ROWS, MAX_TOP};
use tile::{Cell, Shape};

// Enough entries for any shape.
const ENTRIES: usize = MAX_STRIP_ROWS * MAX_COLUMNS;

// May a tile of this shape be cut with so many entries of workspace?
fn may_be_cut(shape: Shape, tile: &[Cell], entries: usize) -> bool
    ensures { IsTrue result ↔ MayBeCut shape tile.now entries }
{
    entries >= shape.cells() && is_cuttable(shape, tile)
}

// Cuts a tile of so many rows and columns once, if it may be cut.
fn cut<M: CutMaker>(
    maker: &M,
    rows: usize,
    columns: usize,
    tile: &mut [Cell],
    entries: &mut [M::Entry],
) -> i32
    ensures does { CutDoes (M.CutMaker.leaves maker.now) rows columns tile.old (length entries.old) result tile.new }
    ensures workspace { result ≡ negsuc 0 → entries.new ≡ entries.old }
{
    let Ok(shape) = Shape::of_strip(rows, columns, MAX_TOP) else {
        return REFUSED;
    };
    if !may_be_cut(shape, tile, entries.len()) {
        return REFUSED;
    }
    run_cut(maker, shape, tile, entries);
    DONE
}

/// Cuts a tile of up to 256 rows once, by push-relabel with its workspace.
#[unsafe(no_mangle)]
pub extern "C" fn bench_cut(
    rows: usize,
    columns: usize,
    tile: &mut [Cell],
    entries: &mut [u16],
) -> i32
    ensures does { CutDoes FourPoints rows columns tile.old (length entries.old) result tile.new }
    ensures workspace { result ≡ negsuc 0 → entries.new ≡ entries.old }
{
    cut(&PushRelabel, rows, columns, tile, entries)
}

/// Cuts a tile of up to 256 rows once, by augmenting paths.
#[unsafe(no_mangle)]
pub extern "C" fn bench_cut_by_paths(rows: usize, columns: usize, tile: &mut [Cell]) -> i32
    ensures { CutDoes FourPoints rows columns tile.old most_strip_cells result tile.new }
{
    let mut entries = [Step::default(); ENTRIES];
    cut(&AugmentingPaths, rows, columns, tile, &mut entries)
}
