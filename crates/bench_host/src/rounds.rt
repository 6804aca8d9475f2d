// One round, by either maker, on records that so many rounds have left. The state of the calls is not asked for: whoever measures may
// do the third round alone.
ghost use Rattle.std.specs.Prelude.{◌≡◌, ◌≤◌, ◌↔◌, IsTrue, length, negsuc};
ghost use Rattle.tile.specs.Shapes.{cells};
ghost use Rattle.flow.specs.Points.{FourPoints};
ghost use Rattle.passes.specs.Rounds.{Chargeable};
ghost use Rattle.filter.specs.Calls.{HalvedBy};
ghost use Rattle.tilefile.specs.Letters.{letter_rule};
ghost use Rattle.bench_host.specs.Calls.{most_cells, MayBeHalved, ShapeRoundDoes, RoundDoes};

use crate::codes::{DONE, REFUSED};
use cut::{AugmentingPaths, PushRelabel, Step};
use flow::{CutMaker, run_cut};
use limits::{MAX_COLUMNS, MAX_ROWS};
use passes::{charge, is_sound, narrow};
use price::PriceRule;
use tile::{Cell, Shape};
use tilefile::{Letter, LetterRule};

// Enough entries for any tile.
const ENTRIES: usize = MAX_ROWS * MAX_COLUMNS;

// Charges the tile, lets the maker cut it, and narrows every bracket.
#[tactic(auto, using(filter::proofs::Narrowing::cut_narrowable))]
fn halve<P: PriceRule, M: CutMaker>(
    rule: &P,
    maker: &M,
    shape: Shape,
    tile: &mut [Cell],
    entries: &mut [M::Entry],
)
    requires fit { Chargeable shape tile.old }
    requires reach { shape.top ≤ (P.PriceRule.rule rule.now).greatest }
    requires room { cells shape ≤ length entries.old }
    ensures { HalvedBy (P.PriceRule.rule rule.now) (M.CutMaker.leaves maker.now) shape tile.old tile.new }
{
    charge(rule, shape, tile);
    run_cut(maker, shape, tile, entries);
    narrow(shape, tile);
}

// May a round be done on these records, with so many entries of workspace?
fn may_be_halved(shape: Shape, done: u8, tile: &[Cell], entries: usize) -> bool
    ensures { IsTrue result ↔ MayBeHalved shape done tile.now entries }
{
    tile.len() >= shape.cells() && entries >= shape.cells() && is_sound(shape, done, tile)
}

// One round of a tile of this shape under the rule of a letter, if the records are sound after so many rounds.
fn round_shape<M: CutMaker>(
    maker: &M,
    shape: Shape,
    done: u8,
    letter: Letter,
    tile: &mut [Cell],
    entries: &mut [M::Entry],
) -> i32
    ensures does { ShapeRoundDoes (M.CutMaker.leaves maker.now) (letter_rule letter shape.top) shape done tile.old (length entries.old) result tile.new }
    ensures workspace { result ≡ negsuc 0 → entries.new ≡ entries.old }
{
    let rule = LetterRule::new(letter, shape.top()).unwrap();
    if !may_be_halved(shape, done, tile, entries.len()) {
        return REFUSED;
    }
    halve(&rule, maker, shape, tile, entries);
    DONE
}

// The same of a tile with so many rows and columns and this top, under the rule of the letter that the byte is.
fn round<M: CutMaker>(
    maker: &M,
    rows: usize,
    columns: usize,
    top: u16,
    done: u8,
    letter: u8,
    tile: &mut [Cell],
    entries: &mut [M::Entry],
) -> i32
    ensures does { RoundDoes (M.CutMaker.leaves maker.now) rows columns top done letter tile.old (length entries.old) result tile.new }
    ensures workspace { result ≡ negsuc 0 → entries.new ≡ entries.old }
{
    let Ok(shape) = Shape::new(rows, columns, top) else {
        return REFUSED;
    };
    let Ok(letter) = Letter::try_from(letter) else {
        return REFUSED;
    };
    round_shape(maker, shape, done, letter, tile, entries)
}

/// Does one round on records that so many rounds have left, by push-relabel with its workspace.
#[unsafe(no_mangle)]
pub extern "C" fn bench_round(
    rows: usize,
    columns: usize,
    top: u16,
    done: u8,
    letter: u8,
    tile: &mut [Cell],
    entries: &mut [u16],
) -> i32
    ensures does { RoundDoes FourPoints rows columns top done letter tile.old (length entries.old) result tile.new }
    ensures workspace { result ≡ negsuc 0 → entries.new ≡ entries.old }
{
    round(
        &PushRelabel,
        rows,
        columns,
        top,
        done,
        letter,
        tile,
        entries,
    )
}

/// Does one round on records that so many rounds have left, by augmenting paths.
#[unsafe(no_mangle)]
pub extern "C" fn bench_round_by_paths(
    rows: usize,
    columns: usize,
    top: u16,
    done: u8,
    letter: u8,
    tile: &mut [Cell],
) -> i32
    ensures { RoundDoes FourPoints rows columns top done letter tile.old most_cells result tile.new }
{
    let mut entries = [Step::default(); ENTRIES];
    round(
        &AugmentingPaths,
        rows,
        columns,
        top,
        done,
        letter,
        tile,
        &mut entries,
    )
}
