// Solving a tile file: from its bytes to the lowest cheapest grid.
ghost use Rattle.std.specs.Prelude.{◌≡◌, ◌≤◌, length};
ghost use Rattle.tile.specs.Halving.{RoundsDue};
ghost use Rattle.filter.specs.Calls.{KeptIfRefused};
ghost use Rattle.tile.specs.Shapes.{cells};
ghost use Rattle.tilefile.specs.Letters.{letter_rule};
ghost use Rattle.tilefile.specs.Contents.{contents_survey};
ghost use Rattle.solve.specs.Solving.{PastKept};
ghost use Rattle.report.specs.Solving.{SolvedAs, RecordsSolved, RoomChecked, SolveFileDoes};

use crate::refusing::FileRefusal;
use flow::CutMaker;
use price::PriceRule;
use solve::solve;
use tile::bracket::rounds_due;
use tile::{Cell, Shape};
use tilefile::{Contents, LetterRule};

/// What solving a file came to. The heights are the low ends of the records. Laid out as in C.
#[repr(C)]
#[derive(Clone, Copy, PartialEq, Eq, Debug)]
pub struct Solution {
    pub rows: usize,
    pub columns: usize,
    pub top: u16,
    /// How many rounds were done.
    pub rounds: u8,
    pub energy: u64,
}

// Is there an entry of workspace for each cell?
pub(crate) fn check_room(shape: Shape, entries: usize) -> Result<(), FileRefusal>
    ensures { RoomChecked shape entries (λ e. result ≡ Err e) (result ≡ Ok tt) }
{
    if entries < shape.cells() {
        return Err(FileRefusal::FewEntries);
    }
    Ok(())
}

// What is told of a tile of this shape whose heights cost so much.
fn solution_of(shape: Shape, energy: u64) -> Solution
    ensures rows { result.rows ≡ shape.rows }
    ensures columns { result.columns ≡ shape.columns }
    ensures top { result.top ≡ shape.top }
    ensures rounds { RoundsDue shape.top result.rounds }
    ensures energy { result.energy ≡ energy }
{
    Solution {
        rows: shape.rows(),
        columns: shape.columns(),
        top: shape.top(),
        rounds: rounds_due(shape.top()),
        energy,
    }
}

// Solves what a file says under a rule, where records and workspace suffice and the rule is made for the top.
fn solve_contents<P: PriceRule, M: CutMaker>(
    contents: &Contents,
    rule: &P,
    tile: &mut [Cell],
    maker: &M,
    entries: &mut [M::Entry],
) -> Solution
    requires records { cells contents.now.shape ≤ length tile.old }
    requires room { cells contents.now.shape ≤ length entries.old }
    requires reach { (P.PriceRule.rule rule.now).greatest ≡ contents.now.shape.top }
    ensures records { RecordsSolved (P.PriceRule.rule rule.now) (M.CutMaker.leaves maker.now) contents.now.shape (contents_survey contents.now) result.rounds tile.old tile.new }
    ensures solved { SolvedAs (P.PriceRule.rule rule.now) contents.now.shape (contents_survey contents.now) tile.new result }
    ensures kept { PastKept (cells contents.now.shape) tile.old tile.new }
{
    let draft = contents.fill(tile).unwrap();
    let level = solve(draft, tile, rule, maker, entries).unwrap();
    let energy = level.cost(tile, rule).unwrap();
    solution_of(contents.shape(), energy)
}

// The same under the rule of the file's letter.
pub(crate) fn solve_by_letter<M: CutMaker>(
    contents: &Contents,
    tile: &mut [Cell],
    maker: &M,
    entries: &mut [M::Entry],
) -> Solution
    requires records { cells contents.now.shape ≤ length tile.old }
    requires room { cells contents.now.shape ≤ length entries.old }
    ensures records { RecordsSolved (letter_rule contents.now.letter contents.now.shape.top) (M.CutMaker.leaves maker.now) contents.now.shape (contents_survey contents.now) result.rounds tile.old tile.new }
    ensures solved { SolvedAs (letter_rule contents.now.letter contents.now.shape.top) contents.now.shape (contents_survey contents.now) tile.new result }
    ensures kept { PastKept (cells contents.now.shape) tile.old tile.new }
{
    let rule = LetterRule::new(contents.letter(), contents.shape().top()).unwrap();
    solve_contents(contents, &rule, tile, maker, entries)
}

/// Solves a tile file: reads it into the records, and makes their low ends the lowest cheapest grid of what the file says, under the
/// rule of its letter. It is refused for a fault of the file, and for fewer entries of workspace than the tile has cells. Otherwise the
/// records are those at the end of a finished run; flows and ranks are free within what the maker may leave in the last round, and the
/// workspace is free.
pub fn solve_file<M: CutMaker>(
    bytes: &[u8],
    tile: &mut [Cell],
    maker: &M,
    entries: &mut [M::Entry],
) -> Result<Solution, FileRefusal>
    ensures does { SolveFileDoes (M.CutMaker.leaves maker.now) bytes.now tile.old (length entries.old) result tile.new }
    ensures workspace { KeptIfRefused result entries.old entries.new }
{
    let contents = Contents::check(bytes, tile.len())?;
    check_room(contents.shape(), entries.len())?;
    Ok(solve_by_letter(&contents, tile, maker, entries))
}
