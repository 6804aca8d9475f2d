// From a draft to its level: begin, the rounds due, and finish.
ghost use Rattle.std.specs.Prelude.{◌≡◌, length};
ghost use Rattle.tile.specs.Halving.{RoundsDue};
ghost use Rattle.tile.specs.Shapes.{cells};
ghost use Rattle.filter.specs.Calls.{SurveyKept, KeptIfRefused};
ghost use Rattle.filter.specs.Checks.{TileChecked};
ghost use Rattle.solve.specs.Solving.{RoundsChecked, Fit, Ready, Opened, RoundReady, RoundDone, RoundsReady, RoundsDone, RoundsBehind, Closed, Solved, EndsRuns, SolveDoes, SolvesRuns};

use filter::{Draft, Level, Refused, Rounding};
use flow::CutMaker;
use limits::Refusal;
use price::PriceRule;
use tile::Cell;
use tile::bracket::rounds_due;

// How many cells the draft has.
pub(crate) fn count_cells(draft: &Draft) -> usize
    ensures { result ≡ cells draft.now.shape }
{
    draft.rows() * draft.columns()
}

// How many rounds the draft is due.
fn due_rounds(draft: &Draft) -> u8
    ensures { RoundsDue draft.now.shape.top result }
{
    rounds_due(draft.top())
}

// May the draft be solved with so many entries of workspace, under a rule of this greatest level?
fn check(draft: &Draft, tile: &[Cell], entries: usize, greatest: u16) -> Result<(), Refusal>
    ensures { TileChecked draft.now.shape 0 tile.now (λ e. result ≡ Err e) (RoundsChecked draft.now.shape entries greatest (λ e. result ≡ Err e) (result ≡ Ok tt)) }
{
    draft.check(tile)?;
    if entries < count_cells(draft) {
        return Err(Refusal::FewEntries);
    }
    if greatest < draft.top() {
        return Err(Refusal::Ceiling);
    }
    Ok(())
}

// Closes the draft.
fn begin_rounds(draft: Draft, tile: &[Cell]) -> Rounding
    requires { Fit draft.shape 0 tile.now }
    ensures { Opened draft tile.now result }
{
    draft.begin(tile).unwrap()
}

// Does one round. Rule, maker and entries come one by one: a struct would hold the entries' `&mut`, and every contract would
// have to add that rule and maker stay.
fn do_round<P: PriceRule, M: CutMaker>(
    rounding: Rounding,
    tile: &mut [Cell],
    rule: &P,
    maker: &M,
    entries: &mut [M::Entry],
) -> Rounding
    requires { RoundReady (P.PriceRule.rule rule.now) rounding tile.old (length entries.old) }
    ensures kept { SurveyKept rounding.shape tile.old tile.new }
    ensures does { RoundDone (P.PriceRule.rule rule.now) (M.CutMaker.leaves maker.now) rounding tile.old result tile.new }
{
    rounding.round(tile, rule, maker, entries).unwrap().state
}

// Does the rounds due, from a state with none done.
fn do_rounds<P: PriceRule, M: CutMaker>(
    rounding: Rounding,
    due: u8,
    tile: &mut [Cell],
    rule: &P,
    maker: &M,
    entries: &mut [M::Entry],
) -> Rounding
    requires { RoundsReady (P.PriceRule.rule rule.now) rounding tile.old due (length entries.old) }
    ensures kept { SurveyKept rounding.shape tile.old tile.new }
    ensures does { RoundsDone (P.PriceRule.rule rule.now) (M.CutMaker.leaves maker.now) rounding tile.old due result tile.new }
{
    let mut state = rounding;
    for _round in 0..due {
        state = do_round(state, tile, rule, maker, entries);
    }
    state
}

// Ends the rounds, once they are over.
fn finish_rounds(rounding: Rounding, tile: &[Cell]) -> Level
    requires { RoundsBehind rounding tile.now }
    ensures { Closed rounding tile.now result }
{
    rounding.finish(tile).unwrap()
}

// Solves a draft that passed every check.
pub(crate) fn solve_checked<P: PriceRule, M: CutMaker>(
    draft: Draft,
    tile: &mut [Cell],
    rule: &P,
    maker: &M,
    entries: &mut [M::Entry],
) -> Level
    requires { Ready (P.PriceRule.rule rule.now) draft.shape 0 tile.old (length entries.old) }
    ensures kept { SurveyKept draft.shape tile.old tile.new }
    ensures solved { Solved (P.PriceRule.rule rule.now) (M.CutMaker.leaves maker.now) draft.shape tile.old result tile.new }
    ensures ends { EndsRuns (P.PriceRule.rule rule.now) draft tile.old result tile.new }
{
    let due = due_rounds(&draft);
    let rounding = begin_rounds(draft, tile);
    let rounding = do_rounds(rounding, due, tile, rule, maker, entries);
    finish_rounds(rounding, tile)
}

/// Solves a draft, whatever led to it: the low ends of the records become the lowest cheapest grid of the survey that they hold, by
/// the rounds due and the maker that is handed over. It is refused only for too few records or corrupt ones, for too few entries and
/// for a rule that does not reach the tile's top; then the draft is given back, and tile and workspace are as they were. Otherwise the
/// workspace is free.
pub fn solve<P: PriceRule, M: CutMaker>(
    draft: Draft,
    tile: &mut [Cell],
    rule: &P,
    maker: &M,
    entries: &mut [M::Entry],
) -> Result<Level, Refused<Draft>>
    ensures kept { SurveyKept draft.shape tile.old tile.new }
    ensures workspace { KeptIfRefused result entries.old entries.new }
    ensures does { SolveDoes (P.PriceRule.rule rule.now) (M.CutMaker.leaves maker.now) draft tile.old (length entries.old) result tile.new }
    ensures runs { SolvesRuns (P.PriceRule.rule rule.now) draft tile.old (length entries.old) result tile.new }
{
    if let Err(why) = check(&draft, tile, entries.len(), rule.greatest()) {
        return Err(Refused { state: draft, why });
    }
    Ok(solve_checked(draft, tile, rule, maker, entries))
}
