// The smallest run that is finished.
ghost use Rattle.std.specs.Prelude.{◌≡◌, ◌≤◌, Ok, Err, length};
ghost use Rattle.limits.specs.declared.refusal.Refusal.TheVariants.{FewRecords, FewEntries};
ghost use Rattle.limits.specs.Checking.{Checked};
ghost use Rattle.filter.specs.Calls.{KeptIfRefused};
ghost use Rattle.solve.specs.Solving.{PastKept};
ghost use Rattle.cases.specs.OneCell.{started, OneCellStarted, OneCellSolved, OneCellDoes};

use crate::outside::try_outside;
use filter::{Draft, Level, start};
use flow::CutMaker;
use limits::Refusal;
use price::PriceRule;
use solve::solve;
use tile::Cell;

// Is there a record, and an entry of workspace?
fn check(records: usize, entries: usize) -> Result<(), Refusal>
    ensures { Checked 2 FewRecords (1 ≤ records) (λ e. result ≡ Err e) (Checked 7 FewEntries (1 ≤ entries) (λ e. result ≡ Err e) (result ≡ Ok tt)) }
{
    if records == 0 {
        return Err(Refusal::FewRecords);
    }
    if entries == 0 {
        return Err(Refusal::FewEntries);
    }
    Ok(())
}

// Starts a tile of one cell with top 1.
fn start_one_cell(tile: &mut [Cell]) -> Draft
    requires { 1 ≤ length tile.old }
    ensures past { PastKept 1 tile.old tile.new }
    ensures writes { tile.new ≡ started tile.old }
    ensures begun { OneCellStarted result tile.new }
{
    start(1, 1, 1, tile).unwrap()
}

// Solves the draft, by the maker.
fn solve_one_cell<P: PriceRule, M: CutMaker>(
    draft: Draft,
    tile: &mut [Cell],
    rule: &P,
    maker: &M,
    entries: &mut [M::Entry],
) -> Level
    requires begun { OneCellStarted draft tile.old }
    requires room { 1 ≤ length entries.old }
    ensures past { PastKept 1 tile.old tile.new }
    ensures solved { OneCellSolved (P.PriceRule.rule rule.now) (M.CutMaker.leaves maker.now) tile.old result tile.new }
{
    solve(draft, tile, rule, maker, entries).unwrap()
}

/// Starts a tile of one cell with top 1, has one put refused, and solves it by the maker that is handed over. So for every rule and
/// every maker there is a run that is finished: the law of runs is not empty for any of them. The put that is refused on the way shows
/// in no contract of this function, since a history has accepted calls only. It is refused only where there is no record or no entry
/// of workspace; that is checked before the first write, and a refusal leaves records and workspace as they were.
pub fn finish_one_cell<P: PriceRule, M: CutMaker>(
    tile: &mut [Cell],
    rule: &P,
    maker: &M,
    entries: &mut [M::Entry],
) -> Result<Level, Refusal>
    ensures past { PastKept 1 tile.old tile.new }
    ensures workspace { KeptIfRefused result entries.old entries.new }
    ensures does { OneCellDoes (P.PriceRule.rule rule.now) (M.CutMaker.leaves maker.now) tile.old (length entries.old) result tile.new }
{
    check(tile.len(), entries.len())?;
    let draft = start_one_cell(tile);
    let draft = try_outside(draft, tile);
    Ok(solve_one_cell(draft, tile, rule, maker, entries))
}
