// The calls while rounds are done.
ghost use Rattle.std.specs.Prelude.{◌≡◌, ◌+◌, ◌<◌, ◌≤◌, length, IfOk};
ghost use Rattle.limits.specs.Limits.{most_rounds};
ghost use Rattle.tile.specs.Shapes.{cells};
ghost use Rattle.tile.specs.Tiles.{cell};
ghost use Rattle.passes.specs.Soundness.{Sound};
ghost use Rattle.passes.specs.Writing.{reset, rewritten};
ghost use Rattle.passes.specs.Rounds.{Chargeable};
ghost use Rattle.filter.specs.Calls.{HalvedBy, RoundDoes, FinishDoes, ReopenDoes, MarksSmallest, SurveyKept, KeptIfRefused};
ghost use Rattle.filter.specs.Runs.{draft, rounding, level, rounded, finished, reopened, GoesOn, GoesOnUnder};
ghost use Rattle.filter.specs.Laws.{EveryRunKeepsTheLaw};

use crate::answers::{Refused, Rounded};
use crate::states::checking::check_tile;
use crate::states::{Draft, Level, Rounding};
use flow::{CutMaker, run_cut};
use passes::{charge, narrow, reset};
use price::PriceRule;
use tile::{Cell, Shape};

// Charges the tile, lets the maker cut it, and narrows every bracket.
#[tactic(auto, using(crate::proofs::Narrowing::cut_narrowable))]
fn halve<P: PriceRule, M: CutMaker>(
    rule: &P,
    maker: &M,
    shape: Shape,
    tile: &mut [Cell],
    entries: &mut [M::Entry],
)
    requires fit { Chargeable shape tile.old }
    requires reach { shape.top ≤ (P.PriceRule.rule rule.now).greatest }
    requires room { cells shape ≤ length entries.old }
    ensures { HalvedBy (P.PriceRule.rule rule.now) (M.CutMaker.leaves maker.now) shape tile.old tile.new }
{
    charge(rule, shape, tile);
    run_cut(maker, shape, tile, entries);
    narrow(shape, tile);
}

// What an accepted round answers: one round more is done.
fn one_more(rounding: Rounding) -> Rounded
    requires { rounding.done < most_rounds }
    ensures shape { result.state.shape ≡ rounding.shape }
    ensures state { result.state.done ≡ rounding.done + 1 }
    ensures done { result.done ≡ rounding.done + 1 }
{
    let done = rounding.done + 1;
    Rounded {
        state: Rounding {
            shape: rounding.shape,
            done,
        },
        done,
    }
}

impl Rounding {
    /// How many rows the tile has.
    pub fn rows(&self) -> usize
        ensures { result ≡ self.now.shape.rows }
    {
        self.shape.rows()
    }

    /// How many columns the tile has.
    pub fn columns(&self) -> usize
        ensures { result ≡ self.now.shape.columns }
    {
        self.shape.columns()
    }

    /// The greatest height of the tile.
    pub fn top(&self) -> u16
        ensures { result ≡ self.now.shape.top }
    {
        self.shape.top()
    }

    /// Does one round under a price rule, by a cut maker with its workspace, and answers the rounds done. After an accepted
    /// round the workspace is free, and flows and ranks are free within what the maker may leave.
    pub fn round<P: PriceRule, M: CutMaker>(
        self,
        tile: &mut [Cell],
        rule: &P,
        maker: &M,
        entries: &mut [M::Entry],
    ) -> Result<Rounded, Refused<Rounding>>
        ensures does { RoundDoes (P.PriceRule.rule rule.now) (M.CutMaker.leaves maker.now) self tile.old (length entries.old) result tile.new }
        ensures smallest { MarksSmallest (P.PriceRule.rule rule.now) self.shape tile.old result tile.new }
        ensures kept { SurveyKept self.shape tile.old tile.new }
        ensures sound { IfOk result (λ a. Sound a.state.shape a.state.done tile.new) }
        ensures workspace { KeptIfRefused result entries.old entries.new }
        ensures goes_on { GoesOnUnder (P.PriceRule.rule rule.now) (rounding self) tile.old rounding (λ a. rounding a.state) rounded result tile.new }
        ensures law { EveryRunKeepsTheLaw }
    {
        if let Err(why) = self.check_round(tile, entries.len(), rule.greatest()) {
            return Err(Refused { state: self, why });
        }
        halve(rule, maker, self.shape, tile, entries);
        Ok(one_more(self))
    }

    /// Ends the rounds, once those due are done. Writes nothing.
    pub fn finish(self, tile: &[Cell]) -> Result<Level, Refused<Rounding>>
        ensures does { FinishDoes self tile.now result }
        ensures goes_on { GoesOn (rounding self) tile.now rounding level finished result tile.now }
        ensures law { EveryRunKeepsTheLaw }
    {
        if let Err(why) = self.check_finish(tile) {
            return Err(Refused { state: self, why });
        }
        Ok(Level {
            shape: self.shape,
            done: self.done,
        })
    }

    /// Gives the rounds up: keeps readings, classes and ties, and resets the rest as start does.
    pub fn reopen(self, tile: &mut [Cell]) -> Result<Draft, Refused<Rounding>>
        ensures does { ReopenDoes self self.shape self.done tile.old result tile.new }
        ensures goes_on { GoesOn (rounding self) tile.old rounding draft reopened result tile.new }
        ensures law { EveryRunKeepsTheLaw }
    {
        reopen(Draft { shape: self.shape }, self.done, tile, self)
    }
}

// Resets the records of a draft.
fn reset_draft(draft: &Draft, tile: &mut [Cell])
    requires { cells draft.now.shape ≤ length tile.old }
    ensures { tile.new ≡ rewritten (cells draft.now.shape) (λ u. reset draft.now.shape.top (cell tile.old u)) tile.old }
{
    reset(draft.shape, tile);
}

// Goes back to this draft from a state of its shape with so many rounds done.
pub(crate) fn reopen<S: Drop>(
    draft: Draft,
    done: u8,
    tile: &mut [Cell],
    state: S,
) -> Result<Draft, Refused<S>>
    ensures { ReopenDoes state draft.shape done tile.old result tile.new }
{
    if let Err(why) = check_tile(draft.shape, done, tile) {
        return Err(Refused { state, why });
    }
    reset_draft(&draft, tile);
    Ok(draft)
}
