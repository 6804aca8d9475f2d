// The charges of a round.
ghost use Rattle.std.specs.Prelude.{◌≡◌, ◌*◌, ◌<◌, ◌≤◌, pos, ◌-ℤ◌, unsigned_abs};
ghost use Rattle.limits.specs.Limits.{most_charge, most_tie};
ghost use Rattle.price.specs.Rules.{stepped};
ghost use Rattle.theory.specs.Brackets.{middle, lies_below, tied_to};
ghost use Rattle.tile.specs.Shapes.{cells};
ghost use Rattle.flow.specs.Networks.{weighted, brackets};
ghost use Rattle.flow.specs.Points.{Cuttable};
ghost use Rattle.passes.specs.Pulls.{pull, pull_ahead, pull_behind, pull_over};
ghost use Rattle.tile.specs.Records.{recharged};
ghost use Rattle.passes.specs.Rounds.{charge_in, charged, Chargeable};

use price::PriceRule;
use tile::{Cell, Shape, Side};

// What a tie adds to the charge of the cell `here`: its weight where the bracket of its other cell lies below, minus its
// weight where that lies above.
fn pull(here: &Cell, there: &Cell, weight: u16) -> i32
    ensures value { result ≡ pull here.now there.now weight }
    ensures few { unsigned_abs result ≤ weight }
{
    let lower = if there.high < here.low { weight } else { 0 };
    let higher = if here.high < there.low { weight } else { 0 };
    i32::from(lower) - i32::from(higher)
}

// What the height past the middle of a cell's bracket costs more than the middle.
fn middle_step<P: PriceRule>(rule: &P, cell: &Cell) -> i32
    ensures { result ≡ stepped (P.PriceRule.rule rule.now) cell.now.reading cell.now.class (middle cell.now.low cell.now.high) }
{
    rule.step(cell.reading, cell.class, cell.bracket().middle())
}

// A cell to charge, among the records of its tile.
#[derive(Clone, Copy)]
struct Place<'a> {
    shape: Shape,
    tile: &'a [Cell],
    at: usize,
    ghost fit: { Chargeable shape tile.now },
    ghost inside: { at < cells shape },
}

impl<'a> Place<'a> {
    // What the tie adds that the cell's own record stores on a side. At the end of a row the next cell is no neighbour, but
    // then the tie weighs 0 and adds nothing.
    fn pull_ahead(&self, side: Side) -> i32
        ensures value { result ≡ pull_ahead self.now.shape self.now.tile.now side self.now.at }
        ensures few { unsigned_abs result ≤ most_tie }
    {
        let here = &self.tile[self.at];
        let other = self.at + side.offset(self.shape.columns());
        if other < self.shape.cells() {
            pull(here, &self.tile[other], here.tie(side))
        } else {
            0
        }
    }

    // What the tie adds that the record before the cell's stores on that side. At the start of a row that record ends another
    // row, and its tie weighs 0.
    fn pull_behind(&self, side: Side) -> i32
        ensures value { result ≡ pull_behind self.now.shape self.now.tile.now side self.now.at }
        ensures few { unsigned_abs result ≤ most_tie }
    {
        let step = side.offset(self.shape.columns());
        if self.at >= step {
            let other = &self.tile[self.at - step];
            pull(&self.tile[self.at], other, other.tie(side))
        } else {
            0
        }
    }

    // What both ties add.
    fn pull_over(&self, side: Side) -> i32
        ensures value { result ≡ pull_over self.now.shape self.now.tile.now side self.now.at }
        ensures few { unsigned_abs result ≤ 2 * most_tie }
    {
        self.pull_ahead(side) + self.pull_behind(side)
    }

    // What the ties of the cell add to its charge: those to cells with a lower bracket, minus those to cells with a higher one.
    fn pulls(&self) -> i32
        ensures value { result ≡ pos (tied_to (weighted self.now.shape self.now.tile.now) self.now.at (λ v. lies_below (brackets self.now.tile.now) v self.now.at)) -ℤ pos (tied_to (weighted self.now.shape self.now.tile.now) self.now.at (λ v. lies_below (brackets self.now.tile.now) self.now.at v)) }
        ensures few { unsigned_abs result ≤ 4 * most_tie }
    {
        self.pull_over(Side::Rightward) + self.pull_over(Side::Downward)
    }

    // The charge of the cell: 0 where it is settled, else its step at the middle plus its pulls.
    fn charge<P: PriceRule>(&self, rule: &P) -> i32
        requires { self.now.shape.top ≤ (P.PriceRule.rule rule.now).greatest }
        ensures value { result ≡ charge_in (P.PriceRule.rule rule.now) self.now.shape self.now.tile.now self.now.at }
        ensures few { unsigned_abs result ≤ most_charge }
    {
        let here = &self.tile[self.at];
        if here.bracket().is_settled() {
            return 0;
        }
        middle_step(rule, here) + self.pulls()
    }
}

// The record with its charge written, and flows, mark and rank at 0.
fn recharged(cell: Cell, charge: i32) -> Cell
    ensures { result ≡ recharged charge cell }
{
    Cell {
        right_flow: 0,
        down_flow: 0,
        charge,
        mark: 0,
        rank: 0,
        ..cell
    }
}

// Writes the charge of every cell, and flows, marks and ranks at 0.
pub fn charge<P: PriceRule>(rule: &P, shape: Shape, tile: &mut [Cell])
    requires fit { Chargeable shape tile.old }
    requires reach { shape.top ≤ (P.PriceRule.rule rule.now).greatest }
    ensures value { tile.new ≡ charged (P.PriceRule.rule rule.now) shape tile.old }
    ensures cuttable { Cuttable shape tile.new }
{
    // An index: the charge of a record depends on its neighbours, before and behind it.
    for at in 0..shape.cells() {
        let charge = Place { shape, tile, at }.charge(rule);
        tile[at] = recharged(tile[at], charge);
    }
}
