// One push.
ghost use Rattle.std.specs.Prelude.{◌≡◌, ◌*◌, ◌<◌, ◌≤◌, length, unsigned_abs};
ghost use Rattle.limits.specs.Limits.{most_tie};
ghost use Rattle.tile.specs.Records.{stored_flow};
ghost use Rattle.tile.specs.Tiles.{cell};
ghost use Rattle.flow.specs.Sides.{add_flow};

use crate::direction::Direction;
use crate::flows::Flows;
use tile::{Cell, Side};

// Adds to one flow.
fn raise(tile: &mut [Cell], a: usize, side: Side, more: i32)
    requires { (a < length tile.old) × ((unsigned_abs (stored_flow (cell tile.old a) side) ≤ most_tie) × (unsigned_abs more ≤ 2 * most_tie)) }
    ensures { tile.new ≡ add_flow tile.old side a more }
{
    let cell = &mut tile[a];
    match side {
        Side::Rightward => cell.right_flow += more,
        Side::Downward => cell.down_flow += more,
    }
}

impl<'a> Flows<'a> {
    ghost use Rattle.std.specs.Prelude.{Some, pos, ◌≤ℤ◌, ◌<ℤ◌};
    ghost use Rattle.flow.specs.Sides.{beside, found_beside, room, pushed, what_fits, Given, Sent};
    ghost use Rattle.flow.specs.Lent.{SameRows};

    // f more out of u to v, which lies in a direction.
    fn push(&mut self, u: usize, v: usize, toward: Direction, f: i32)
        requires place { u < length self.old.tile.now }
        requires beside { Some v ≡ found_beside self.old.columns (length self.old.tile.now) toward u }
        requires some { pos 0 <ℤ f }
        requires fits { f ≤ℤ room self.old.tile.now self.old.columns toward u }
        requires few { unsigned_abs f ≤ 2 * most_tie }
        ensures rows { SameRows self.old self.new }
        ensures pushed { self.new.tile.now ≡ pushed self.old.tile.now self.old.columns toward u f }
    {
        let (storing, _) = toward.storing_first(u, v);
        raise(self.tile, storing, toward.side(), toward.flow_out(f));
    }

    // How much can be sent out of u to v, which lies in a direction: no more than v has in surplus, than is asked for, and than
    // there is room for.
    #[tactic(auto, using(crate::proofs::Pushes::as_handed_over))]
    fn what_fits(&self, u: usize, v: usize, toward: Direction, most: i32) -> i32
        requires place { (u < length self.now.tile.now) × (v < length self.now.tile.now) }
        requires beside { v ≡ beside self.now.columns toward u }
        ensures value { result ≡ what_fits self.now.tile.now self.now.columns toward u most }
        ensures few { result ≤ℤ pos (2 * most_tie) }
    {
        self.remainder(v).min(most).min(self.room(u, toward))
    }

    /// Moves what fits out of u in a direction, at most `most`, and no more than the cell there has in surplus.
    /// Answers whether any moved.
    pub fn send(&mut self, u: usize, toward: Direction, most: i32) -> bool
        requires place { u < length self.old.tile.now }
        requires some { pos 0 <ℤ most }
        ensures rows { SameRows self.old self.new }
        ensures amount { Given self.old.columns toward u (what_fits self.old.tile.now self.old.columns toward u most) self.old.tile.now self.new.tile.now result }
        ensures sent { Sent self.old.columns toward u self.old.tile.now self.new.tile.now result }
    {
        let Some(v) = self.beside(u, toward) else {
            return false;
        };
        let f = self.what_fits(u, v, toward, most);
        if f <= 0 {
            return false;
        }
        self.push(u, v, toward, f);
        true
    }
}
