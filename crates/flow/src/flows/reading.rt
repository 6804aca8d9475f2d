// Remainders and residual arcs.
ghost use Rattle.std.specs.Prelude.{◌≡◌, ◌+◌, ◌-◌, ◌*◌, ◌<◌, ◌≤◌, length, pos, ◌+ℤ◌, ◌-ℤ◌, if◌then◌else◌, false, int_lt, nat_le, unsigned_abs};
ghost use Rattle.limits.specs.Limits.{most_charge, most_tie};
ghost use Rattle.tile.specs.Records.{stored_tie, stored_flow};
ghost use Rattle.tile.specs.Ties.{offset};
ghost use Rattle.tile.specs.Tiles.{cell};
ghost use Rattle.flow.specs.Sides.{remains, room, side_of, flow_out, found_beside, live_pair};

use crate::direction::Direction;
use crate::flows::{Flows, FlowsView};
use tile::Side;

// What leaves, less what enters.
fn balance(out: i32, left: i32, up: i32) -> i32
    requires out { unsigned_abs out ≤ most_charge + 2 * most_tie }
    requires left { unsigned_abs left ≤ most_tie }
    requires up { unsigned_abs up ≤ most_tie }
    ensures value { result ≡ out -ℤ left -ℤ up }
    ensures few { unsigned_abs result ≤ most_charge + 4 * most_tie }
{
    out - left - up
}

impl<'a> FlowsView<'a> {
    // What enters a cell over the tie that the record before it stores on a side; 0 where there is none.
    fn entering(&self, u: usize, side: Side) -> i32
        requires { u < length self.now.tile.now }
        ensures value { result ≡ (if nat_le (offset self.now.columns side) u then stored_flow (cell self.now.tile.now (u - offset self.now.columns side)) side else pos 0) }
        ensures few { unsigned_abs result ≤ most_tie }
    {
        let (tile, step) = (self.tile, side.offset(self.columns));
        if u >= step {
            tile[u - step].flow(side)
        } else {
            0
        }
    }

    // The charge of a cell, and what leaves it to the right and down.
    fn supply(&self, u: usize) -> i32
        requires { u < length self.now.tile.now }
        ensures value { result ≡ (cell self.now.tile.now u).charge +ℤ (cell self.now.tile.now u).right_flow +ℤ (cell self.now.tile.now u).down_flow }
        ensures few { unsigned_abs result ≤ most_charge + 2 * most_tie }
    {
        let here = self.tile[u];
        here.charge + here.right_flow + here.down_flow
    }

    /// The remainder of a cell: its charge, plus what leaves it, minus what enters it.
    pub fn remainder(&self, u: usize) -> i32
        requires { u < length self.now.tile.now }
        ensures value { result ≡ remains self.now.tile.now self.now.columns u }
        ensures few { unsigned_abs result ≤ most_charge + 4 * most_tie }
    {
        let out = self.supply(u);
        let left = self.entering(u, Side::Rightward);
        let up = self.entering(u, Side::Downward);
        balance(out, left, up)
    }

    /// Is a cell in deficit?
    pub fn in_deficit(&self, u: usize) -> bool
        requires { u < length self.now.tile.now }
        ensures { result ≡ int_lt (remains self.now.tile.now self.now.columns u) (pos 0) }
    {
        self.remainder(u) < 0
    }

    /// Is a cell in surplus?
    pub fn in_surplus(&self, u: usize) -> bool
        requires { u < length self.now.tile.now }
        ensures { result ≡ int_lt (pos 0) (remains self.now.tile.now self.now.columns u) }
    {
        self.remainder(u) > 0
    }

    /// The cell in a direction, where there is a record.
    pub fn beside(&self, u: usize, toward: Direction) -> Option<usize>
        requires { u < length self.now.tile.now }
        ensures { result ≡ found_beside self.now.columns (length self.now.tile.now) toward u }
    {
        let count = self.tile.len();
        match toward {
            Direction::Right => Some(u + 1).filter(|v| *v < count),
            Direction::Down => Some(u + self.columns).filter(|v| *v < count),
            Direction::Left => u.checked_sub(1),
            Direction::Up => u.checked_sub(self.columns),
        }
    }

    // How much more the tie from a to b takes in a direction along it; none where it is not live.
    fn slack(&self, a: usize, b: usize, toward: Direction) -> i32
        requires { (a < length self.now.tile.now) × (b < length self.now.tile.now) }
        ensures value { result ≡ (if live_pair self.now.tile.now a b then pos (stored_tie (cell self.now.tile.now a) (side_of toward)) -ℤ flow_out toward (stored_flow (cell self.now.tile.now a) (side_of toward)) else pos 0) }
        ensures few { unsigned_abs result ≤ 2 * most_tie }
    {
        let (tile, side) = (self.tile, toward.side());
        if tile[a].shares_bracket(&tile[b]) {
            i32::from(tile[a].tie(side)) - toward.flow_out(tile[a].flow(side))
        } else {
            0
        }
    }

    /// The room of the residual arc out of u in a direction: 0 where there is no tie or it is not live.
    pub fn room(&self, u: usize, toward: Direction) -> i32
        requires { u < length self.now.tile.now }
        ensures value { result ≡ room self.now.tile.now self.now.columns toward u }
        ensures few { unsigned_abs result ≤ 2 * most_tie }
    {
        let Some(v) = self.beside(u, toward) else {
            return 0;
        };
        let (a, b) = toward.storing_first(u, v);
        self.slack(a, b, toward)
    }

    // Does the tie from a to b take more in a direction along it?
    fn has_slack(&self, a: usize, b: usize, toward: Direction) -> bool
        requires { (a < length self.now.tile.now) × (b < length self.now.tile.now) }
        ensures { result ≡ (if live_pair self.now.tile.now a b then int_lt (flow_out toward (stored_flow (cell self.now.tile.now a) (side_of toward))) (pos (stored_tie (cell self.now.tile.now a) (side_of toward))) else false) }
    {
        let (tile, side) = (self.tile, toward.side());
        let live = tile[a].shares_bracket(&tile[b]);
        live & (toward.flow_out(tile[a].flow(side)) < i32::from(tile[a].tie(side)))
    }

    /// Does a residual arc lead out of u in a direction? Written without a branch, as a search would have it guessed wrong too often.
    pub fn is_residual(&self, u: usize, toward: Direction) -> bool
        requires { u < length self.now.tile.now }
        ensures { result ≡ int_lt (pos 0) (room self.now.tile.now self.now.columns toward u) }
    {
        let beside = self.beside(u, toward);
        let (a, b) = toward.storing_first(u, beside.unwrap_or(u));
        beside.is_some() & self.has_slack(a, b, toward)
    }
}

impl<'a> Flows<'a> {
    // The same flows, to be read.
    fn view(&self) -> FlowsView<'_>
        ensures tile { result.tile.now ≡ self.now.tile.now }
        ensures columns { result.columns ≡ self.now.columns }
    {
        FlowsView {
            tile: &*self.tile,
            columns: self.columns,
        }
    }

    /// The remainder of a cell: its charge, plus what leaves it, minus what enters it.
    pub fn remainder(&self, u: usize) -> i32
        requires { u < length self.now.tile.now }
        ensures value { result ≡ remains self.now.tile.now self.now.columns u }
        ensures few { unsigned_abs result ≤ most_charge + 4 * most_tie }
    {
        self.view().remainder(u)
    }

    /// Is a cell in deficit?
    pub fn in_deficit(&self, u: usize) -> bool
        requires { u < length self.now.tile.now }
        ensures { result ≡ int_lt (remains self.now.tile.now self.now.columns u) (pos 0) }
    {
        self.view().in_deficit(u)
    }

    /// Is a cell in surplus?
    pub fn in_surplus(&self, u: usize) -> bool
        requires { u < length self.now.tile.now }
        ensures { result ≡ int_lt (pos 0) (remains self.now.tile.now self.now.columns u) }
    {
        self.view().in_surplus(u)
    }

    /// The cell in a direction, where there is a record.
    pub fn beside(&self, u: usize, toward: Direction) -> Option<usize>
        requires { u < length self.now.tile.now }
        ensures { result ≡ found_beside self.now.columns (length self.now.tile.now) toward u }
    {
        self.view().beside(u, toward)
    }

    /// The room of the residual arc out of u in a direction: 0 where there is no tie or it is not live.
    pub fn room(&self, u: usize, toward: Direction) -> i32
        requires { u < length self.now.tile.now }
        ensures value { result ≡ room self.now.tile.now self.now.columns toward u }
        ensures few { unsigned_abs result ≤ 2 * most_tie }
    {
        self.view().room(u, toward)
    }

    /// Does a residual arc lead out of u in a direction?
    pub fn is_residual(&self, u: usize, toward: Direction) -> bool
        requires { u < length self.now.tile.now }
        ensures { result ≡ int_lt (pos 0) (room self.now.tile.now self.now.columns toward u) }
    {
        self.view().is_residual(u, toward)
    }
}
