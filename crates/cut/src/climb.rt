// The climb over ever higher ranks, from a surplus cell to a deficit cell.
ghost use Rattle.std.specs.Prelude.{◌<◌, length, pos, ◌<ℤ◌, IsTrue, ◌↔◌};
ghost use Rattle.flow.specs.Sides.{InSurplus, Eased};
ghost use Rattle.cut.specs.Ranks.{rank_of};
ghost use Rattle.cut.specs.Lent.{InPlace};
ghost use Rattle.cut.specs.Climbs.{RankedSurplus, FoundSurplus, FoundAbove, FoundHigherBeside, FoundHigher, Above, Relieved, Carries};

use flow::{Direction, Flows};

// Has a cell a rank while it is in surplus?
pub(crate) fn is_ranked_surplus(flows: &Flows, u: usize) -> bool
    requires { u < length flows.now.tile.now }
    ensures { IsTrue result ↔ RankedSurplus flows.now.columns flows.now.tile.now u }
{
    (flows.tile[u].rank > 0) & flows.in_surplus(u)
}

// The first surplus cell that has a rank.
pub(crate) fn first_surplus(flows: &Flows) -> Option<usize>
    ensures { FoundSurplus flows.now.columns flows.now.tile.now result }
{
    (0..flows.tile.len()).find(|u| is_ranked_surplus(flows, *u))
}

// The cell in a direction, if its rank is one higher.
pub(crate) fn above(flows: &Flows, v: usize, toward: Direction) -> Option<usize>
    requires { v < length flows.now.tile.now }
    ensures { FoundAbove flows.now.columns flows.now.tile.now v toward result }
{
    let u = flows.beside(v, toward)?;
    let (far, near) = (flows.tile[u].rank, flows.tile[v].rank);
    (u32::from(far) == u32::from(near) + 1).then_some(u)
}

// The cell in a direction, if its rank is one higher and it has room towards v.
fn higher_beside(flows: &Flows, v: usize, toward: Direction) -> Option<usize>
    requires { v < length flows.now.tile.now }
    ensures { FoundHigherBeside flows.now.columns flows.now.tile.now v toward result }
{
    let u = above(flows, v, toward)?;
    flows.is_residual(u, toward.opposite()).then_some(u)
}

// Such a cell, and the direction in which it lies.
pub(crate) fn higher(flows: &Flows, v: usize) -> Option<(usize, Direction)>
    requires { v < length flows.now.tile.now }
    ensures { FoundHigher flows.now.columns flows.now.tile.now v result }
{
    for toward in Direction::ALL {
        if let Some(u) = higher_beside(flows, v, toward) {
            return Some((u, toward));
        }
    }
    None
}

// Relieves a surplus cell by at most `most` from a cell one rank higher, that one from the next, and so on, until a
// deficit cell has given.
pub(crate) fn climb(flows: &mut Flows, from: usize, most: i32)
    requires place { from < length flows.old.tile.now }
    requires surplus { InSurplus flows.old.tile.now flows.old.columns from }
    requires some { pos 0 <ℤ most }
    ensures eased { InPlace Eased flows.old flows.new }
    ensures fewer { Above flows.old.columns flows.old.tile.now (rank_of flows.old.tile.now from) → InPlace Relieved flows.old flows.new }
{
    let mut v = from;
    while let Some((u, toward)) = higher(flows, v) {
        let deficit = flows.in_deficit(u);
        let _ = flows.send(u, toward.opposite(), most);
        if deficit {
            return;
        }
        v = u;
    }
}

// What a path to e over ever higher ranks can carry, where it comes to a deficit cell.
pub(crate) fn carry(flows: &Flows, e: usize) -> Option<i32>
    requires place { e < length flows.now.tile.now }
    requires surplus { InSurplus flows.now.tile.now flows.now.columns e }
    ensures { Carries flows.now.columns flows.now.tile.now e result }
{
    let mut f = flows.remainder(e);
    let mut v = e;
    while let Some((u, toward)) = higher(flows, v) {
        f = f.min(flows.room(u, toward.opposite()));
        let r = flows.remainder(u);
        if r < 0 {
            return Some(f.min(-r));
        }
        v = u;
    }
    None
}
