// What is done before any search: surplus cells get what deficit cells beside them can give.
ghost use Rattle.std.specs.Prelude.{◌<◌, ◌↔◌, IsTrue, length};
ghost use Rattle.flow.specs.Sides.{Eased};
ghost use Rattle.cut.specs.Lent.{InPlace};
ghost use Rattle.cut.specs.Climbs.{Taker};

use flow::{Direction, Flows};

// A deficit cell gives to the cell in one direction what that has in surplus, at most what it lacks itself.
fn give(flows: &mut Flows, u: usize, toward: Direction)
    requires { u < length flows.old.tile.now }
    ensures { InPlace Eased flows.old flows.new }
{
    let left = flows.remainder(u);
    if left < 0 {
        let _ = flows.send(u, toward, -left);
    }
}

// Is the cell in a direction in surplus, with room to it? Written without a branch, as that comes out at random.
fn is_taker(flows: &Flows, u: usize, toward: Direction) -> bool
    requires { u < length flows.now.tile.now }
    ensures { IsTrue result ↔ Taker flows.now.columns flows.now.tile.now u toward }
{
    let v = flows.beside(u, toward).unwrap_or(u);
    flows.in_surplus(v) & flows.is_residual(u, toward)
}

// Gives in one direction, if that is wanted.
fn give_if(flows: &mut Flows, u: usize, toward: Direction, wanted: bool)
    requires { u < length flows.old.tile.now }
    ensures { InPlace Eased flows.old flows.new }
{
    if wanted {
        give(flows, u, toward);
    }
}

// A deficit cell gives in all directions, first to cells that were passed before: fewer others can still give to them.
fn give_all(flows: &mut Flows, u: usize)
    requires { u < length flows.old.tile.now }
    ensures { InPlace Eased flows.old flows.new }
{
    if !flows.in_deficit(u) {
        return;
    }
    let up = is_taker(flows, u, Direction::Up);
    let left = is_taker(flows, u, Direction::Left);
    let right = is_taker(flows, u, Direction::Right);
    let down = is_taker(flows, u, Direction::Down);
    if up | left | right | down {
        give_if(flows, u, Direction::Up, up);
        give_if(flows, u, Direction::Left, left);
        give_if(flows, u, Direction::Right, right);
        give_if(flows, u, Direction::Down, down);
    }
}

// Goes over all cells once.
pub(crate) fn pair_up(flows: &mut Flows)
    ensures { InPlace Eased flows.old flows.new }
{
    for u in 0..flows.tile.len() {
        give_all(flows, u);
    }
}
