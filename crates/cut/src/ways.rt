// Ways over ever higher ranks, which marks keep until a cut is done: each cell on a way tells in which direction the cell before it lies,
// and in which the next one.
ghost use Rattle.std.specs.Prelude.{◌≡◌, ◌+◌, ◌*◌, ◌%◌, ◌<◌, length, pos, ◌<ℤ◌, IfSome};
ghost use Rattle.flow.specs.Sides.{Eased};
ghost use Rattle.flow.specs.Lent.{SameRows};
ghost use Rattle.flow.specs.declared.direction.Direction.{Direction as Way};
ghost use Rattle.cut.specs.Ranks.{mark_of, marked_at, direction_mark};
ghost use Rattle.cut.specs.Lent.{InPlace};

use flow::{Direction, Flows};

// The number that stands for a direction.
fn direction_mark(toward: Direction) -> u8
    ensures { result ≡ direction_mark toward }
{
    match toward {
        Direction::Right => 0,
        Direction::Down => 1,
        Direction::Left => 2,
        Direction::Up => 3,
    }
}

// The direction that a number stands for.
fn marked_direction(number: u8) -> Direction
    ensures { (h : Way) → number ≡ direction_mark h → result ≡ h }
{
    match number {
        0 => Direction::Right,
        1 => Direction::Down,
        2 => Direction::Left,
        _ => Direction::Up,
    }
}

// A way has come to v, and lies in this direction.
pub(crate) fn put_back(flows: &mut Flows, v: usize, back: Direction)
    requires { v < length flows.old.tile.now }
    ensures rows { SameRows flows.old flows.new }
    ensures marked { flows.new.tile.now ≡ marked_at flows.old.tile.now v (direction_mark back) }
{
    let tile = &mut *flows.tile;
    tile[v].mark = direction_mark(back);
}

// The way goes on from v in this direction.
pub(crate) fn put_onward(flows: &mut Flows, v: usize, onward: Direction)
    requires { v < length flows.old.tile.now }
    ensures rows { SameRows flows.old flows.new }
    ensures marked { flows.new.tile.now ≡ marked_at flows.old.tile.now v (mark_of flows.old.tile.now v % 4 + 4 * direction_mark onward) }
{
    let tile = &mut *flows.tile;
    tile[v].mark = tile[v].mark % 4 + 4 * direction_mark(onward);
}

// The cell from which a way came to v.
pub(crate) fn before(flows: &Flows, v: usize) -> Option<usize>
    requires { v < length flows.now.tile.now }
    ensures { IfSome result (λ u. u < length flows.now.tile.now) }
{
    flows.beside(v, marked_direction(flows.tile[v].mark % 4))
}

// The cell to which a way goes on from v, and the direction in which it lies.
fn after(flows: &Flows, v: usize) -> Option<(usize, Direction)>
    requires { v < length flows.now.tile.now }
    ensures { IfSome result (λ p. p.0 < length flows.now.tile.now) }
{
    let toward = marked_direction(flows.tile[v].mark / 4);
    Some((flows.beside(v, toward)?, toward))
}

// What the way from e can carry to it, where it comes to a deficit cell. The turns are counted, as nothing else bounds them.
fn carry_on(flows: &Flows, e: usize) -> Option<i32>
    requires { e < length flows.now.tile.now }
    ensures { IfSome result (λ f. pos 0 <ℤ f) }
{
    let mut f = flows.remainder(e);
    let mut v = e;
    for _ in 0..flows.tile.len() {
        let (u, toward) = after(flows, v)?;
        f = f.min(flows.room(u, toward.opposite()));
        let r = flows.remainder(u);
        if r < 0 {
            let carried = f.min(-r);
            return (carried > 0).then_some(carried);
        }
        v = u;
    }
    None
}

// Relieves e by at most `most` from the next cell of its way, that one from the one after it, and so on, until a deficit cell has given.
fn climb_on(flows: &mut Flows, e: usize, most: i32)
    requires place { e < length flows.old.tile.now }
    requires some { pos 0 <ℤ most }
    ensures { InPlace Eased flows.old flows.new }
{
    let mut v = e;
    for _ in 0..flows.tile.len() {
        let Some((u, toward)) = after(flows, v) else {
            return;
        };
        let deficit = flows.in_deficit(u);
        let _ = flows.send(u, toward.opposite(), most);
        if deficit {
            return;
        }
        v = u;
    }
}

// Pushes to e over its way, if that comes to a deficit cell and has room.
pub(crate) fn push_on(flows: &mut Flows, e: usize)
    requires { e < length flows.old.tile.now }
    ensures { InPlace Eased flows.old flows.new }
{
    if let Some(f) = carry_on(flows, e) {
        climb_on(flows, e, f);
    }
}
