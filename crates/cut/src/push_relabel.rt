// Push-relabel: flow moves tie by tie towards lower ranks.
ghost use Rattle.std.specs.Prelude.{◌≡◌, ◌<◌, ◌≤◌, length};
ghost use Rattle.flow.specs.Sides.{Eased};
ghost use Rattle.flow.specs.Lent.{SameRows};
ghost use Rattle.cut.specs.Ranks.{ranked_at};
ghost use Rattle.cut.specs.Lent.{InPlace, Leveled};
ghost use Rattle.cut.specs.Searches.{AllInside, Eases, Ranked};
ghost use Rattle.cut.specs.Climbs.{Swept};
ghost use Rattle.cut.specs.Relabels.{rank_beside, lower_rank};

use crate::climb::{above, climb, first_surplus, is_ranked_surplus};
use crate::ranks::put_rank;
use crate::search::{start_search, visit_all};
use flow::{Direction, Flows};
use limits::MAX_TIE;
use queue::Queue;

// As much as any tie takes.
const MOST: i32 = 2 * MAX_TIE as i32;

// v draws what it can from the cell in one direction, if that is one rank higher.
fn pass(flows: &mut Flows, v: usize, toward: Direction)
    requires { v < length flows.old.tile.now }
    ensures { InPlace Eased flows.old flows.new }
{
    if let Some(u) = above(flows, v, toward) {
        let _ = flows.send(u, toward.opposite(), MOST);
    }
}

// A surplus cell draws in all directions, if it has a rank: its surplus passes on to cells one rank higher.
fn pass_on(flows: &mut Flows, v: usize)
    requires { v < length flows.old.tile.now }
    ensures { InPlace Eased flows.old flows.new }
{
    if is_ranked_surplus(flows, v) {
        pass(flows, v, Direction::Right);
        pass(flows, v, Direction::Down);
        pass(flows, v, Direction::Left);
        pass(flows, v, Direction::Up);
    }
}

// Goes over the cells in the order in which a search reached them, from the last to the first, so that what a cell passes on
// is passed on again. The order is one to go by and no more: what is no cell's number is left out.
fn pass_all(flows: &mut Flows, order: &[u16])
    ensures { InPlace Eased flows.old flows.new }
{
    for v in order.iter().rev() {
        let v = usize::from(*v);
        if v < flows.tile.len() {
            pass_on(flows, v);
        }
    }
}

// v draws what it can from the cell in one direction, if that is one rank higher; if that comes into surplus, it waits.
fn draw(flows: &mut Flows, queue: &mut Queue<u16>, v: usize, toward: Direction)
    requires { v < length flows.old.tile.now }
    ensures { Eases (λ x. x) flows.old flows.new queue.old queue.new }
{
    let Some(u) = above(flows, v, toward) else {
        return;
    };
    let was = flows.remainder(u);
    let _ = flows.send(u, toward.opposite(), MOST);
    if was <= 0 && flows.in_surplus(u) {
        let _ = queue.enqueue(u as u16);
    }
}

// v draws in all directions.
fn draw_all(flows: &mut Flows, queue: &mut Queue<u16>, v: usize)
    requires { v < length flows.old.tile.now }
    ensures { Eases (λ x. x) flows.old flows.new queue.old queue.new }
{
    for toward in Direction::ALL {
        draw(flows, queue, v, toward);
    }
}

// The rank of the cell in one direction, where a residual arc leads from it to v; else 0, which is no rank.
fn rank_beside(flows: &Flows, v: usize, toward: Direction) -> u16
    requires { v < length flows.now.tile.now }
    ensures { result ≡ rank_beside flows.now.tile.now flows.now.columns v toward }
{
    match flows.beside(v, toward) {
        Some(u) if flows.is_residual(u, toward.opposite()) => flows.tile[u].rank,
        _ => 0,
    }
}

// One less than the highest rank from which a residual arc leads to v; 0 where none does, which in a record is no rank.
fn lower(flows: &mut Flows, v: usize)
    requires { v < length flows.old.tile.now }
    ensures rows { SameRows flows.old flows.new }
    ensures lower { flows.new.tile.now ≡ ranked_at flows.old.tile.now v (lower_rank flows.old.tile.now flows.old.columns v) }
{
    // A map over `Direction::ALL` makes whole cuts a thirtieth slower.
    let right = rank_beside(flows, v, Direction::Right);
    let down = rank_beside(flows, v, Direction::Down);
    let left = rank_beside(flows, v, Direction::Left);
    let up = rank_beside(flows, v, Direction::Up);
    let highest = right.max(down).max(left.max(up));
    put_rank(flows, v, highest.saturating_sub(1));
}

// One step for a surplus cell: it draws in all directions, and gets a lower rank if it is still in surplus.
// Answers whether its rank was lowered.
fn relieve(flows: &mut Flows, queue: &mut Queue<u16>, v: usize) -> bool
    requires { v < length flows.old.tile.now }
    ensures { Eases (λ x. x) flows.old flows.new queue.old queue.new }
{
    draw_all(flows, queue, v);
    if flows.remainder(v) <= 0 {
        return false;
    }
    lower(flows, v);
    if flows.tile[v].rank > 0 {
        let _ = queue.enqueue(v as u16);
    }
    true
}

// Has the surplus cells that have a rank wait. It goes by number, since a cell's number is what waits.
fn collect(flows: &Flows, queue: &mut Queue<u16>)
    requires { AllInside (λ x. x) flows.now.tile.now queue.old }
    ensures { AllInside (λ x. x) flows.now.tile.now queue.new }
{
    for u in 0..flows.tile.len() {
        let wanted = is_ranked_surplus(flows, u);
        let _ = queue.enqueue_if(u as u16, wanted);
    }
}

// Relieves surplus cells, until none waits or many have got lower ranks. The turns are counted, as nothing else bounds them.
fn drain(flows: &mut Flows, work: &mut [u16])
    ensures { InPlace Eased flows.old flows.new }
{
    let n = flows.tile.len();
    let mut queue = Queue::new(work);
    collect(flows, &mut queue);
    let mut left = n / 16 + 1;
    for _ in 0..n * 64 {
        if left == 0 {
            return;
        }
        let Some(cell) = queue.dequeue() else {
            return;
        };
        if relieve(flows, &mut queue, cell as usize) {
            left -= 1;
        }
    }
}

// Ranks every cell that residual arcs reach from a deficit cell, and no other.
fn rank_all(flows: &mut Flows, work: &mut [u16])
    requires { length flows.old.tile.now ≤ length work.old }
    ensures level { Leveled flows.old flows.new }
    ensures ranked { Ranked flows.new.columns flows.new.tile.now }
{
    let mut queue = Queue::new(work);
    start_search(flows, &mut queue);
    loop {
        let Some(cell) = queue.dequeue() else {
            return;
        };
        visit_all(flows, &mut queue, cell as usize, None);
    }
}

// Ranks the cells anew; if a surplus cell has a rank, relieves that one and then others: in one pass over all cells, and then one
// by one. Answers whether one had; then flow has moved.
pub(crate) fn sweep(flows: &mut Flows, work: &mut [u16]) -> bool
    requires { length flows.old.tile.now ≤ length work.old }
    ensures { InPlace (λ c t t'. Swept c t t' result) flows.old flows.new }
{
    rank_all(flows, work);
    let Some(v) = first_surplus(flows) else {
        return false;
    };
    climb(flows, v, MOST);
    pass_all(flows, &work[0..flows.tile.len()]);
    drain(flows, work);
    true
}
