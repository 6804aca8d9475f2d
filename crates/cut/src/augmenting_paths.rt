// Augmenting paths: flow runs along a shortest residual path from a deficit cell to a surplus cell.
ghost use Rattle.std.specs.Prelude.{◌≡◌, ◌+◌, ◌/◌, ◌<◌, ◌≤◌, length, IfSome};
ghost use Rattle.flow.specs.Sides.{InSurplus, Eased};
ghost use Rattle.cut.specs.declared.entry.Step.{Step as Record};
ghost use Rattle.cut.specs.Ranks.{rank_of};
ghost use Rattle.cut.specs.Lent.{InPlace, Leveled};
ghost use Rattle.cut.specs.Searches.{Started, AllInside, Eases};
ghost use Rattle.cut.specs.Climbs.{Above, Relieved, Sought, Swept};

use crate::climb::{carry, climb, higher, is_ranked_surplus};
use crate::entry::Step;
use crate::ranks::put_rank;
use crate::search::{start_search, visit_all};
use crate::ways::{before, push_on, put_back, put_onward};
use flow::{Direction, Flows};
use queue::Queue;

// Searches until it fetches a surplus cell.
fn seek(flows: &mut Flows, queue: &mut Queue<Step>) -> Option<Step>
    requires { Started (λ (s : Record). s.cell) (λ (s : Record). s.side) flows.old.columns flows.old.tile.now queue.old }
    ensures level { Leveled flows.old flows.new }
    ensures sought { Sought flows.new.columns flows.new.tile.now result }
    ensures inside { AllInside (λ (s : Record). s.cell) flows.new.tile.now queue.new }
{
    loop {
        let Some(Step { cell, side }) = queue.dequeue() else {
            return None;
        };
        if flows.in_surplus(cell as usize) {
            return Some(Step { cell, side });
        }
        visit_all(flows, queue, cell as usize, side);
    }
}

// Pushes over a path to u, if u is in surplus and a path is open.
fn push_path(flows: &mut Flows, u: usize)
    requires { u < length flows.old.tile.now }
    ensures eased { InPlace Eased flows.old flows.new }
    ensures fewer { InSurplus flows.old.tile.now flows.old.columns u → Above flows.old.columns flows.old.tile.now (rank_of flows.old.tile.now u) → InPlace Relieved flows.old flows.new }
{
    if flows.remainder(u) <= 0 {
        return;
    }
    if let Some(f) = carry(flows, u) {
        climb(flows, u, f);
    }
}

// How many dead ends may be met before the next push; then the search is given up, and a new one starts.
fn patience(flows: &Flows) -> usize
    ensures { result ≡ length flows.now.tile.now / 24 + 1 }
{
    flows.tile.len() / 24 + 1
}

// Goes up from a cell over ever higher ranks, and marks the way. Answers at which cell it ends, unless it comes to a deficit cell.
fn go_up(flows: &mut Flows, from: usize) -> Option<usize>
    requires { from < length flows.old.tile.now }
    ensures level { Leveled flows.old flows.new }
    ensures inside { IfSome result (λ end. end < length flows.new.tile.now) }
{
    let mut v = from;
    while let Some((u, toward)) = higher(flows, v) {
        put_onward(flows, v, toward);
        if flows.in_deficit(u) {
            return None;
        }
        put_back(flows, u, toward.opposite());
        v = u;
    }
    Some(v)
}

// Looks for a way up from u that leads to a deficit cell: a cell at which a way ends loses its rank, and the way goes on from the cell
// before it, until one is found or u has no rank itself. Answers how many more dead ends may be met.
fn clear_way(flows: &mut Flows, u: usize, most: usize) -> usize
    requires { u < length flows.old.tile.now }
    ensures { InPlace Eased flows.old flows.new }
{
    let mut from = u;
    for left in (0..most).rev() {
        let Some(end) = go_up(flows, from) else {
            return left + 1;
        };
        put_rank(flows, end, 0);
        if end == u {
            return left;
        }
        let Some(v) = before(flows, end) else {
            return left;
        };
        from = v;
    }
    0
}

// Pushes over a path to u, if there is one. Answers how many dead ends may be met before the next push.
fn try_path(flows: &mut Flows, u: usize, most: usize) -> usize
    requires { u < length flows.old.tile.now }
    ensures { InPlace Eased flows.old flows.new }
{
    let left = clear_way(flows, u, most);
    if left == 0 || flows.tile[u].rank == 0 {
        return left;
    }
    push_on(flows, u);
    patience(flows)
}

// Pushes over one path after the other to u, until u is in surplus no more, or no path to it is left, or too many dead ends have
// been met. Answers how many more may be. The turns are counted, as nothing else bounds them.
fn push_paths(flows: &mut Flows, u: usize, most: usize) -> usize
    requires { u < length flows.old.tile.now }
    ensures { InPlace Eased flows.old flows.new }
{
    let mut left = most;
    for _ in 0..flows.tile.len() {
        if left == 0 || !is_ranked_surplus(flows, u) {
            return left;
        }
        left = try_path(flows, u, left);
    }
    left
}

// Pushes over all paths to u, and goes on with the search from there if it still has a rank. Answers how many more dead ends may be
// met.
fn serve(
    flows: &mut Flows,
    queue: &mut Queue<Step>,
    u: usize,
    from: Option<Direction>,
    most: usize,
) -> usize
    requires { u < length flows.old.tile.now }
    ensures { Eases (λ (s : Record). s.cell) flows.old flows.new queue.old queue.new }
{
    let left = push_paths(flows, u, most);
    if flows.tile[u].rank > 0 {
        visit_all(flows, queue, u, from);
    }
    left
}

// Goes on with the search from a cell, and pushes over all paths on the way, until too many dead ends have been met. The turns
// are counted, as nothing else bounds them.
fn go_on(flows: &mut Flows, queue: &mut Queue<Step>, met: Step)
    requires place { met.cell < length flows.old.tile.now }
    requires inside { AllInside (λ (s : Record). s.cell) flows.old.tile.now queue.old }
    ensures { InPlace Eased flows.old flows.new }
{
    let most = patience(flows);
    let mut left = serve(flows, queue, met.cell as usize, met.side, most);
    for _ in 0..flows.tile.len() {
        if left == 0 {
            return;
        }
        let Some(Step { cell, side }) = queue.dequeue() else {
            return;
        };
        left = serve(flows, queue, cell as usize, side, left);
    }
}

// One search from all deficit cells. Answers whether it met a surplus cell; then flow has moved.
pub(crate) fn sweep(flows: &mut Flows, work: &mut [Step]) -> bool
    requires { length flows.old.tile.now ≤ length work.old }
    ensures { InPlace (λ c t t'. Swept c t t' result) flows.old flows.new }
{
    let mut queue = Queue::new(work);
    start_search(flows, &mut queue);
    let Some(met) = seek(flows, &mut queue) else {
        return false;
    };
    push_path(flows, met.cell as usize);
    go_on(flows, &mut queue, met);
    true
}
