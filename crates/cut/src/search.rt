// The search that ranks every cell which residual arcs reach from a deficit cell: its start, and the visit of a cell. Each maker
// fetches what waits in a loop of its own.
ghost use Rattle.std.specs.Prelude.{◌≡◌, ℕ, ◌<◌, ◌≤◌, ◌↔◌, IsTrue, if◌then◌else◌, [], length};
ghost use Rattle.queue.specs.Queue.{waits, capacity};
ghost use Rattle.cut.specs.Ranks.{rank_of};
ghost use Rattle.cut.specs.Lent.{Leveled};
ghost use Rattle.flow.specs.Sides.{beside};
ghost use Rattle.cut.specs.Searches.{Fresh, FoundFresh, Goes, GoesIf, GoesOn, Started};

use crate::entry::Entry;
use crate::ranks::{clear_ranks, put_rank};
use flow::{Direction, Flows};
use queue::Queue;

// Does a residual arc lead in a direction to a cell without a rank? Written without a branch, as that comes out at random.
fn is_fresh(flows: &Flows, u: usize, toward: Direction) -> bool
    requires { u < length flows.now.tile.now }
    ensures { IsTrue result ↔ Fresh flows.now.columns flows.now.tile.now u toward (beside flows.now.columns toward u) }
{
    let v = flows.beside(u, toward).unwrap_or(u);
    (flows.tile[v].rank == 0) & flows.is_residual(u, toward)
}

// The cell without a rank that a residual arc leads to in a direction.
fn fresh(flows: &Flows, u: usize, toward: Direction) -> Option<usize>
    requires { u < length flows.now.tile.now }
    ensures { FoundFresh flows.now.columns flows.now.tile.now u toward result }
{
    let v = flows.beside(u, toward)?;
    (flows.tile[v].rank == 0 && flows.is_residual(u, toward)).then_some(v)
}

// Ranks the cell in one direction of u, if it has no rank and a residual arc leads there, and has it wait. `from` is the side that u
// was reached by.
fn visit<E: Entry>(
    flows: &mut Flows,
    queue: &mut Queue<E>,
    u: usize,
    from: Option<Direction>,
    toward: Direction,
)
    requires { u < length flows.old.tile.now }
    ensures { Goes E.Entry.spot E.Entry.came u from toward flows.old flows.new queue.old queue.new }
{
    if from == Some(toward) {
        return;
    }
    let Some(v) = fresh(flows, u, toward) else {
        return;
    };
    let rank = flows.tile[u].rank.saturating_sub(1);
    put_rank(flows, v, rank);
    let _ = queue.enqueue(E::reached(v as u16, toward.opposite()));
}

// The same, if it is wanted.
fn visit_if<E: Entry>(
    flows: &mut Flows,
    queue: &mut Queue<E>,
    u: usize,
    from: Option<Direction>,
    toward: Direction,
    wanted: bool,
)
    requires { u < length flows.old.tile.now }
    ensures { GoesIf wanted E.Entry.spot E.Entry.came u from toward flows.old flows.new queue.old queue.new }
{
    if wanted {
        visit(flows, queue, u, from, toward);
    }
}

// Goes on from u in all directions but the one that it was reached from. Mostly there is nowhere to go, so all four are looked at first.
pub(crate) fn visit_all<E: Entry>(
    flows: &mut Flows,
    queue: &mut Queue<E>,
    u: usize,
    from: Option<Direction>,
)
    requires { u < length flows.old.tile.now }
    ensures { GoesOn E.Entry.spot E.Entry.came u from flows.old flows.new queue.old queue.new }
{
    let right = is_fresh(flows, u, Direction::Right);
    let down = is_fresh(flows, u, Direction::Down);
    let left = is_fresh(flows, u, Direction::Left);
    let up = is_fresh(flows, u, Direction::Up);
    if right | down | left | up {
        // A loop over `Direction::ALL` makes whole cuts a fifth slower.
        visit_if(flows, queue, u, from, Direction::Right, right);
        visit_if(flows, queue, u, from, Direction::Down, down);
        visit_if(flows, queue, u, from, Direction::Left, left);
        visit_if(flows, queue, u, from, Direction::Up, up);
    }
}

// The rank of a cell from which a search starts, and of one not yet reached.
fn first_rank(highest: u16, root: bool) -> u16
    ensures { result ≡ (if root then highest else 0) }
{
    if root { highest } else { 0 }
}

// Ranks the deficit cells, and has them wait. It goes by number, since a cell's number is what waits, and writes every rank: a
// branch on whether a cell is in deficit would be guessed wrong too often.
fn begin<E: Entry>(flows: &mut Flows, queue: &mut Queue<E>)
    requires none { (b : ℕ) → rank_of flows.old.tile.now b ≡ 0 }
    requires idle { waits queue.old ≡ [] }
    requires rooms { length flows.old.tile.now ≤ capacity queue.old }
    ensures level { Leveled flows.old flows.new }
    ensures started { Started E.Entry.spot E.Entry.came flows.new.columns flows.new.tile.now queue.new }
{
    let n = flows.tile.len();
    for u in 0..n {
        let root = flows.in_deficit(u);
        put_rank(flows, u, first_rank(n as u16, root));
        let _ = queue.enqueue_if(E::root(u as u16), root);
    }
}

// Starts a search: takes all ranks away, and has the deficit cells wait.
pub(crate) fn start_search<E: Entry>(flows: &mut Flows, queue: &mut Queue<E>)
    requires idle { waits queue.old ≡ [] }
    requires rooms { length flows.old.tile.now ≤ capacity queue.old }
    ensures level { Leveled flows.old flows.new }
    ensures started { Started E.Entry.spot E.Entry.came flows.new.columns flows.new.tile.now queue.new }
{
    clear_ranks(flows.tile);
    begin(flows, queue);
}
