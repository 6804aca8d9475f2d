// The directions in which a neighbour lies.
ghost use Rattle.std.specs.Prelude.{◌≡◌, ◌*◌, ◌≤◌, unsigned_abs};
ghost use Rattle.limits.specs.Limits.{most_tie};
ghost use Rattle.flow.specs.Sides.{opposite, side_of, storing_first, flow_out};

use tile::Side;

#[derive(Clone, Copy, PartialEq, Eq, Debug)]
pub enum Direction {
    Right,
    Down,
    Left,
    Up,
}

impl Direction {
    /// All four.
    pub const ALL: [Direction; 4] = [
        Direction::Right,
        Direction::Down,
        Direction::Left,
        Direction::Up,
    ];

    /// The other way.
    pub fn opposite(self) -> Direction
        ensures { result ≡ opposite self }
    {
        match self {
            Direction::Right => Direction::Left,
            Direction::Down => Direction::Up,
            Direction::Left => Direction::Right,
            Direction::Up => Direction::Down,
        }
    }

    // The side on which a tie in this direction is stored.
    pub(crate) fn side(self) -> Side
        ensures { result ≡ side_of self }
    {
        match self {
            Direction::Right | Direction::Left => Side::Rightward,
            Direction::Down | Direction::Up => Side::Downward,
        }
    }

    // A cell u and the one beside it in this direction, v: first the one that stores the tie between them.
    pub(crate) fn storing_first(self, u: usize, v: usize) -> (usize, usize)
        ensures { result ≡ storing_first self u v }
    {
        match self {
            Direction::Right | Direction::Down => (u, v),
            Direction::Left | Direction::Up => (v, u),
        }
    }

    // The flow that leaves a cell in this direction, where so much leaves the cell that stores the tie: to the left and
    // upward the sign turns.
    pub(crate) fn flow_out(self, flow: i32) -> i32
        requires { unsigned_abs flow ≤ 2 * most_tie }
        ensures { result ≡ flow_out self flow }
    {
        match self {
            Direction::Right | Direction::Down => flow,
            Direction::Left | Direction::Up => -flow,
        }
    }
}
