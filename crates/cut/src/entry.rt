// What waits in a search: a cell, and perhaps the direction back to where it was reached from.
ghost use Rattle.std.specs.Prelude.{◌≡◌, ℕ, Some as Just, None as Nothing, Option as Maybe};
ghost use Rattle.flow.specs.declared.direction.Direction.{Direction as Way};

use flow::Direction;

/// What waits in a search.
pub trait Entry: Copy {
    /// The cell that waits.
    ghost spot: { Self → ℕ };

    /// The direction back, where the entry keeps it.
    ghost came: { Self → Maybe Way };

    /// A cell from which the search starts.
    fn root(cell: u16) -> Self
        ensures cell { spot result ≡ cell }
        ensures back { came result ≡ Nothing };

    /// A cell that the search has reached.
    fn reached(cell: u16, back: Direction) -> Self
        ensures cell { spot result ≡ cell }
        ensures back { (h : Way) → came result ≡ Just h → h ≡ back };
}

// A plain cell number.
impl Entry for u16 {
    ghost spot = { λ n. n };

    ghost came = { λ _. Nothing };

    fn root(cell: u16) -> u16 {
        cell
    }

    fn reached(cell: u16, _back: Direction) -> u16 {
        cell
    }
}

/// A cell, and the side that it was reached by, unless the search began there.
#[derive(Clone, Copy, Default)]
pub struct Step {
    pub cell: u16,
    pub side: Option<Direction>,
}

impl Entry for Step {
    ghost spot = { λ s. s.cell };

    ghost came = { λ s. s.side };

    fn root(cell: u16) -> Step {
        Step { cell, side: None }
    }

    fn reached(cell: u16, back: Direction) -> Step
        ensures cell { result.cell ≡ cell }
        ensures back { (h : Way) → result.side ≡ Just h → h ≡ back }
        ensures side { result.side ≡ Just back }
    {
        Step {
            cell,
            side: Some(back),
        }
    }
}
