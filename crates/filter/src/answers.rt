// What calls answer.
ghost use Rattle.std.specs.Prelude.{◌≡◌};

use crate::states::Rounding;
use limits::Refusal;

// A call takes its check's answer apart: with `map_err` and `?` the closure would have taken the state, which the call goes on with.
/// A refused call gives back the state that it took.
#[derive(Drop)]
pub struct Refused<S> {
    pub state: S,
    pub why: Refusal,
}

/// A caller that lets the state go may carry the refusal on by `?`.
impl<S: Drop> From<Refused<S>> for Refusal {
    ghost from_gives = { λ e r. r ≡ e.why };

    fn from(refused: Refused<S>) -> Refusal {
        refused.why
    }
}

/// The state after a round, and the rounds done, this one counted.
#[derive(Drop)]
pub struct Rounded {
    pub state: Rounding,
    pub done: u8,
}
