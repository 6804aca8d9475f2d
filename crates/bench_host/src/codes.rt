// What the calls answer.

// The call is done.
pub(crate) const DONE: i32 = 0;

// The call is refused, for whatever reason.
pub(crate) const REFUSED: i32 = -1;
