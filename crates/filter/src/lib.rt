// The calls on a tile, and the law that every run of them keeps.
#![tactic(auto)]

pub mod answers;
pub mod examples;
pub mod states;

pub use answers::{Refused, Rounded};
pub use states::draft_calls::start;
pub use states::{Draft, Level, Rounding};
