// The passes over the records of a tile: checking, clearing, charging, narrowing and copying. Each goes once over the cells.
#![tactic(auto)]

pub mod charging;
pub mod copying;
pub mod examples;
pub mod narrowing;
pub mod soundness;
mod table;
pub mod writing;

pub use charging::charge;
pub use copying::{copy_low_ends, low_end};
pub use narrowing::narrow;
pub use soundness::{are_ties_sound, is_reading_sound, is_sound};
pub use writing::{clear, reset, write_reading, write_ties};
