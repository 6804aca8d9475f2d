// The two cut makers.
#![tactic(auto)]

mod augmenting_paths;
mod climb;
pub mod entry;
pub mod makers;
mod pairing;
mod push_relabel;
mod ranks;
mod search;
mod ways;

pub use entry::Step;
pub use makers::{AugmentingPaths, PushRelabel};
