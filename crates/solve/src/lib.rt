// Solving a tile by the calls of the filter, from their contracts alone.
#![tactic(auto)]

mod checking;
pub mod examples;
pub mod samples;
pub mod solving;
pub mod surveying;

pub use samples::{Sample, SamplesRefusal};
pub use solving::solve;
pub use surveying::solve_samples;
