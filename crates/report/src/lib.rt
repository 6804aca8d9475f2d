// From a tile file to its solution.
#![tactic(auto)]

pub mod answering;
pub mod copying;
pub mod examples;
pub mod printing;
pub mod refusing;
pub mod solving;

pub use answering::answer;
pub use copying::solve_file_into;
pub use refusing::FileRefusal;
pub use solving::{Solution, solve_file};
