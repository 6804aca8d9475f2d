// The records of a tile, its shape and ties, brackets of heights, and the energy of the heights that records hold.
#![tactic(auto)]

pub mod bracket;
pub mod cell;
pub mod examples;
pub mod rating;
pub mod shape;
pub mod side;
#[cfg(test)]
mod tests;

pub use bracket::Bracket;
pub use cell::Cell;
pub use rating::energy;
pub use shape::Shape;
pub use shape::error::ShapeError;
pub use side::Side;
