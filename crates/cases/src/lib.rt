// Small tiles worked out by hand, as one theorem on a contract, and run through the calls; and runs that end finished, for every rule
// and every maker.
#![tactic(auto)]

ghost use Rattle.cases.specs.Worked.{WorkedTilesAreRight};

pub mod one_cell;
pub mod outside;
#[cfg(test)]
mod readme;
#[cfg(test)]
mod running;
#[cfg(test)]
mod tests;
#[cfg(test)]
mod worked_tiles;

pub use one_cell::finish_one_cell;
pub use outside::try_outside;

/// The lowest cheapest grid of every worked tile, and its energy, are as listed.
pub fn worked_tiles_are_right()
    ensures { WorkedTilesAreRight }
{}
