// Tile files: a draft as bytes.
#![tactic(auto)]

mod contents;
pub mod examples;
pub mod fault;
mod front;
mod laying;
pub mod letter;
mod reader;
mod reading;
pub mod rule;
#[cfg(test)]
mod tests;

pub use contents::Contents;
pub use fault::{EntryFlaw, Fault, Flaw, Section};
pub use front::front_length;
pub use letter::Letter;
pub use reading::read_tile;
pub use rule::LetterRule;
