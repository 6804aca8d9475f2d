// Price rules: what a height costs at a cell, given its reading and the reading's trust class.
#![tactic(auto)]

pub mod absolute;
pub mod examples;
mod greatest;
pub mod leaning;
mod question;
pub mod rule;
pub mod squared;
#[cfg(test)]
mod tests;
pub mod weight;

pub use absolute::Absolute;
pub use leaning::Leaning;
pub use rule::PriceRule;
pub use squared::Squared;
pub use weight::class_weight;
