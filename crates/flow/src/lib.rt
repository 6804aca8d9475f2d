// Flows over the ties of a tile: remainders, residual arcs, one push, and what a cut is.
#![tactic(auto)]

pub mod chart;
pub mod direction;
pub mod examples;
pub mod flows;
pub mod maker;

pub use chart::{Chart, is_cuttable};
pub use direction::Direction;
pub use flows::{Flows, FlowsView};
pub use maker::{CutMaker, run_cut};
