// The bounds of the product, and the refusals of its calls.
#![tactic(auto)]

pub mod examples;
pub mod refusal;

pub use refusal::Refusal;

// The most rows a tile may have.
pub const MAX_ROWS: usize = 64;

// The most rows that a cut serves: four tiles, one below another.
pub const MAX_STRIP_ROWS: usize = 256;

// The most columns a tile may have.
pub const MAX_COLUMNS: usize = 64;

// The greatest height a tile may have, and the greatest level a price rule may be made for.
pub const MAX_TOP: u16 = 1023;

// The most rounds that can be due.
pub const MAX_ROUNDS: u8 = 10;

// The greatest trust class of a reading.
pub const MAX_CLASS: u8 = 15;

// The greatest weight of a tie between two neighbouring cells.
pub const MAX_TIE: u16 = 10_000;

// Charges lie from minus this to this.
pub const MAX_CHARGE: u32 = 300_000;
