// The flows of a tile: remainders, residual arcs, and one push.
ghost use Rattle.flow.specs.Sides.{Admissible};

use tile::Cell;

pub mod pushing;
pub mod reading;

/// The records of a tile in rows of so many columns, whose flows keep within the weights of its live ties. What is asked of a
/// cell is asked by its number, which lies among the records: a value that knew so would hold the records while they change.
#[derive(Drop)]
pub struct Flows<'a> {
    pub tile: &'a mut [Cell],
    pub columns: usize,
    pub ghost sound: { Admissible columns tile.now },
}

/// The same, only to be read: whoever asks needs no more than a shared borrow of the records.
#[derive(Clone, Copy)]
pub struct FlowsView<'a> {
    pub tile: &'a [Cell],
    pub columns: usize,
    pub ghost sound: { Admissible columns tile.now },
}
