// Charged tiles with pseudo-random charges, brackets, ties, flows, marks and ranks.
use crate::random::Random;
use flow::Chart;
use tile::{Bracket, Cell, Shape, Side};

/// How large charges and ties may get.
#[derive(Clone, Copy)]
pub struct Sizes {
    pub charge: u32,
    pub tie: u16,
}

// One of three brackets: most cells share the first, and the last is settled.
fn bracket(random: &mut Random) -> Bracket {
    match random.below(16) {
        0..13 => Bracket { low: 0, high: 7 },
        13 | 14 => Bracket { low: 8, high: 15 },
        _ => Bracket { low: 5, high: 5 },
    }
}

// The weight of a tie; 0 off the edge.
fn tie(random: &mut Random, shape: Shape, at: usize, side: Side, most: u16) -> u16 {
    match shape.neighbour(at, side) {
        Some(_) => random.below(u64::from(most) + 1) as u16,
        None => 0,
    }
}

fn charge(random: &mut Random, most: u32) -> i32 {
    let most = u64::from(most % 1_000_000);
    random.below(2 * most + 1) as i32 - most as i32
}

fn record(random: &mut Random, shape: Shape, at: usize, sizes: Sizes) -> Cell {
    let charge = charge(random, sizes.charge);
    let Bracket { low, high } = bracket(random);
    let right = tie(random, shape, at, Side::Rightward, sizes.tie);
    let down = tie(random, shape, at, Side::Downward, sizes.tie);
    Cell {
        right,
        down,
        low,
        high,
        charge,
        ..Cell::default()
    }
}

// A flow within the weight of a live tie, by a number that was drawn.
fn start_flow(weight: u16, drawn: u64) -> i32 {
    let weight = u64::from(weight);
    (drawn % (2 * weight + 1)) as i32 - weight as i32
}

// Gives one record flows to start from, within the weights of its live ties, and any mark and rank.
fn stir(random: &mut Random, cell: &mut Cell, right: u16, down: u16) {
    let drawn = random.below(1 << 20);
    let also = random.below(1 << 20);
    cell.right_flow = start_flow(right, drawn);
    cell.down_flow = start_flow(down, also);
    cell.mark = (drawn % 256) as u8;
    cell.rank = (also % 65_536) as u16;
}

// Fills the records of a tile.
pub(crate) fn fill(random: &mut Random, shape: Shape, tile: &mut [Cell], sizes: Sizes) {
    let n = shape.cells();
    if tile.len() < n {
        return;
    }
    for (at, cell) in tile[..n].iter_mut().enumerate() {
        *cell = record(random, shape, at, sizes);
    }
    // A cell's ties are live by its neighbours' brackets, so this goes by number.
    for at in 0..n {
        let chart = Chart { shape, tile };
        let right = chart.live_weight(at, Side::Rightward);
        let down = chart.live_weight(at, Side::Downward);
        stir(random, &mut tile[at], right, down);
    }
}
