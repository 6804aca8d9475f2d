// Runs both cut makers on the same tiles, from all kinds of starts, and prints what they come to.
#![tactic(auto)]

mod both;
mod random;
mod tally;
mod tiles;
mod uncut;

use both::cut_both;
use cut::Step;
use random::Random;
use tally::{Tally, same_marks};
use tile::{Cell, Shape};
use tiles::{Sizes, fill};

// Makes one tile, cuts two copies of it, and adds it to the tally.
fn try_tile(
    rt: &HostRuntime,
    random: &mut Random,
    shape: Shape,
    sizes: Sizes,
    tally: &mut Tally,
) -> anyhow::Result<()> {
    let heap = rt.alloc();
    let n = shape.cells();
    let mut first = vec![in heap; Cell::default(); n]?;
    fill(random, shape, &mut first, sizes);
    let mut second = first.clone()?;
    let mut steps = vec![in heap; Step::default(); n]?;
    let mut numbers = vec![in heap; 0u16; n]?;
    let cut = cut_both(shape, &mut first, &mut steps, &mut second, &mut numbers);
    if cut.is_ok() && same_marks(&first, &second) {
        tally.alike = tally.alike.saturating_add(1);
    }
    tally.add(shape, &first);
    Ok(())
}

// A group of tiles of one shape, and one line about it.
fn try_group(
    rt: &HostRuntime,
    random: &mut Random,
    rows: usize,
    columns: usize,
    sizes: Sizes,
    tiles: u64,
) -> anyhow::Result<()> {
    let shape = Shape::of_strip(rows, columns, 15)?;
    let mut tally = Tally::default();
    for _ in 0..tiles {
        try_tile(rt, random, shape, sizes, &mut tally)?;
    }
    let (charge, tie) = (sizes.charge, sizes.tie);
    println!(rt; "{rows} x {columns}, charges to {charge}, ties to {tie}: tiles {tiles}, {tally}")?;
    Ok(())
}

// Two cells with charges 11 and -9 over a tie of weight 6.
fn print_pair(rt: &HostRuntime) -> anyhow::Result<()> {
    let left = Cell {
        charge: 11,
        right: 6,
        high: 10,
        ..Cell::default()
    };
    let right = Cell {
        charge: -9,
        high: 10,
        ..Cell::default()
    };
    let mut first = [left, right];
    let mut second = [left, right];
    let shape = Shape::new(1, 2, 10)?;
    cut_both(
        shape,
        &mut first,
        &mut [Step::default(); 2],
        &mut second,
        &mut [0; 2],
    )?;
    let (f, a, b) = (first[0].right_flow, first[0].mark, first[1].mark);
    let (g, c, d) = (second[0].right_flow, second[0].mark, second[1].mark);
    println!(rt;
        "charges 11 -9 over a tie of 6: flow {f}, marks {a} {b}; flow {g}, marks {c} {d}"
    )?;
    Ok(())
}

fn run(rt: &HostRuntime) -> anyhow::Result<()> {
    print_pair(rt)?;
    let mut random = Random { state: 2014 };
    let weak = Sizes {
        charge: 300,
        tie: 100,
    };
    let strong = Sizes {
        charge: 20,
        tie: 100,
    };
    for (rows, columns) in [(1, 1), (1, 8), (8, 1), (2, 2), (3, 5), (8, 8)] {
        try_group(rt, &mut random, rows, columns, weak, 40)?;
        try_group(rt, &mut random, rows, columns, strong, 40)?;
    }
    let widest = Sizes {
        charge: 300_000,
        tie: 10_000,
    };
    let wide = Sizes {
        charge: 9_000,
        tie: 10_000,
    };
    try_group(rt, &mut random, 16, 16, widest, 8)?;
    try_group(rt, &mut random, 16, 16, wide, 8)?;
    let stiff = Sizes {
        charge: 300,
        tie: 10_000,
    };
    try_group(rt, &mut random, 64, 64, wide, 1)?;
    try_group(rt, &mut random, 64, 64, stiff, 1)?;
    try_group(rt, &mut random, 256, 64, wide, 1)?;
    try_group(rt, &mut random, 256, 64, stiff, 1)
}

fn main(rt: HostRuntime) -> anyhow::Result<()> {
    run(&rt)
}
