use crate::one_cell::finish_one_cell;
use crate::running::{JUNK, accepted, number_of};
use cut::{AugmentingPaths, PushRelabel, Step};
use filter::{Draft, Rounding, start};
use price::{Absolute, Leaning, Squared};
use solve::solve;
use std::process::Abort;
use std::test::Fail;
use tile::Cell;

// The draft of the tile 0 10 with tie 6, whose cells are of class 1.
fn two_in_a_row(tile: &mut [Cell]) -> Result<Draft, Fail> {
    let draft = start(1, 2, 10, tile)?;
    let draft = accepted(draft.put(tile, 0, 0, 0, 1))?;
    let draft = accepted(draft.put(tile, 0, 1, 10, 1))?;
    accepted(draft.tie(tile, 0, 0, 6, 0))
}

// The same with no round done.
fn first_rounds(tile: &mut [Cell]) -> Result<Rounding, Fail> {
    let draft = two_in_a_row(tile)?;
    accepted(draft.begin(tile))
}

#[test]
fn first_round(rt: HostRuntime) -> Result<(), Fail> {
    let mut tile = [JUNK; 2];
    let rounding = first_rounds(&mut tile)?;
    let rule = Squared::new(10)?;
    let rounded = accepted(rounding.round(&mut tile, &rule, &PushRelabel, &mut [0; 2]))?;
    assert_eq!(rt; rounded.done, 1);
    assert_eq!(rt; (tile[0].charge, tile[1].charge), (11, -9));
    assert_eq!(rt; (tile[0].right_flow, tile[1].right_flow), (-6, 0));
    assert_eq!(rt; (tile[0].mark, tile[1].mark), (0, 1));
    assert_eq!(rt; (tile[0].low, tile[0].high), (0, 5));
    assert_eq!(rt; (tile[1].low, tile[1].high), (6, 10));
    Ok(())
}

// The number that a start of a tile with two records is refused with; the records stay as they were.
fn start_number(rt: &impl Abort, rows: usize, columns: usize, top: u16) -> Option<u8> {
    let mut tile = [JUNK; 2];
    let number = number_of(start(rows, columns, top, &mut tile));
    assert_eq!(rt; (tile[0].reading, tile[1].high), (999, 3));
    number
}

#[test]
fn refusals_of_start(rt: HostRuntime) {
    assert_eq!(rt; start_number(&rt, 0, 2, 10), Some(1));
    assert_eq!(rt; start_number(&rt, 65, 65, 10), Some(1));
    assert_eq!(rt; start_number(&rt, 1, 0, 10), Some(1));
    assert_eq!(rt; start_number(&rt, 1, 65, 10), Some(1));
    assert_eq!(rt; start_number(&rt, 1, 2, 0), Some(1));
    assert_eq!(rt; start_number(&rt, 1, 2, 1024), Some(1));
    assert_eq!(rt; start_number(&rt, 2, 2, 10), Some(2));
}

// The number that a put on a fresh draft of 1 × 2 cells with top 10 is refused with; none where it is accepted.
fn put_number(row: usize, column: usize, reading: u16, class: u8) -> Result<Option<u8>, Fail> {
    let mut tile = [JUNK; 2];
    let draft = start(1, 2, 10, &mut tile)?;
    Ok(number_of(draft.put(&mut tile, row, column, reading, class)))
}

#[test]
fn refusals_of_put(rt: HostRuntime) -> Result<(), Fail> {
    assert_eq!(rt; put_number(0, 1, 10, 15)?, None);
    assert_eq!(rt; put_number(1, 0, 11, 16)?, Some(4));
    assert_eq!(rt; put_number(0, 2, 10, 15)?, Some(4));
    assert_eq!(rt; put_number(0, 0, 11, 15)?, Some(5));
    assert_eq!(rt; put_number(0, 0, 10, 16)?, Some(5));
    let mut tile = [JUNK; 2];
    let draft = start(1, 2, 10, &mut tile)?;
    assert_eq!(rt; number_of(draft.put(&mut tile[0..1], 0, 0, 0, 0)), Some(2));
    Ok(())
}

// The same for a tie.
fn tie_number(row: usize, column: usize, right: u16, down: u16) -> Result<Option<u8>, Fail> {
    let mut tile = [JUNK; 2];
    let draft = start(1, 2, 10, &mut tile)?;
    Ok(number_of(draft.tie(&mut tile, row, column, right, down)))
}

#[test]
fn refusals_of_tie(rt: HostRuntime) -> Result<(), Fail> {
    assert_eq!(rt; tie_number(0, 0, 10_000, 0)?, None);
    assert_eq!(rt; tie_number(0, 2, 10_001, 0)?, Some(4));
    assert_eq!(rt; tie_number(0, 0, 10_001, 0)?, Some(6));
    assert_eq!(rt; tie_number(0, 1, 1, 0)?, Some(6));
    assert_eq!(rt; tie_number(0, 0, 0, 1)?, Some(6));
    Ok(())
}

#[test]
fn corrupt_draft(rt: HostRuntime) -> Result<(), Fail> {
    let mut tile = [JUNK; 2];
    let draft = start(1, 2, 10, &mut tile)?;
    tile[1].right = 1;
    assert_eq!(rt; number_of(draft.begin(&tile)), Some(3));
    Ok(())
}

#[test]
fn refusals_of_rounds(rt: HostRuntime) -> Result<(), Fail> {
    let mut tile = [JUNK; 2];
    let (wide, low) = (Squared::new(10)?, Squared::new(9)?);
    let rounding = first_rounds(&mut tile)?;
    assert_eq!(rt;
        number_of(rounding.round(&mut tile, &wide, &PushRelabel, &mut [0; 1])),
        Some(7)
    );
    let rounding = first_rounds(&mut tile)?;
    assert_eq!(rt;
        number_of(rounding.round(&mut tile, &low, &AugmentingPaths, &mut [Step::default(); 2])),
        Some(8)
    );
    assert_eq!(rt; number_of(first_rounds(&mut tile)?.finish(&tile)), Some(10));
    let draft = two_in_a_row(&mut tile)?;
    let level = accepted(solve(draft, &mut tile, &wide, &PushRelabel, &mut [0; 2]))?;
    assert_eq!(rt; number_of(level.height(&tile, 0, 2)), Some(4));
    assert_eq!(rt; number_of(level.cost(&tile, &low)), Some(8));
    tile[0].high = 4;
    assert_eq!(rt; number_of(level.height(&tile, 0, 0)), Some(3));
    Ok(())
}

// With top 4 a bracket 5..4 is what halving would give for a height that the tile does not have.
#[test]
fn empty_bracket_is_corrupt(rt: HostRuntime) -> Result<(), Fail> {
    let mut tile = [JUNK; 1];
    let draft = start(1, 1, 4, &mut tile)?;
    let rule = Absolute::new(4)?;
    let level = accepted(solve(draft, &mut tile, &rule, &PushRelabel, &mut [0; 1]))?;
    assert_eq!(rt; level.height(&tile, 0, 0)?, 0);
    tile[0].low = 5;
    tile[0].high = 4;
    assert_eq!(rt; number_of(level.height(&tile, 0, 0)), Some(3));
    Ok(())
}

// A tile of 64 × 64 cells with top 1,023, class 15 and tie 10,000. The last cell has a reading, its left neighbour is tied to
// it, and nothing else weighs anything.
fn largest(tile: &mut [Cell]) -> Result<Rounding, Fail> {
    let draft = start(64, 64, 1023, tile)?;
    let draft = accepted(draft.put(tile, 63, 63, 1023, 15))?;
    let draft = accepted(draft.tie(tile, 63, 62, 10_000, 0))?;
    accepted(draft.begin(tile))
}

// Does the ten rounds that are due, and tries one more.
fn ten_rounds(
    rt: &impl Abort,
    mut rounding: Rounding,
    tile: &mut [Cell],
    rule: &Absolute,
    entries: &mut [u16],
) -> Result<Rounding, Fail> {
    for round in 1..=10 {
        let rounded = accepted(rounding.round(tile, rule, &PushRelabel, entries))?;
        assert_eq!(rt; rounded.done, round);
        rounding = rounded.state;
    }
    let eleventh = rounding.round(tile, rule, &PushRelabel, entries);
    let refused = eleventh.err().ok_or("an eleventh round")?;
    assert_eq!(rt; refused.why.number(), 9);
    Ok(refused.state)
}

// The workspace has one entry for each cell, and no more.
#[test]
fn limits_accepted(rt: HostRuntime) -> Result<(), Fail> {
    let rule = Absolute::new(1023)?;
    let mut tile = vec![in rt.alloc(); JUNK; 4096]?;
    let mut entries = vec![in rt.alloc(); 0u16; 4096]?;
    let rounding = largest(&mut tile)?;
    let rounding = ten_rounds(&rt, rounding, &mut tile, &rule, &mut entries)?;
    let level = accepted(rounding.finish(&tile))?;
    assert_eq!(rt; level.height(&tile, 63, 63)?, 1023);
    assert_eq!(rt; level.height(&tile, 63, 62)?, 1023);
    assert_eq!(rt; level.height(&tile, 63, 61)?, 0);
    assert_eq!(rt; level.height(&tile, 62, 63)?, 0);
    assert_eq!(rt; level.height(&tile, 0, 0)?, 0);
    assert_eq!(rt; level.cost(&tile, &rule)?, 0);
    Ok(())
}

// The smallest finished run, by both makers: a class of 0 weighs nothing, so the lowest height is the cheapest.
#[test]
fn one_cell_finished(rt: HostRuntime) -> Result<(), Fail> {
    let mut tile = [JUNK; 1];
    let rule = Leaning::new(1)?;
    let level = finish_one_cell(&mut tile, &rule, &PushRelabel, &mut [0; 1])?;
    assert_eq!(rt; level.height(&tile, 0, 0)?, 0);
    let level = finish_one_cell(
        &mut tile,
        &rule,
        &AugmentingPaths,
        &mut [Step::default(); 1],
    )?;
    assert_eq!(rt; level.height(&tile, 0, 0)?, 0);
    Ok(())
}
