// How a tile is put through the calls, and what comes of it is compared.
use cut::{AugmentingPaths, PushRelabel, Step};
use filter::{Draft, Level, Refused, start};
use limits::Refusal;
use price::PriceRule;
use solve::solve;
use std::process::Abort;
use std::test::Fail;
use tile::Cell;

// What the records hold before a start: anything.
pub const JUNK: Cell = Cell {
    reading: 999,
    class: 77,
    right: 60_000,
    down: 60_000,
    right_flow: -5,
    down_flow: 5,
    low: 8,
    high: 3,
    charge: 1_000_000,
    mark: 9,
    rank: 9,
};

// A worked tile. The lists run over the cells row by row; what a list does not reach is 0.
pub struct Worked<'a> {
    pub rows: usize,
    pub columns: usize,
    pub top: u16,
    pub readings: &'a [u16],
    pub classes: &'a [u8],
    // The weights of the ties to the next column and to the next row.
    pub right: &'a [u16],
    pub down: &'a [u16],
    // What is expected.
    pub heights: &'a [u16],
    pub energy: u64,
}

// What an accepted call answers; a refusal fails the test.
pub fn accepted<T, S: Drop>(answer: Result<T, Refused<S>>) -> Result<T, Fail> {
    Ok(answer.map_err(Refusal::from)?)
}

// The number of a refusal; none for an accepted call.
pub fn number_of<T: Drop, E: Into<Refusal> + Drop>(answer: Result<T, E>) -> Option<u8> {
    answer.err().map(|why| why.into().number())
}

// The draft of the tile: a put and a tie for each cell.
fn drafted(rt: &impl Abort, worked: &Worked, tile: &mut [Cell]) -> Result<Draft, Fail> {
    let columns = worked.columns;
    assert!(rt; columns > 0);
    let mut draft = start(worked.rows, columns, worked.top, tile)?;
    for (at, reading) in worked.readings.iter().enumerate() {
        let (row, column) = (at / columns, at % columns);
        draft = accepted(draft.put(tile, row, column, *reading, at_or_0(worked.classes, at)))?;
        let (right, down) = (at_or_0(worked.right, at), at_or_0(worked.down, at));
        draft = accepted(draft.tie(tile, row, column, right, down))?;
    }
    Ok(draft)
}

// What a list has at a place, or 0.
fn at_or_0<T: Copy + Default>(list: &[T], at: usize) -> T {
    list.get(at).copied().unwrap_or_default()
}

// Compares every height and the energy with what is expected.
fn check_level<P: PriceRule>(
    rt: &impl Abort,
    level: &Level,
    tile: &[Cell],
    rule: &P,
    worked: &Worked,
) -> Result<(), Fail> {
    let columns = worked.columns;
    assert!(rt; columns > 0);
    for (at, height) in worked.heights.iter().enumerate() {
        assert_eq!(rt; level.height(tile, at / columns, at % columns)?, *height);
    }
    assert_eq!(rt; level.cost(tile, rule)?, worked.energy);
    Ok(())
}

// Solves the tile by both makers, the second after reopening the level that the first came to.
pub fn check_worked<P: PriceRule>(rt: &impl Abort, rule: &P, worked: &Worked) -> Result<(), Fail> {
    let mut tile = [JUNK; 4];
    let draft = drafted(rt, worked, &mut tile)?;
    let entries = &mut [Step::default(); 4];
    let level = accepted(solve(draft, &mut tile, rule, &AugmentingPaths, entries))?;
    check_level(rt, &level, &tile, rule, worked)?;
    let draft = accepted(level.reopen(&mut tile))?;
    let level = accepted(solve(draft, &mut tile, rule, &PushRelabel, &mut [0; 4]))?;
    check_level(rt, &level, &tile, rule, worked)
}
