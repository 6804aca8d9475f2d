// The example of README.md, as it stands there.
use cut::PushRelabel;
use filter::{Level, start};
use limits::Refusal;
use price::Squared;
use solve::solve;
use tile::Cell;

/// Solves a row of two cells, read as 0 and 10, in a record for each cell and a workspace (memory for the cuts) of as many entries.
pub fn solve_pair(tile: &mut [Cell; 2], workspace: &mut [u16; 2]) -> Result<Level, Refusal> {
    let draft = start(1, 2, 10, tile)?;
    let draft = draft.put(tile, 0, 0, 0, 1)?; // row 0, column 0: the reading 0 of class 1
    let draft = draft.put(tile, 0, 1, 10, 1)?;
    let draft = draft.tie(tile, 0, 0, 6, 0)?; // 6 to the right, none downward
    Ok(solve(draft, tile, &Squared::new(10)?, &PushRelabel, workspace)?)
}

#[test]
fn example(rt: HostRuntime) -> Result<(), std::test::Fail> {
    let mut tile = [Cell::default(); 2];
    let level = solve_pair(&mut tile, &mut [0; 2])?;
    assert_eq!(rt; level.height(&tile, 0, 0)?, 3);
    assert_eq!(rt; level.height(&tile, 0, 1)?, 7);
    assert_eq!(rt; level.cost(&tile, &Squared::new(10)?)?, 42);
    Ok(())
}
