// The calls as a host in C makes them, on the tile with readings 0 and 10, tied by 6.
use crate::fault::FaultNumbers;
use crate::shapes::{ShapeNumbers, yolanthuk_file_shape};
use crate::solving::{yolanthuk_solve_file, yolanthuk_solve_file_by_paths};
use report::Solution;
use tile::Cell;

// The tile as a file.
const FILE: &[u8] =
    b"\x00\x01Q\x00\x03\x00\x01\x00\x02\x00\x0A\x00\x02\x00\x00\x01\x00\x0A\x01\x00\x02\x00\x06\x00\x00\x00\x00\x00\x00";

#[test]
fn shapes(rt: HostRuntime) {
    let (mut shape, mut fault) = (ShapeNumbers::default(), FaultNumbers::default());
    let answers = [
        yolanthuk_file_shape(&FILE[..28], &mut shape, &mut fault),
        yolanthuk_file_shape(FILE, &mut shape, &mut fault),
    ];
    assert_eq!(rt; answers, [11, 0]);
    assert_eq!(rt; (shape.rows, shape.columns, shape.top), (1, 2, 10));
    assert_eq!(rt;
        (fault.place, fault.number, fault.section, fault.inner),
        (28, 11, 4, 0)
    );
}

// No solution yet.
const UNSOLVED: Solution = Solution {
    rows: 0,
    columns: 0,
    top: 0,
    rounds: 0,
    energy: 0,
};

#[test]
fn refusals(rt: HostRuntime) {
    let mut tile = [Cell::default(); 2];
    let (mut heights, mut entries) = ([0; 2], [0; 2]);
    let (mut solution, mut fault) = (UNSOLVED, FaultNumbers::default());
    let few_places = yolanthuk_solve_file(
        FILE,
        &mut tile,
        &mut entries,
        &mut heights[..1],
        &mut solution,
        &mut fault,
    );
    let few_entries = yolanthuk_solve_file(
        FILE,
        &mut tile,
        &mut entries[..1],
        &mut heights,
        &mut solution,
        &mut fault,
    );
    assert_eq!(rt; [few_places, few_entries], [-1, 7]);
    assert_eq!(rt; fault.number, 7);
}

#[test]
fn solutions(rt: HostRuntime) {
    let mut tile = [Cell::default(); 2];
    let (mut heights, mut entries) = ([0; 2], [0; 2]);
    let mut solution = UNSOLVED;
    // An earlier fault: it stays.
    let mut fault = FaultNumbers {
        number: 7,
        ..FaultNumbers::default()
    };
    let by_push = yolanthuk_solve_file(
        FILE,
        &mut tile,
        &mut entries,
        &mut heights,
        &mut solution,
        &mut fault,
    );
    let by_paths = yolanthuk_solve_file_by_paths(
        FILE,
        &mut tile,
        &mut heights,
        &mut solution,
        &mut fault,
    );
    assert_eq!(rt; [by_push, by_paths], [0, 0]);
    assert_eq!(rt; fault.number, 7);
    assert_eq!(rt;
        (solution.rounds, solution.energy, heights),
        (4, 42, [3, 7])
    );
}
