// The worked tiles, run through the calls.
use crate::running::{Worked, check_worked};
use price::{Absolute, Leaning, Squared};
use std::test::Fail;

#[test]
fn single_cells(rt: HostRuntime) -> Result<(), Fail> {
    check_worked(
        &rt,
        &Absolute::new(7)?,
        &Worked {
            rows: 1,
            columns: 1,
            top: 7,
            readings: &[5],
            classes: &[1],
            right: &[],
            down: &[],
            heights: &[5],
            energy: 0,
        },
    )?;
    check_worked(
        &rt,
        &Absolute::new(7)?,
        &Worked {
            rows: 1,
            columns: 1,
            top: 7,
            readings: &[5],
            classes: &[0],
            right: &[],
            down: &[],
            heights: &[0],
            energy: 0,
        },
    )
}

#[test]
fn rows_of_three(rt: HostRuntime) -> Result<(), Fail> {
    check_worked(
        &rt,
        &Absolute::new(7)?,
        &Worked {
            rows: 1,
            columns: 3,
            top: 7,
            readings: &[0, 7, 0],
            classes: &[1, 1, 1],
            right: &[1, 1],
            down: &[],
            heights: &[0, 0, 0],
            energy: 7,
        },
    )?;
    check_worked(
        &rt,
        &Absolute::new(7)?,
        &Worked {
            rows: 1,
            columns: 3,
            top: 7,
            readings: &[0, 7, 0],
            classes: &[1, 1, 1],
            right: &[1, 0],
            down: &[],
            heights: &[0, 0, 0],
            energy: 7,
        },
    )
}

#[test]
fn squared_pairs(rt: HostRuntime) -> Result<(), Fail> {
    check_worked(
        &rt,
        &Squared::new(10)?,
        &Worked {
            rows: 1,
            columns: 2,
            top: 10,
            readings: &[0, 10],
            classes: &[1, 1],
            right: &[6],
            down: &[],
            heights: &[3, 7],
            energy: 42,
        },
    )?;
    check_worked(
        &rt,
        &Squared::new(10)?,
        &Worked {
            rows: 1,
            columns: 2,
            top: 10,
            readings: &[0, 10],
            classes: &[1, 1],
            right: &[7],
            down: &[],
            heights: &[3, 6],
            energy: 46,
        },
    )
}

#[test]
fn falling_pairs(rt: HostRuntime) -> Result<(), Fail> {
    check_worked(
        &rt,
        &Leaning::new(10)?,
        &Worked {
            rows: 1,
            columns: 2,
            top: 10,
            readings: &[10, 2],
            classes: &[1, 1],
            right: &[2],
            down: &[],
            heights: &[2, 2],
            energy: 8,
        },
    )?;
    check_worked(
        &rt,
        &Absolute::new(10)?,
        &Worked {
            rows: 1,
            columns: 2,
            top: 10,
            readings: &[10, 2],
            classes: &[1, 1],
            right: &[2],
            down: &[],
            heights: &[2, 2],
            energy: 8,
        },
    )
}

#[test]
fn falling_pairs_of_classes_2_and_1(rt: HostRuntime) -> Result<(), Fail> {
    check_worked(
        &rt,
        &Leaning::new(10)?,
        &Worked {
            rows: 1,
            columns: 2,
            top: 10,
            readings: &[10, 2],
            classes: &[2, 1],
            right: &[4],
            down: &[],
            heights: &[2, 2],
            energy: 24,
        },
    )?;
    check_worked(
        &rt,
        &Absolute::new(10)?,
        &Worked {
            rows: 1,
            columns: 2,
            top: 10,
            readings: &[10, 2],
            classes: &[2, 1],
            right: &[4],
            down: &[],
            heights: &[10, 10],
            energy: 8,
        },
    )
}

#[test]
fn corners(rt: HostRuntime) -> Result<(), Fail> {
    check_worked(
        &rt,
        &Absolute::new(1)?,
        &Worked {
            rows: 2,
            columns: 2,
            top: 1,
            readings: &[1, 0, 0, 0],
            classes: &[1, 1, 1, 1],
            right: &[1, 0, 1],
            down: &[1, 1],
            heights: &[0, 0, 0, 0],
            energy: 1,
        },
    )?;
    check_worked(
        &rt,
        &Absolute::new(1)?,
        &Worked {
            rows: 2,
            columns: 2,
            top: 1,
            readings: &[1, 0, 0, 0],
            classes: &[2, 1, 1, 1],
            right: &[1, 0, 1],
            down: &[1, 1],
            heights: &[1, 0, 0, 0],
            energy: 2,
        },
    )
}
