use crate::bracket::{Bracket, halving, rounds_due};
use crate::cell::Cell;
use crate::rating::energy;
use crate::shape::Shape;
use crate::shape::error::ShapeError;
use limits::Refusal;
use price::Squared;
use std::test::Fail;

#[test]
fn rounds(rt: HostRuntime) {
    assert_eq!(rt; rounds_due(1), 1);
    assert_eq!(rt; rounds_due(7), 3);
    assert_eq!(rt; rounds_due(8), 4);
    assert_eq!(rt; rounds_due(1023), 10);
    assert_eq!(rt; rounds_due(65535), 16);
}

// The brackets of 0..10 that hold 3 and 7 after so many rounds.
#[test]
fn halvings(rt: HostRuntime) {
    let expected = [
        ((0, 10), (0, 10)),
        ((0, 5), (6, 10)),
        ((3, 5), (6, 8)),
        ((3, 4), (6, 7)),
        ((3, 3), (7, 7)),
    ];
    for (rounds, (three, seven)) in (0..5).zip(expected) {
        assert_eq!(rt; halving(rounds, 10, 3), from_to(three));
        assert_eq!(rt; halving(rounds, 10, 7), from_to(seven));
    }
}

fn from_to((low, high): (u16, u16)) -> Bracket {
    Bracket { low, high }
}

// A cell of class 1, tied to the right, with a low end.
fn cell(reading: u16, right: u16, low: u16) -> Cell {
    Cell {
        reading,
        class: 1,
        right,
        low,
        high: 10,
        ..Cell::default()
    }
}

#[test]
fn energies(rt: HostRuntime) -> Result<(), Fail> {
    let rule = Squared::new(10)?;
    let shape = Shape::new(1, 2, 10)?;
    let tile = [cell(0, 6, 3), cell(10, 0, 7)];
    assert_eq!(rt; energy(&rule, shape, &tile), Some(42));
    assert_eq!(rt; energy(&rule, shape, &tile[..1]), None);
    Ok(())
}

#[test]
fn shapes(rt: HostRuntime) -> Result<(), Fail> {
    assert_eq!(rt; Shape::new(64, 64, 1023)?.cells(), 4096);
    assert_eq!(rt; Shape::new(65, 64, 1023), Err(ShapeError));
    assert_eq!(rt; Refusal::from(ShapeError), Refusal::Range);
    Ok(())
}

#[test]
fn a_spoilt_bracket_is_live(rt: HostRuntime) {
    let spoilt = Cell {
        low: 1,
        high: 0,
        ..Cell::default()
    };
    let settled = Cell { high: 1, ..spoilt };
    assert_eq!(rt; spoilt.shares_bracket(&spoilt), true);
    assert_eq!(rt; settled.shares_bracket(&settled), false);
    assert_ne!(rt; spoilt, settled);
}
