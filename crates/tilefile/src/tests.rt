use crate::{Contents, EntryFlaw, Fault, Flaw, Letter, Section, read_tile};
use limits::Refusal;
use std::process::Abort;
use std::test::Fail;
use tile::Cell;

// What the records hold before a file is read: anything.
const JUNK: Cell = Cell {
    reading: 999,
    class: 77,
    right: 60_000,
    down: 60_000,
    right_flow: -5,
    down_flow: 5,
    low: 8,
    high: 3,
    charge: 1_000_000,
    mark: 9,
    rank: 9,
};

// The file of one row of two cells with top 10 and the letter Q, where the first reading is 0 and the second this one, both of
// class 1, with a tie of 6 between them; and one byte more.
const fn two_cells(second: u8) -> [u8; 30] {
    [
        0, 1, 0x51, 0, 3, 0, 1, 0, 2, 0, 10, 0, 2, 0, 0, 1, 0, second, 1, 0, 2, 0, 6, 0, 0, 0, 0,
        0, 0, 0,
    ]
}

// What a record holds, in the order of its fields.
fn fields(cell: &Cell) -> [i64; 11] {
    [
        cell.reading.into(),
        cell.class.into(),
        cell.right.into(),
        cell.down.into(),
        cell.right_flow.into(),
        cell.down_flow.into(),
        cell.low.into(),
        cell.high.into(),
        cell.charge.into(),
        cell.mark.into(),
        cell.rank.into(),
    ]
}

// The fault of a file that is refused; the records stay as they were.
fn fault_of(rt: &impl Abort, bytes: &[u8]) -> Result<Fault, Fail> {
    let mut tile = [JUNK; 2];
    let fault = read_tile(bytes, &mut tile).err().ok_or("accepted")?;
    assert_eq!(rt; fields(&tile[0]), fields(&JUNK));
    assert_eq!(rt; fields(&tile[1]), fields(&JUNK));
    Ok(fault)
}

#[test]
fn accepted_file(rt: HostRuntime) -> Result<(), Fail> {
    let file = two_cells(10);
    let mut tile = [JUNK; 3];
    let (draft, letter) = read_tile(&file[0..29], &mut tile)?;
    assert_eq!(rt; letter, Letter::Squared);
    assert_eq!(rt; fields(&tile[0]), [0, 1, 6, 0, 0, 0, 0, 10, 0, 0, 0]);
    assert_eq!(rt; fields(&tile[1]), [10, 1, 0, 0, 0, 0, 0, 10, 0, 0, 0]);
    assert_eq!(rt; fields(&tile[2]), fields(&JUNK));
    assert_eq!(rt; (draft.rows(), draft.columns(), draft.top()), (1, 2, 10));
    Ok(())
}

#[test]
fn contents_of_a_file(rt: HostRuntime) -> Result<(), Fail> {
    let file = two_cells(10);
    let mut tile = [JUNK; 2];
    let contents = Contents::check(&file[0..29], tile.len())?;
    let shape = contents.shape();
    assert_eq!(rt; (shape.rows(), shape.columns(), shape.top()), (1, 2, 10));
    assert_eq!(rt; contents.letter(), Letter::Squared);
    assert_eq!(rt;
        contents.fill(&mut tile[0..1]).err(),
        Some(Refusal::FewRecords)
    );
    assert_eq!(rt; fields(&tile[0]), fields(&JUNK));
    Ok(())
}

#[test]
fn reading_above_top(rt: HostRuntime) -> Result<(), Fail> {
    let fault = fault_of(&rt, &two_cells(11)[0..29])?;
    assert_eq!(rt; (fault.section, fault.place), (Section::Readings, 16));
    assert_eq!(rt; fault.flaw, Flaw::Entry(EntryFlaw::Reading));
    assert_eq!(rt;
        format!(in rt.alloc(); "{fault}")?.as_str(),
        "refused 14 3 16 5"
    );
    Ok(())
}

#[test]
fn empty_and_longer_files(rt: HostRuntime) -> Result<(), Fail> {
    let fault = fault_of(&rt, &[])?;
    assert_eq!(rt;
        format!(in rt.alloc(); "{fault}")?.as_str(),
        "refused 11 1 0 0"
    );
    let fault = fault_of(&rt, &two_cells(10))?;
    assert_eq!(rt;
        format!(in rt.alloc(); "{fault}")?.as_str(),
        "refused 15 4 29 0"
    );
    Ok(())
}
