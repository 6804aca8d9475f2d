// From a file's bytes to what is printed for it.
ghost use Rattle.std.specs.Prelude.{◌≡◌, ◌++◌, ◌≤◌, length, IfOk, string_bytes, codes};
ghost use Rattle.report.specs.Refusing.{file_refusal_text};
ghost use Rattle.report.specs.Answering.{Answers};

use crate::printing::text_of;
use crate::refusing::FileRefusal;
use crate::solving::solve_file;
use flow::CutMaker;
use std::alloc::{AllocError, Global};
use tile::Cell;

// The line about a refusal.
fn line_of(alloc: Global, refusal: FileRefusal) -> Result<String, AllocError>
    ensures { IfOk result (λ text. string_bytes text ≡ file_refusal_text refusal ++ codes "\n") }
{
    format!(in alloc; "{refusal}\n")
}

// What is printed for a tile file, in these records and this workspace.
fn answer_in<M: CutMaker>(
    alloc: Global,
    bytes: &[u8],
    tile: &mut [Cell],
    maker: &M,
    entries: &mut [M::Entry],
) -> Result<String, AllocError>
    requires { length tile.old ≤ length entries.old }
    ensures { IfOk result (λ text. Answers bytes.now (length tile.old) (string_bytes text)) }
{
    match solve_file(bytes, tile, maker, entries) {
        Ok(solution) => text_of(alloc, &solution, tile),
        Err(refusal) => line_of(alloc, refusal),
    }
}

/// What is printed for a tile file, solved in so many records by a cut maker, of whose workspace an entry is given: a line about the
/// solution and a line for each row, or a line about the first fault. Only want of memory is an error.
pub fn answer<M: CutMaker>(
    alloc: Global,
    bytes: &[u8],
    records: usize,
    maker: &M,
    entry: M::Entry,
) -> Result<String, AllocError>
where
    M::Entry: Clone + Drop,
    ensures { IfOk result (λ text. Answers bytes.now records (string_bytes text)) }
{
    let mut tile = vec![in alloc; Cell::default(); records]?;
    let mut entries = vec![in alloc; entry; records]?;
    answer_in(alloc, bytes, &mut tile, maker, &mut entries)
}
