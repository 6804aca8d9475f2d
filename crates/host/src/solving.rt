// Solving a tile file.
ghost use Rattle.std.specs.Prelude.{◌≡◌, length};
ghost use Rattle.host.specs.Files.{most_cells, answer_code, written, faulted, FileTold, KeptUnlessDone};

use crate::fault::{DONE, FaultNumbers};
use cut::{AugmentingPaths, PushRelabel, Step};
use limits::{MAX_COLUMNS, MAX_ROWS};
use report::{FileRefusal, Solution, solve_file_into};
use tile::Cell;

// Enough entries for any tile.
const ENTRIES: usize = MAX_ROWS * MAX_COLUMNS;

// The code of an answer. What was asked for is written out, or the numbers of the refusal.
pub(crate) fn tell<N: Copy>(
    answer: Result<N, FileRefusal>,
    out: &mut N,
    fault: &mut FaultNumbers,
) -> i32
    ensures told { result ≡ answer_code answer }
    ensures writes { out.new ≡ written answer out.old }
    ensures fault { fault.new ≡ faulted answer fault.old }
{
    match answer {
        Ok(numbers) => {
            *out = numbers;
            DONE
        }
        Err(refusal) => {
            *fault = FaultNumbers::of(refusal);
            fault.number
        }
    }
}

/// Solves a tile file, by push-relabel with its workspace, and copies the heights, row by row.
#[unsafe(no_mangle)]
pub extern "C" fn yolanthuk_solve_file(
    bytes: &[u8],
    tile: &mut [Cell],
    entries: &mut [u16],
    heights: &mut [u16],
    solution: &mut Solution,
    fault: &mut FaultNumbers,
) -> i32
    ensures does { FileTold bytes.now tile.old (length entries.old) heights.old solution.old fault.old result tile.new heights.new solution.new fault.new }
    ensures workspace { KeptUnlessDone result entries.old entries.new }
{
    let answer = solve_file_into(bytes, tile, &PushRelabel, entries, heights);
    tell(answer, solution, fault)
}

/// Solves a tile file, by augmenting paths, and copies the heights, row by row. Steps are no plain numbers, so C cannot own the
/// workspace: it lies on the stack.
#[unsafe(no_mangle)]
pub extern "C" fn yolanthuk_solve_file_by_paths(
    bytes: &[u8],
    tile: &mut [Cell],
    heights: &mut [u16],
    solution: &mut Solution,
    fault: &mut FaultNumbers,
) -> i32
    ensures { FileTold bytes.now tile.old most_cells heights.old solution.old fault.old result tile.new heights.new solution.new fault.new }
{
    let mut entries = [Step::default(); ENTRIES];
    let answer = solve_file_into(bytes, tile, &AugmentingPaths, &mut entries, heights);
    tell(answer, solution, fault)
}
