// Solving a tile file into a list of heights.
ghost use Rattle.std.specs.Prelude.{◌≡◌, length};
ghost use Rattle.filter.specs.Calls.{KeptIfRefused};
ghost use Rattle.report.specs.Copying.{PlacesChecked, SolveFileIntoDoes};

use crate::refusing::FileRefusal;
use crate::solving::{Solution, check_room, solve_by_letter};
use flow::CutMaker;
use passes::copy_low_ends;
use tile::{Cell, Shape};
use tilefile::Contents;

// Is there a place for each height?
fn check_places(shape: Shape, places: usize) -> Result<(), FileRefusal>
    ensures { PlacesChecked shape places (λ e. result ≡ Err e) (result ≡ Ok tt) }
{
    if places < shape.cells() {
        return Err(FileRefusal::FewPlaces);
    }
    Ok(())
}

/// Solves a tile file as `solve_file` does, and copies the heights, row by row, into a list of the host's. It is refused for fewer
/// places in the list than the tile has cells, too. A refusal leaves tile, workspace and list as they were.
pub fn solve_file_into<M: CutMaker>(
    bytes: &[u8],
    tile: &mut [Cell],
    maker: &M,
    entries: &mut [M::Entry],
    heights: &mut [u16],
) -> Result<Solution, FileRefusal>
    ensures does { SolveFileIntoDoes (M.CutMaker.leaves maker.now) bytes.now tile.old (length entries.old) heights.old result tile.new heights.new }
    ensures workspace { KeptIfRefused result entries.old entries.new }
{
    let contents = Contents::check(bytes, tile.len())?;
    check_places(contents.shape(), heights.len())?;
    check_room(contents.shape(), entries.len())?;
    let solution = solve_by_letter(&contents, tile, maker, entries);
    copy_low_ends(contents.shape(), tile, heights);
    Ok(solution)
}
