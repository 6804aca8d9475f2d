// Reading a tile file.
ghost use Rattle.std.specs.Prelude.{IfOk};
ghost use Rattle.tilefile.specs.Files.{file_survey, ReadDoes, LedTo};
ghost use Rattle.tilefile.specs.Layout.{IsLayout, AcceptsLayouts};

use crate::contents::Contents;
use crate::fault::Fault;
use crate::letter::Letter;
use filter::Draft;
use tile::Cell;

/// Reads a tile file into the records, and answers the draft that they are and the letter of the price rule. A file with a fault is
/// refused with the first one, and the records are as they were.
pub fn read_tile(bytes: &[u8], tile: &mut [Cell]) -> Result<(Draft, Letter), Fault>
    ensures does { ReadDoes bytes.now tile.old result tile.new }
    // What is accepted is a layout of what is answered, byte for byte; and every layout is accepted.
    ensures found { IfOk result (λ x. IsLayout bytes.now x.1 x.0.shape) }
    ensures only { AcceptsLayouts bytes.now tile.old result tile.new }
    ensures ends_run { IfOk result (λ x. LedTo x.0 (file_survey x.0.shape bytes.now) tile.new) }
{
    let contents = Contents::check(bytes, tile.len())?;
    let draft = contents.fill(tile).unwrap();
    Ok((draft, contents.letter()))
}
