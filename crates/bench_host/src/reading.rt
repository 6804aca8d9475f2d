// Reading a tile file.
ghost use Rattle.bench_host.specs.Calls.{ReadDoes};

use crate::codes::{DONE, REFUSED};
use tile::Cell;
use tilefile::read_tile;

/// Reads a tile file into the records, which are then a draft.
#[unsafe(no_mangle)]
pub extern "C" fn bench_read(bytes: &[u8], tile: &mut [Cell]) -> i32
    ensures { ReadDoes bytes.now tile.old result tile.new }
{
    match read_tile(bytes, tile) {
        Ok(_) => DONE,
        Err(_) => REFUSED,
    }
}
