// How much of a file has to be read.
ghost use Rattle.std.specs.Prelude.{◌≡◌, ◌+◌, ◌-◌, ◌*◌, min};
ghost use Rattle.limits.specs.Limits.{most_rows, most_columns};
ghost use Rattle.tilefile.specs.Bounds.{NoneLonger, FrontTells};

use limits::{MAX_COLUMNS, MAX_ROWS};

/// How many bytes of a file tell what checking it for so many records answers: one more than the longest file without a fault has. A
/// longer file has a fault, and the first one is that of its front.
pub fn front_length(records: usize) -> usize
    ensures length { result ≡ 15 + 7 * min records (most_rows * most_columns) + 1 }
    ensures none_longer { NoneLonger (result - 1) records }
    ensures tells { FrontTells result records }
{
    let cells = records.min(MAX_ROWS * MAX_COLUMNS);
    15 + 7 * cells + 1
}
