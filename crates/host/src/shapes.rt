// What a tile file asks for, before there is memory for it.
ghost use Rattle.std.specs.Prelude.{◌≡◌};
ghost use Rattle.host.specs.Shapes.{shape_numbers, ShapeAnswered, ShapeTold};

use crate::fault::FaultNumbers;
use crate::solving::tell;
use limits::{MAX_COLUMNS, MAX_ROWS};
use report::FileRefusal;
use tile::Shape;
use tilefile::Contents;

// As many records as any tile has.
const RECORDS: usize = MAX_ROWS * MAX_COLUMNS;

// Rows, columns and top, as C holds them.
#[repr(C)]
#[derive(Clone, Copy, PartialEq, Eq, Debug, Default)]
pub struct ShapeNumbers {
    pub rows: usize,
    pub columns: usize,
    pub top: u16,
}

impl ShapeNumbers {
    // Those of a shape.
    fn of(shape: Shape) -> ShapeNumbers
        ensures { result ≡ shape_numbers shape }
    {
        ShapeNumbers {
            rows: shape.rows(),
            columns: shape.columns(),
            top: shape.top(),
        }
    }
}

// Checks a tile file for a tile of any size.
fn check(bytes: &[u8]) -> Result<ShapeNumbers, FileRefusal>
    ensures { ShapeAnswered bytes.now result }
{
    let contents = Contents::check(bytes, RECORDS)?;
    Ok(ShapeNumbers::of(contents.shape()))
}

/// Checks a tile file, and says how many rows and columns its tile has, and its greatest height.
#[unsafe(no_mangle)]
pub extern "C" fn yolanthuk_file_shape(
    bytes: &[u8],
    shape: &mut ShapeNumbers,
    fault: &mut FaultNumbers,
) -> i32
    ensures { ShapeTold bytes.now shape.old fault.old result shape.new fault.new }
{
    tell(check(bytes), shape, fault)
}
