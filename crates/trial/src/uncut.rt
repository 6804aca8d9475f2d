// What the trial answers where a tile is not cut.
use std::error::Error;
use std::fmt;

/// Why a tile is not cut.
#[derive(Clone, Copy, PartialEq, Eq, Debug)]
pub enum Uncut {
    /// It is no tile that a cut maker may be given.
    Unfit,
    /// There are fewer entries of workspace than the tile has cells.
    FewEntries,
}

impl fmt::Display for Uncut {
    fn fmt<W: fmt::Write>(&self, f: &mut fmt::Formatter<W>) -> fmt::Result {
        match self {
            Uncut::Unfit => write!(f, "no tile that may be cut"),
            Uncut::FewEntries => write!(f, "fewer entries than cells"),
        }
    }
}

impl Error for Uncut {}
