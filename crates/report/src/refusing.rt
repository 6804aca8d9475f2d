// Why a file is not solved.
ghost use Rattle.std.specs.Prelude.{◌≡◌};
ghost use Rattle.report.specs.Refusing.{file_refusal_number};

use limits::Refusal;
use std::error::Error;
use std::fmt;
use tilefile::Fault;

/// Why a file is not solved.
#[derive(Clone, Copy, PartialEq, Eq, Debug)]
pub enum FileRefusal {
    /// The file has a fault.
    File(Fault),
    /// There are fewer entries of workspace than the tile has cells: a round would be refused.
    FewEntries,
    /// There are fewer places for heights than the tile has cells.
    FewPlaces,
}

impl FileRefusal {
    /// The number that the refusal is reported by: 11 to 15 for a fault of the file, 7 for too few entries of workspace, and 0 for too
    /// few places, which the table of refusals does not have.
    pub fn number(self) -> u8
        ensures { result ≡ file_refusal_number self }
    {
        match self {
            FileRefusal::File(fault) => fault.flaw.number(),
            FileRefusal::FewEntries => Refusal::FewEntries.number(),
            FileRefusal::FewPlaces => 0,
        }
    }
}

impl From<Fault> for FileRefusal {
    ghost use Rattle.report.specs.declared.refusing.FileRefusal.TheVariants.{File};

    ghost from_gives = { λ fault e. e ≡ File fault };

    fn from(fault: Fault) -> FileRefusal {
        FileRefusal::File(fault)
    }
}

impl fmt::Display for FileRefusal {
    ghost use Rattle.std.specs.Prelude.{Some};
    ghost use Rattle.report.specs.Refusing.{file_refusal_text};

    ghost output = { λ e. Some (file_refusal_text e) };

    fn fmt<W: fmt::Write>(&self, f: &mut fmt::Formatter<W>) -> fmt::Result {
        match self {
            FileRefusal::File(fault) => write!(f, "{fault}"),
            FileRefusal::FewEntries => write!(f, "{}", Refusal::FewEntries),
            FileRefusal::FewPlaces => f.write_str("fewer places for heights than cells"),
        }
    }
}

impl Error for FileRefusal {}
