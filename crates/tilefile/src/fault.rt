// Why a tile file is refused: what is wrong, and where.
ghost use Rattle.std.specs.Prelude.{◌≡◌};
ghost use Rattle.tilefile.specs.Faults.{section_number, entry_number, flaw_number, inner_number};

use std::error::Error;
use std::fmt;
use tile::ShapeError;

/// The sections of a file, in their order.
#[derive(Clone, Copy, PartialEq, Eq, Debug)]
pub enum Section {
    Rule = 1,
    Shape = 2,
    Readings = 3,
    Ties = 4,
}

impl Section {
    /// The number that the section is reported by.
    pub fn number(self) -> u8
        ensures { result ≡ section_number self }
    {
        self as u8
    }
}

/// What is wrong with an entry that a call on the tile would refuse.
#[derive(Clone, Copy, PartialEq, Eq, Debug)]
pub enum EntryFlaw {
    /// Rows, columns or top is out of range.
    Range = 1,
    /// There are fewer records than the tile has cells.
    FewRecords = 2,
    /// The reading is above the tile's top, or the class above the greatest class.
    Reading = 5,
    /// The tie is above the greatest tie, or is not 0 where the tile ends.
    Tie = 6,
}

impl EntryFlaw {
    /// The number of the refusal that the call would answer.
    pub fn number(self) -> u8
        ensures { result ≡ entry_number self }
    {
        self as u8
    }
}

impl From<ShapeError> for EntryFlaw {
    ghost use Rattle.tilefile.specs.declared.fault.EntryFlaw.TheVariants.{Range};

    ghost from_gives = { λ _ why. why ≡ Range };

    fn from(_error: ShapeError) -> EntryFlaw {
        EntryFlaw::Range
    }
}

/// What is wrong with a file.
#[derive(Clone, Copy, PartialEq, Eq, Debug)]
pub enum Flaw {
    /// The bytes end within a count or an entry, or before one.
    Truncated,
    /// A count is not the one that has to stand here.
    Count,
    /// The letter names no price rule.
    Letter,
    /// A call on the tile would refuse the entry.
    Entry(EntryFlaw),
    /// Bytes follow the last section.
    Trailing,
}

impl Flaw {
    /// The number that the flaw is reported by.
    pub fn number(self) -> u8
        ensures { result ≡ flaw_number self }
    {
        match self {
            Flaw::Truncated => 11,
            Flaw::Count => 12,
            Flaw::Letter => 13,
            Flaw::Entry(_) => 14,
            Flaw::Trailing => 15,
        }
    }

    /// The number of what is wrong with an entry; 0 for every other flaw.
    pub fn inner_number(self) -> u8
        ensures { result ≡ inner_number self }
    {
        match self {
            Flaw::Entry(why) => why.number(),
            _ => 0,
        }
    }
}

/// What is wrong with a file, and where: in which section, and at which byte of the file, counted from 0. That is the first byte of
/// the count or the entry at fault; the file's length where the bytes end too early; the first byte too many.
#[derive(Clone, Copy, PartialEq, Eq, Debug)]
pub struct Fault {
    pub section: Section,
    pub place: usize,
    pub flaw: Flaw,
}

impl fmt::Display for Fault {
    ghost use Rattle.std.specs.Prelude.{Some};
    ghost use Rattle.tilefile.specs.Faults.{fault_text};

    ghost output = { λ fault. Some (fault_text fault) };

    fn fmt<W: fmt::Write>(&self, f: &mut fmt::Formatter<W>) -> fmt::Result {
        let (number, inner) = (self.flaw.number(), self.flaw.inner_number());
        let (section, place) = (self.section.number(), self.place);
        write!(f, "refused {number} {section} {place} {inner}")
    }
}

impl Error for Fault {}
