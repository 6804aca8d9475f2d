// The letter that names a file's price rule.
use crate::fault::Flaw;

/// The letters that name a price rule.
#[derive(Clone, Copy, PartialEq, Eq, Debug)]
pub enum Letter {
    /// A
    Absolute,
    /// Q
    Squared,
    /// L
    Leaning,
}

impl TryFrom<u8> for Letter {
    type Error = Flaw;

    ghost use Rattle.tilefile.specs.Letters.{ReadAsLetter};

    ghost try_from_gives = { ReadAsLetter };

    fn try_from(byte: u8) -> Result<Letter, Flaw> {
        match char::from(byte) {
            'A' => Ok(Letter::Absolute),
            'Q' => Ok(Letter::Squared),
            'L' => Ok(Letter::Leaning),
            _ => Err(Flaw::Letter),
        }
    }
}
