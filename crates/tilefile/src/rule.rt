// The price rule that a letter names, whichever it is.
ghost use Rattle.std.specs.Prelude.{◌≡◌};
ghost use Rattle.price.specs.Making.{MadeFor};
ghost use Rattle.tilefile.specs.Letters.{letter_rule};
ghost use Rattle.tilefile.specs.Named.{named_rule, named_lawful};

use crate::letter::Letter;
use limits::Refusal;
use price::{Absolute, Leaning, PriceRule, Squared};

/// The price rule of a letter.
#[derive(Clone, Copy)]
pub enum LetterRule {
    Absolute(Absolute),
    Squared(Squared),
    Leaning(Leaning),
}

impl LetterRule {
    /// The rule of the letter, made for this greatest level.
    pub fn new(letter: Letter, greatest: u16) -> Result<LetterRule, Refusal>
        ensures { MadeFor greatest (λ r. named_rule r ≡ letter_rule letter greatest) result }
    {
        Ok(match letter {
            Letter::Absolute => LetterRule::Absolute(Absolute::new(greatest)?),
            Letter::Squared => LetterRule::Squared(Squared::new(greatest)?),
            Letter::Leaning => LetterRule::Leaning(Leaning::new(greatest)?),
        })
    }
}

impl PriceRule for LetterRule {
    ghost rule = { named_rule };

    ghost lawful = { named_lawful };

    fn greatest(&self) -> u16 {
        match self {
            LetterRule::Absolute(rule) => rule.greatest(),
            LetterRule::Squared(rule) => rule.greatest(),
            LetterRule::Leaning(rule) => rule.greatest(),
        }
    }

    fn price(&self, reading: u16, class: u8, height: u16) -> u32 {
        match self {
            LetterRule::Absolute(rule) => rule.price(reading, class, height),
            LetterRule::Squared(rule) => rule.price(reading, class, height),
            LetterRule::Leaning(rule) => rule.price(reading, class, height),
        }
    }

    fn step(&self, reading: u16, class: u8, height: u16) -> i32 {
        match self {
            LetterRule::Absolute(rule) => rule.step(reading, class, height),
            LetterRule::Squared(rule) => rule.step(reading, class, height),
            LetterRule::Leaning(rule) => rule.step(reading, class, height),
        }
    }
}
