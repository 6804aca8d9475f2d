// The greatest level that a rule is made for.
ghost use Rattle.std.specs.Prelude.{◌≡◌, ◌&&◌, nat_le, nat_lt};
ghost use Rattle.price.specs.Rules.{known};
ghost use Rattle.price.specs.Making.{RuleLevel, MadeFor};
ghost use Rattle.price.specs.Asking.{AskedWhere};

use crate::question::Question;
use limits::{MAX_CLASS, MAX_TOP, Refusal};

// A level from 1 to the greatest that a rule may be made for.
#[derive(Clone, Copy)]
pub struct Greatest {
    level: u16,
    ghost ranged: { RuleLevel level },
}

impl Greatest {
    // The level, if a rule may be made for it.
    pub fn new(level: u16) -> Result<Greatest, Refusal>
        ensures { MadeFor level (λ g. g.level ≡ level) result }
    {
        if (1..=MAX_TOP).contains(&level) {
            Ok(Greatest { level })
        } else {
            Err(Refusal::Range)
        }
    }

    // The level.
    pub fn level(self) -> u16
        ensures { result ≡ self.level }
    {
        self.level
    }

    // What a rule is asked, if a rule made for this level has a price for the height.
    pub fn question(self, reading: u16, class: u8, height: u16) -> Option<Question>
        ensures { AskedWhere (known self.level reading class && nat_le height self.level)
            reading class height result }
    {
        if reading <= self.level && class <= MAX_CLASS && height <= self.level {
            Some(Question {
                reading,
                class,
                height,
            })
        } else {
            None
        }
    }

    // What a rule is asked, if such a rule has a step from the height to the next.
    pub fn step_question(self, reading: u16, class: u8, height: u16) -> Option<Question>
        ensures { AskedWhere (known self.level reading class && nat_lt height self.level)
            reading class height result }
    {
        self.question(reading, class, height)
            .filter(|asked| asked.height < self.level)
    }
}
