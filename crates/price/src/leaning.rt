// The rule under which a level above the reading costs four times what one below it does.
ghost use Rattle.std.specs.Prelude.{◌≡◌};
ghost use Rattle.theory.specs.Grids.{step_of};
ghost use Rattle.price.specs.Kinds.{leaning_price};

use crate::greatest::Greatest;
use crate::question::Question;
use crate::rule::PriceRule;
use crate::weight::class_weight;
use limits::Refusal;

/// The price grows by the class weight with every level below the reading, and by four times that with every level above it.
#[derive(Clone, Copy)]
pub struct Leaning {
    greatest: Greatest,
}

impl Leaning {
    ghost use Rattle.price.specs.Kinds.{leaning};
    ghost use Rattle.price.specs.Made.{leaning_of};
    ghost use Rattle.price.specs.Making.{MadeFor};

    /// The rule made for this greatest level.
    pub fn new(greatest: u16) -> Result<Leaning, Refusal>
        ensures { MadeFor greatest (λ rule. leaning_of rule ≡ leaning greatest) result }
    {
        let greatest = Greatest::new(greatest)?;
        Ok(Leaning { greatest })
    }
}

impl PriceRule for Leaning {
    ghost use Rattle.price.specs.Made.{leaning_of};
    ghost use Rattle.price.specs.Kept.{leaning_lawful};

    ghost rule = { leaning_of };

    ghost lawful = { λ s. leaning_lawful s.greatest.level s.greatest.ranged };

    fn greatest(&self) -> u16 {
        self.greatest.level()
    }

    fn price(&self, reading: u16, class: u8, height: u16) -> u32 {
        self.greatest
            .question(reading, class, height)
            .map_or(0, price_at)
    }

    fn step(&self, reading: u16, class: u8, height: u16) -> i32 {
        self.greatest
            .step_question(reading, class, height)
            .map_or(0, step_at)
    }
}

// The price of a height.
fn price_at(asked: Question) -> u32
    ensures { result ≡ leaning_price asked.reading asked.class asked.height }
{
    let weight = class_weight(asked.class);
    if asked.height <= asked.reading {
        weight * u32::from(asked.reading - asked.height)
    } else {
        4 * weight * u32::from(asked.height - asked.reading)
    }
}

// What the next height costs more than this one.
#[tactic(auto, using(crate::proofs::Steps::leaning_step))]
fn step_at(asked: Question) -> i32
    ensures { result ≡ step_of (leaning_price asked.reading asked.class) asked.height }
{
    let weight = class_weight(asked.class) as i32;
    if asked.reading <= asked.height {
        4 * weight
    } else {
        -weight
    }
}
