// The rule whose price grows by the class weight with every level away from the reading.
ghost use Rattle.std.specs.Prelude.{◌≡◌};
ghost use Rattle.theory.specs.Grids.{step_of};
ghost use Rattle.price.specs.Kinds.{absolute_price};

use crate::greatest::Greatest;
use crate::question::Question;
use crate::rule::PriceRule;
use crate::weight::class_weight;
use limits::Refusal;

/// The price grows by the class weight with every level away from the reading.
#[derive(Clone, Copy)]
pub struct Absolute {
    greatest: Greatest,
}

impl Absolute {
    ghost use Rattle.price.specs.Kinds.{absolute};
    ghost use Rattle.price.specs.Made.{absolute_of};
    ghost use Rattle.price.specs.Making.{MadeFor};

    /// The rule made for this greatest level.
    pub fn new(greatest: u16) -> Result<Absolute, Refusal>
        ensures { MadeFor greatest (λ rule. absolute_of rule ≡ absolute greatest) result }
    {
        let greatest = Greatest::new(greatest)?;
        Ok(Absolute { greatest })
    }
}

impl PriceRule for Absolute {
    ghost use Rattle.price.specs.Made.{absolute_of};
    ghost use Rattle.price.specs.Kept.{absolute_lawful};

    ghost rule = { absolute_of };

    ghost lawful = { λ s. absolute_lawful s.greatest.level s.greatest.ranged };

    fn greatest(&self) -> u16 {
        self.greatest.level()
    }

    fn price(&self, reading: u16, class: u8, height: u16) -> u32 {
        self.greatest
            .question(reading, class, height)
            .map_or(0, price_at)
    }

    fn step(&self, reading: u16, class: u8, height: u16) -> i32 {
        self.greatest
            .step_question(reading, class, height)
            .map_or(0, step_at)
    }
}

// The price of a height.
fn price_at(asked: Question) -> u32
    ensures { result ≡ absolute_price asked.reading asked.class asked.height }
{
    class_weight(asked.class) * u32::from(asked.height.abs_diff(asked.reading))
}

// What the next height costs more than this one.
#[tactic(auto, using(crate::proofs::Steps::absolute_step))]
fn step_at(asked: Question) -> i32
    ensures { result ≡ step_of (absolute_price asked.reading asked.class) asked.height }
{
    let weight = class_weight(asked.class) as i32;
    if asked.reading <= asked.height {
        weight
    } else {
        -weight
    }
}
