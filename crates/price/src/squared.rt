// The rule whose price is the class weight times the square of the distance from the reading.
ghost use Rattle.std.specs.Prelude.{◌≡◌, ◌+◌, ◌*◌, ◌≤◌};
ghost use Rattle.theory.specs.Grids.{step_of};
ghost use Rattle.limits.specs.Limits.{most_top, most_class, most_step};
ghost use Rattle.price.specs.Weights.{class_weight};
ghost use Rattle.price.specs.Kinds.{squared_price};

use crate::greatest::Greatest;
use crate::question::Question;
use crate::rule::PriceRule;
use crate::weight::class_weight;
use limits::Refusal;

/// The price is the class weight times the square of the distance from the reading.
#[derive(Clone, Copy)]
pub struct Squared {
    greatest: Greatest,
}

impl Squared {
    ghost use Rattle.price.specs.Kinds.{squared};
    ghost use Rattle.price.specs.Made.{squared_of};
    ghost use Rattle.price.specs.Making.{MadeFor};

    /// The rule made for this greatest level.
    pub fn new(greatest: u16) -> Result<Squared, Refusal>
        ensures { MadeFor greatest (λ rule. squared_of rule ≡ squared greatest) result }
    {
        let greatest = Greatest::new(greatest)?;
        Ok(Squared { greatest })
    }
}

impl PriceRule for Squared {
    ghost use Rattle.price.specs.Made.{squared_of};
    ghost use Rattle.price.specs.Kept.{squared_lawful};

    ghost rule = { squared_of };

    ghost lawful = { λ s. squared_lawful s.greatest.level s.greatest.ranged };

    fn greatest(&self) -> u16 {
        self.greatest.level()
    }

    fn price(&self, reading: u16, class: u8, height: u16) -> u32 {
        self.greatest
            .question(reading, class, height)
            .map_or(0, price_at)
    }

    fn step(&self, reading: u16, class: u8, height: u16) -> i32 {
        self.greatest
            .step_question(reading, class, height)
            .map_or(0, step_at)
    }
}

// The price of a height.
#[tactic(auto, using(crate::specs::Kept::squared_most))]
fn price_at(asked: Question) -> u32
    ensures { result ≡ squared_price asked.reading asked.class asked.height }
{
    class_weight(asked.class) * square(asked.height.abs_diff(asked.reading))
}

// What the next height costs more than this one.
#[tactic(auto, using(crate::proofs::Steps::squared_step))]
fn step_at(asked: Question) -> i32
    ensures { result ≡ step_of (squared_price asked.reading asked.class) asked.height }
{
    if asked.reading <= asked.height {
        rise(asked.class, asked.height - asked.reading) as i32
    } else {
        -(rise(asked.class, asked.reading - asked.height - 1) as i32)
    }
}

// The square of a distance.
fn square(distance: u16) -> u32
    ensures { result ≡ distance * distance }
{
    let side = u32::from(distance);
    side * side
}

// How much the price rises from this distance to the next.
#[tactic(auto, using(crate::specs::Kept::odd_most))]
fn rise(class: u8, distance: u16) -> u32
    requires { (class ≤ most_class) × (distance ≤ most_top) }
    ensures value { result ≡ class_weight class * (2 * distance + 1) }
    ensures small { result ≤ most_step }
{
    class_weight(class) * square_rise(distance)
}

// The next square is more by this odd number.
fn square_rise(distance: u16) -> u32
    ensures { result ≡ 2 * distance + 1 }
{
    2 * u32::from(distance) + 1
}
