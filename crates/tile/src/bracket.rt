// Brackets of heights, and their halving.
ghost use Rattle.std.specs.Prelude.{◌≡◌, ◌+◌, ◌==◌};
ghost use Rattle.std.specs.Int.Count.{count_leading_zeros};
ghost use Rattle.theory.specs.Brackets.{middle};
ghost use Rattle.tile.specs.Halving.{from_to, half_toward, halving, RoundsDue, HalvingHoldsItsHeight, HalvingStaysBelowTop, HalvingsAreEqualOrDisjoint, HalvingEndsAtItsHeight};

/// The heights from a lowest to a highest.
#[derive(Clone, Copy, PartialEq, Eq, Debug)]
pub struct Bracket {
    pub low: u16,
    pub high: u16,
}

impl Bracket {
    /// The middle, rounded down.
    pub fn middle(self) -> u16
        ensures { result ≡ middle self.low self.high }
    {
        ((u32::from(self.low) + u32::from(self.high)) / 2) as u16
    }

    /// Are the low and the high end the same?
    pub fn is_settled(self) -> bool
        ensures { result ≡ (self.low == self.high) }
    {
        self.low == self.high
    }

    /// The half that a height belongs to: up to the middle, or past it.
    pub fn toward(self, height: u16) -> Bracket
        ensures { result ≡ half_toward self height }
    {
        let middle = self.middle();
        if height <= middle {
            Bracket {
                low: self.low,
                high: middle,
            }
        } else {
            Bracket {
                low: middle + 1,
                high: self.high,
            }
        }
    }
}

// The bracket of all heights up to a top.
fn whole(top: u16) -> Bracket
    ensures { result ≡ from_to 0 top }
{
    Bracket { low: 0, high: top }
}

/// The bracket that holds a height after so many halvings of 0..top.
#[tactic(auto, using(crate::proofs::Halves::halving_more))]
pub fn halving(rounds: u8, top: u16, height: u16) -> Bracket
    ensures { result ≡ halving rounds top height }
{
    let mut bracket = whole(top);
    for _round in 0..rounds {
        bracket = bracket.toward(height);
    }
    bracket
}

// How many binary digits a number has.
fn digits(number: u16) -> u8
    ensures { count_leading_zeros 16 number + result ≡ 16 }
{
    16 - number.leading_zeros() as u8
}

/// How many halvings leave one height of 0..top.
pub fn rounds_due(top: u16) -> u8
    ensures { RoundsDue top result }
{
    digits(top)
}

// What is known of halvings.
#[tactic(auto, using(crate::proofs::Halves::halving_holds, crate::proofs::Halves::halving_below, crate::proofs::Halves::halving_apart, crate::proofs::Halves::halving_ends))]
pub fn halving_laws()
    ensures holds { HalvingHoldsItsHeight }
    ensures below { HalvingStaysBelowTop }
    ensures apart { HalvingsAreEqualOrDisjoint }
    ensures ends { HalvingEndsAtItsHeight }
{}
