// The mathematics of the filter, as theorems on contracts: a function here computes nothing, and its
// contract holds for graphs whose ties are told apart by values of any type `T`.
#![tactic(auto)]

pub mod examples;

ghost use Rattle.theory.specs.Brackets.{HalvingFindsTheUpperHalf};
ghost use Rattle.theory.specs.Flows.{CertifiedMarksAreTheSmallestCheapestSet};
ghost use Rattle.theory.specs.Instance.{CertificateCanBeMet};
ghost use Rattle.theory.specs.Levels.{EnergyIsTheSumOfItsLevels, LowestCheapestGridHasSmallestLevels, GridWithSmallestLevelsIsLowestCheapest, LowestCheapestGridExists, LowestCheapestGridIsUnique, LowerStepsRaiseTheGrid};
ghost use Rattle.theory.specs.Sets.{CostIsSubmodular, SmallestCheapestSetExists, SmallestCheapestSetIsUnique, HigherChargesShrinkTheSet};

// What is known of the cheapest sets of cells.
pub fn smallest_cheapest_sets<T>()
    ensures submodular { CostIsSubmodular T }
    ensures exists { SmallestCheapestSetExists T }
    ensures unique { SmallestCheapestSetIsUnique T }
    ensures comparison { HigherChargesShrinkTheSet T }
{}

// A flow and its marks prove that the marks are the smallest cheapest set.
pub fn cut_certificate<T>()
    ensures { CertifiedMarksAreTheSmallestCheapestSet T }
{}

// Grids and their level sets: sums of costs one way, smallest cheapest sets the other.
pub fn level_sets<T>()
    ensures energy { EnergyIsTheSumOfItsLevels T }
    ensures smallest { LowestCheapestGridHasSmallestLevels T }
    ensures lowest { GridWithSmallestLevelsIsLowestCheapest T }
{}

// The lowest cheapest grid: there is one, there is only one, and lower steps do not lower it.
pub fn lowest_cheapest_grids<T>()
    ensures exists { LowestCheapestGridExists T }
    ensures unique { LowestCheapestGridIsUnique T }
    ensures raised { LowerStepsRaiseTheGrid T }
{}

// One minimum cut halves all brackets: which cells go into the upper half of theirs.
pub fn halving_step<T>()
    ensures { HalvingFindsTheUpperHalf T }
{}

// The hypotheses of the certificate can be met: charges 11 and −9 over a tie of weight 6.
pub fn certificate_can_be_met()
    ensures { CertificateCanBeMet }
{}
