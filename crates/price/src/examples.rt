// The definitions by examples in numbers.
ghost use Rattle.price.specs.Examples.{WeightsOfClasses, PricesOfHeights, StepsOfHeights, AnswersOfRules, LawsOfRules, MakingForLevels};

// What weights, prices and steps come to, and which rules are lawful and which are not.
pub fn examples()
    ensures weights { WeightsOfClasses }
    ensures prices { PricesOfHeights }
    ensures steps { StepsOfHeights }
    ensures answers { AnswersOfRules }
    ensures laws { LawsOfRules }
    ensures making { MakingForLevels }
{}
