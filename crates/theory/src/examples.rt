// The definitions by examples in numbers: two cells with charges 11 and −9 over a tie of weight 6.
ghost use Rattle.theory.specs.Examples.{SumsAddUp, GraphsAreRead, CostsOfSets, SmallestOfTheCheapest, ChargesCanBeHigher, FlowsAreRead, CertificatesCanFail, EnergiesOfGrids, GridsCanBeMet, StepsCanBeLowered, BracketsAreRead, ChargesOfHalving, BracketsCanBeMet};

// What sets, flows, grids and brackets come to there, and that every hypothesis of the theorems can be met.
pub fn examples()
    ensures sums { SumsAddUp }
    ensures graphs { GraphsAreRead }
    ensures costs { CostsOfSets }
    ensures smallest { SmallestOfTheCheapest }
    ensures higher { ChargesCanBeHigher }
    ensures flows { FlowsAreRead }
    ensures certificates { CertificatesCanFail }
    ensures energies { EnergiesOfGrids }
    ensures grids { GridsCanBeMet }
    ensures lower { StepsCanBeLowered }
    ensures brackets { BracketsAreRead }
    ensures charges { ChargesOfHalving }
    ensures bracketed { BracketsCanBeMet }
{}
