// The definitions by examples in numbers.
ghost use Rattle.tile.specs.Examples.{ShapesAreRead, TiesAreRead, RecordsAreRead, EnergiesOfTiles, Halvings, RoundsAreCounted};

// What shapes, ties, records, energies and halvings come to on two small tiles.
pub fn examples()
    ensures shapes { ShapesAreRead }
    ensures ties { TiesAreRead }
    ensures records { RecordsAreRead }
    ensures energies { EnergiesOfTiles }
    ensures halvings { Halvings }
    ensures rounds { RoundsAreCounted }
{}
