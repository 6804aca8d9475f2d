// The definitions by examples in numbers: the first cut of two cells.
ghost use Rattle.flow.specs.Examples.{NetworksAreRead, TilesToCut, PointsOfCuts};

/// Which tiles of two cells may be cut, and which cuts of them keep the four points.
pub fn examples()
    ensures networks { NetworksAreRead }
    ensures tiles { TilesToCut }
    ensures points { PointsOfCuts }
{}
