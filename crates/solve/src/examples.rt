// The definitions by examples in numbers.
ghost use Rattle.solve.specs.Examples.{SamplesAreRead, SolvingIsRead};

// What samples are, and what solving a tile of one cell answers and leaves.
pub fn examples()
    ensures samples { SamplesAreRead }
    ensures solving { SolvingIsRead }
{}
