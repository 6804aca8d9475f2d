// The definitions by examples in numbers: the file of two cells.
ghost use Rattle.tilefile.specs.Examples.{BytesAreRead, LayoutsAreRead, FilesAreRead, NumbersOfEntries, TextsOfFaults};

/// How small files are laid out, what they say, and which faults they have.
pub fn examples()
    ensures bytes { BytesAreRead }
    ensures layouts { LayoutsAreRead }
    ensures files { FilesAreRead }
    ensures entries { NumbersOfEntries }
    ensures texts { TextsOfFaults }
{}
