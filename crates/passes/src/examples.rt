// The definitions by examples in numbers: the first round on two cells.
ghost use Rattle.passes.specs.Examples.{SoundnessIsRead, TilesAreSound, RecordsAreWritten, RoundsAreRead};

// Which records are sound, and what clearing, charging, narrowing and copying come to.
pub fn examples()
    ensures soundness { SoundnessIsRead }
    ensures sound { TilesAreSound }
    ensures written { RecordsAreWritten }
    ensures rounds { RoundsAreRead }
{}
