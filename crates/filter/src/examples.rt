// The definitions by examples in numbers: whole runs on a tile of one cell.
ghost use Rattle.filter.specs.Examples.{HistoriesAreRead, LendingIsRead, RunsCanBeMet, StartsAreRead, DraftCallsAreRead, RoundCallsAreRead, LevelCallsAreRead};

// What histories survey and calls answer there, and that whatever the law of runs asks for can be met.
pub fn examples()
    ensures histories { HistoriesAreRead }
    ensures lending { LendingIsRead }
    ensures runs { RunsCanBeMet }
    ensures starts { StartsAreRead }
    ensures draft_calls { DraftCallsAreRead }
    ensures round_calls { RoundCallsAreRead }
    ensures level_calls { LevelCallsAreRead }
{}
