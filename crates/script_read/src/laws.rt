//! Laws on the lines of a script. No program needs to call them: each has its laws as its contract.
ghost use Rattle.script_read.specs.Laws.{PhaseIsByFirstAppearance, PhasesSplitAtRest, PhasesWithoutRest, RefusedOnlyThere, RefusedThere};

/// The phases of lines.
pub fn phases()
    ensures by_first_appearance { PhaseIsByFirstAppearance }
    ensures without_rest { PhasesWithoutRest }
    ensures split_at_rest { PhasesSplitAtRest }
{}

/// The line that a script is refused for.
pub fn refusals()
    ensures only_there { RefusedOnlyThere }
    ensures there { RefusedThere }
{}
