//! Laws of whole runs.

ghost use Rattle.match_runs.specs.Laws.{RunsShowAll, RunsShowNoMore, ProgramsShowAll, ProgramsShowNoMore, TurnsAreEnough, ProgramsWalkTheShadow};

/// Where each step of linear code is matched by turns of the machine, the machine shows within so
/// many turns what linear code shows, and ends as it ends; and within as many turns as linear code
/// makes, it shows no more, has no other end, and the walk gives the shadow after each number of
/// turns.
pub fn laws()
    ensures all { RunsShowAll }
    ensures no_more { RunsShowNoMore }
    ensures programs_all { ProgramsShowAll }
    ensures programs_no_more { ProgramsShowNoMore }
    ensures enough { TurnsAreEnough }
    ensures shadow { ProgramsWalkTheShadow }
{}
