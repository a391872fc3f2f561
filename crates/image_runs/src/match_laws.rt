//! Laws of the runs of compiled programs.

ghost use Rattle.image_runs.specs.MatchLaws.{MatchedRunsShowAll, MatchedRunsShowNoMore, MatchedRunsWalkTheShadow};

/// Where each step of a sound program's linear code is matched by turns of the machine, at most
/// sixteen and those ahead, and at most 160 turns, beside those ahead of it, lead to the beginning
/// of `main`, a run of 256 n + 256 turns shows what the program shows within n steps, and ends as
/// it ends; and m turns show no more than the steps that m turns of linear code represent, and lead
/// to a state in which the walk gives the shadow.
pub fn laws()
    ensures all { MatchedRunsShowAll }
    ensures no_more { MatchedRunsShowNoMore }
    ensures shadow { MatchedRunsWalkTheShadow }
{}
