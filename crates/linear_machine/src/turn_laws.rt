//! Laws of runs.

ghost use Rattle.source_meaning.specs.Laws.{ShowsMore, EndStays};
ghost use Rattle.linear_machine.specs.Run.{linear_meaning};
ghost use Rattle.linear_machine.specs.BuiltInCalls.{WalksAreCalled};

/// What n turns show is the front of what more turns show, and a run that has ended shows nothing
/// more.
pub fn more_turns()
    ensures shows_more { ShowsMore linear_meaning }
    ensures end_stays { EndStays linear_meaning }
{}

/// A program that doesn't call `walk` shows no event of a printed walk.
pub fn walk_events()
    ensures { WalksAreCalled }
{}
