//! What holds of every sound program and the linear code that it is lowered to.

ghost use Rattle.lowering_follows.specs.LoweringLaws.{LoweredIsLinked, LoweredFollows, LoweredShowsNoMore};

/// Each function and each funclet of a sound program is in its linear code.
pub fn is_linked()
    ensures linked { LoweredIsLinked }
{}

/// From 16 n + 6 turns on the linear code of a sound program has shown the events of n steps, and
/// has ended as they end.
pub fn follows()
    ensures follows { LoweredFollows }
{}

/// The turns of the linear code show no more than the steps of the program, steps_per_turn_of for
/// each turn and for one more; it ends only as they end, and is never stuck.
pub fn no_more()
    ensures no_more { LoweredShowsNoMore }
{}
