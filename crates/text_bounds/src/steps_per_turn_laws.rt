//! What holds of every accepted text within the limits and the linear code of its program.

ghost use Rattle.text_bounds.specs.StepsPerTurnLaws.{StepsPerTurnAreBounded, AcceptedFollows, AcceptedShowsNoMore};

/// One turn of a text within the limits represents at most 8 steps for each byte of it, and 256.
pub fn steps_per_turn_are_bounded()
    ensures bounded { StepsPerTurnAreBounded }
{}

/// From 16 n + 6 turns on the linear code of an accepted text has shown the events of n steps, and
/// has ended as they end.
pub fn accepted_follows()
    ensures follows { AcceptedFollows }
{}

/// The turns of the linear code of an accepted text show no more than its steps, at most 8 for each
/// byte and 256 for each turn and for one more; it ends only as they end, and is never stuck.
pub fn accepted_shows_no_more()
    ensures no_more { AcceptedShowsNoMore }
{}
