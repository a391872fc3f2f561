//! What linear code does.

ghost use Rattle.lowering_follows.specs.FollowLaws.{LinkedFollows};

/// From so many turns on, linear code in which each function of a program is placed has shown the
/// events that the program's steps show, and has ended as they end; it shows nothing more, and is
/// never stuck.
pub fn linked_follows()
    ensures follows { LinkedFollows }
{}
