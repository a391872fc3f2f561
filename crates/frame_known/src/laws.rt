//! What holds of knowledge.

ghost use Rattle.frame_known.specs.Laws.{KnownRight, CallersFound, LeavesFound, EntryFits, LessFits, AfterFits, OthersFit, CallsFit, StepsFit};
ghost use Rattle.frame_known.specs.Rows.{Right, Wrong};
ghost use Rattle.frame_known.specs.Standing.{StandingGoesOn, StandingIsFound, ReturnsRight, EntryStands, WalksAreFound};
ghost use Rattle.frame_known.specs.Kept.{KeptIsFound};
ghost use Rattle.frame_known.specs.Tests.{TestTells};

/// Where undoing codes or running an epilogue is right by what is known, the unwinder finds the
/// caller in each state that fits: by an info, by an image's function table, and of a leaf.
pub fn callers()
    ensures right { KnownRight }
    ensures entries { CallersFound }
    ensures leaves { LeavesFound }
{}

/// The first state fits, an instruction leads from a state that fits what is known to one that fits
/// what is known after it, and so does a call that has returned; less fits too.
pub fn steps()
    ensures entry { EntryFits }
    ensures instructions { AfterFits }
    ensures others { OthersFit }
    ensures calls { CallsFit }
    ensures less { LessFits }
    ensures all { StepsFit }
{}

/// Where knowledge goes on from boundary to boundary, so does standing; a state that stands where
/// the unwinder is right has its caller found, so too along whole walks; and the machine's own
/// return leads there.
pub fn standing()
    ensures goes_on { StandingGoesOn }
    ensures found { StandingIsFound }
    ensures returns { ReturnsRight }
    ensures first { EntryStands }
    ensures walks { WalksAreFound }
{}

/// Where an assignment of knowledge goes on through the instructions of an entry and is right at
/// each of its addresses, the caller is found wherever they lead.
pub fn entries()
    ensures { KeptIsFound }
{}

/// The test tells, and what it says of worked functions.
pub fn rows()
    ensures test { TestTells }
    ensures right { Right }
    ensures wrong { Wrong }
{}
