//! What a walk gives of a running image.

ghost use Rattle.image_runs.specs.WalkLaws.{WalksGiveTheFrames, WalksGiveTheFramesWithin, BeginningsAreWithin, ScratchStepsStayWithin, LinkedReturnsWait};

/// Where the machine represents a configuration of linear code, the walk gives the frames that are
/// live there, innermost first, and then RIP 0; also within an instruction, while the
/// stack from RSP up is as it was, and where a body is about to return.
pub fn laws()
    ensures walks { WalksGiveTheFrames }
    ensures within { WalksGiveTheFramesWithin }
    ensures first { BeginningsAreWithin }
    ensures scratch { ScratchStepsStayWithin }
    ensures returns { LinkedReturnsWait }
{}
