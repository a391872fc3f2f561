//! Walks over the stacks of whole runs, and their ends.

ghost use Rattle.image_runs.specs.WalkedLaws.{RunsPassTheFrames, RunsEndAsPrograms};
ghost use Rattle.image_runs.specs.TextRuns.{AcceptedPassTheFrames, AcceptedEndAsPrograms};

/// The run of a compiled image passes, for each step of linear code that continues, a state in
/// which the walk gives the frames that are live there. It never stops, and never reaches the
/// stack's limit.
pub fn laws()
    ensures passes { RunsPassTheFrames }
    ensures ends { RunsEndAsPrograms }
{}

/// The same of the image of every accepted text within the limits.
pub fn texts()
    ensures passes { AcceptedPassTheFrames }
    ensures ends { AcceptedEndAsPrograms }
{}
