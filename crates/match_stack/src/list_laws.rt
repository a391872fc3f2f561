//! What holds in a single frame, and of the whole list.

ghost use Rattle.match_stack.specs.ListLaws.{SearchFindsTheHandlers, UnwindingRunsTheBlocks, UnwindingStopsAtTheTarget, KeptByStoresBelow, KeptByOtherMemories};

/// In a frame whose scope records are the regions of its body, row by row: the first record that a
/// search asks is that of the first handler, from any row on, with the same handlers after it; an
/// unwinding through the frame runs the `__finally` block of the first such region, with the same
/// regions left, or leaves the frame; and one whose target is in the frame runs the same block, or
/// stops there. Stores below the stack pointer leave the whole list as it is; it is also in
/// each memory that has the stack from there up, its protections and the code as they were.
pub fn laws()
    ensures search { SearchFindsTheHandlers }
    ensures unwinding { UnwindingRunsTheBlocks }
    ensures target { UnwindingStopsAtTheTarget }
    ensures kept { KeptByStoresBelow }
    ensures others { KeptByOtherMemories }
{}
