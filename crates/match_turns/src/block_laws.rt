//! Laws of calls of `__finally` blocks.

ghost use Rattle.match_turns.specs.BlockLaws.{BlockCallsAreMatched};

/// Where a body calls its `__finally` block, the machine comes to the block's first byte, which
/// shows its event, and to its first instruction, unless the depth would be too great.
pub fn laws()
    ensures calls { BlockCallsAreMatched }
{}
