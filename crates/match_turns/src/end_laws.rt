//! Laws of the ends of filters and `__finally` blocks.

ghost use Rattle.match_turns.specs.EndLaws.{FuncletReturnsAreMatched};

/// A filter returns to the dispatcher, which continues by its answer; a `__finally` block to the
/// dispatcher, which continues unwinding, or to the body that has called it.
pub fn laws()
    ensures returns { FuncletReturnsAreMatched }
{}
