//! What holds of every unwinding.

ghost use Rattle.match_stack.specs.UnwindLaws.{UnwindingIsTheLists};

/// Where the list of what waits is in the machine's stack, the host's unwinding to a frame of
/// it runs the same `__finally` block first as that of linear code, with the same regions left, or
/// lands in the same body. What is above is there still, and the locals that are left are
/// those of the activations that live on. Older searches and unwindings on the way are cases of
/// this.
pub fn laws()
    ensures unwound { UnwindingIsTheLists }
{}
