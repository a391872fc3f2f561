//! What follows from the definitions.

ghost use Rattle.dump_stacks.specs.Laws.{RangesAreMemory, ReadsTheDump, StackIsTheDumps};
ghost use Rattle.dump_stacks.specs.Worked.{FirstRangeCounts};

/// The ranges of a dump that are in order as they are have its memory. A walk over ranges that have
/// a dump's memory reads at each address the byte of the first of the dump's ranges that covers it.
/// It is one walk, however these ranges were sorted and cut.
pub fn stacks_are_walks()
    ensures ranges { RangesAreMemory }
    ensures reads { ReadsTheDump }
    ensures walk { StackIsTheDumps }
{}

/// Of two ranges that overlap the first counts at an address that both have.
pub fn worked_ranges()
    ensures { FirstRangeCounts }
{}
