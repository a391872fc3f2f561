//! What holds of every memory.

ghost use Rattle.flat_memory.specs.Laws.{LoadsWhatWasStored, LeavesOthers, KeepsModes, RefusalsChangeNothing};

/// A load after a store gives what was stored; a store leaves each number that it doesn't overlap,
/// and every protection; a refused store changes nothing.
pub fn laws()
    ensures loads { LoadsWhatWasStored }
    ensures leaves { LeavesOthers }
    ensures modes { KeepsModes }
    ensures refusals { RefusalsChangeNothing }
{}
