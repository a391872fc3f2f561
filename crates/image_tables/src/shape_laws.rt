//! What the function table of every program is like.

ghost use Rattle.image_tables.specs.ShapeLaws.{TablesHaveShape, HandlersDiffer, EntriesAreFlagged, PartsArePassedOver, FramesAreSmall};

/// The entries are in the order of their addresses, those of cold parts last. Together they have
/// exactly one scope record for each region, and each funclet begins an entry.
pub fn shape()
    ensures shape { TablesHaveShape }
    ensures handlers { HandlersDiffer }
{}

/// The language handler of an entry is asked in a search where there is an `__except`, and while
/// unwinding where there is a `__finally`; in a cold part none is.
pub fn flags()
    ensures own { EntriesAreFlagged }
    ensures parts { PartsArePassedOver }
{}

/// No frame of a function takes more than `FRAME_BY_WEIGHT` for each 1 that the function weighs,
/// and none of a filter or a `__finally` block more than that.
pub fn sizes()
    ensures { FramesAreSmall }
{}
