//! What the linear code of every checked program is like, and so the function table of its image.

ghost use Rattle.image_tables.specs.RegionLaws.{LoweredHasRegions, LoweredBeginsPastPrologues, LoweredNamesFunclets, LoweredIsShaped};

/// Each region of a body is a range of its instructions, and no scope record begins where the
/// prologue of its function or funclet ends. Each filter and `__finally` block is named by one
/// region.
pub fn regions()
    ensures ranges { LoweredHasRegions }
    ensures begins { LoweredBeginsPastPrologues }
    ensures funclets { LoweredNamesFunclets }
{}

/// The scope tables of an image have one row for each `__try` of its program.
pub fn rows()
    ensures { LoweredIsShaped }
{}
