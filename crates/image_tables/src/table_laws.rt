//! What is read of the function table of a program's image.

ghost use Rattle.image_tables.specs.NameLaws.{NamesAreRead, FunctionsHaveNames};
ghost use Rattle.image_tables.specs.TableLaws.{TablesAreRead, EntriesAreHeld, PartsAreHeld, LeavesAreHeldByNone, ThunksAreHeldByNone, JumpsAreSpelled};

/// The function table of a program's image is that of its routines: each that has a frame has an
/// entry, with its unwind info and its scope records; and each of its cold parts one that is
/// chained to it.
pub fn tables()
    ensures { TablesAreRead }
{}

/// The entry that covers an address of a routine is that routine's, or that of its cold part.
pub fn lookups()
    ensures entries { EntriesAreHeld }
    ensures parts { PartsAreHeld }
    ensures leaves { LeavesAreHeldByNone }
    ensures thunks { ThunksAreHeldByNone }
{}

/// The names of a program's image are the rows of its functions; where the program calls `walk`,
/// each function's number has the function's name.
pub fn names()
    ensures read { NamesAreRead }
    ensures named { FunctionsHaveNames }
{}

/// The jump to a handler is read as it is spelled.
pub fn jumps()
    ensures { JumpsAreSpelled }
{}
