//! What holds of routines without an entry.

ghost use Rattle.uncovered_code.specs.Laws.{UncoveredBytesAreInRoutines, RoutinesAreApart, InstructionsAreOneList, FramelessWritesNoNonvolatile};
ghost use Rattle.uncovered_code.specs.Worked.{LosesRbx, Refers};

/// Each byte of an executable section that no entry covers is in a routine without an entry, and in
/// one alone.
pub fn routines()
    ensures inside { UncoveredBytesAreInRoutines }
    ensures apart { RoutinesAreApart }
{}

/// The instructions of a routine are one list, and those of a frameless one write no nonvolatile
/// register but RSP, and that by a return alone.
pub fn instructions()
    ensures one_list { InstructionsAreOneList }
    ensures kept { FramelessWritesNoNonvolatile }
{}

/// Routines by their bytes. A routine that loses RBX isn't taken for a frameless one, though its
/// bytes are such a routine where they are read from inside the instruction before it.
pub fn worked()
    ensures loses_rbx { LosesRbx }
    ensures refers { Refers }
{}
