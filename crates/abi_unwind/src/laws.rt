//! What holds of callers as Windows finds them.

ghost use Rattle.abi_unwind.specs.EachLaws.{EachIsWhole};
ghost use Rattle.abi_unwind.specs.Laws.{TheyAgree, TheyRefuse};
ghost use Rattle.abi_unwind.specs.Rows.{Tails, NoTails, Cases, Jumps, Parts, Edges, Frames, Vectors, MachineFrames};
ghost use Rattle.abi_unwind.specs.Version2Rows.{ListedEpilogues};

/// What the trailing parts of worked bytes are, and which have none.
pub fn trailing_parts()
    ensures tails { Tails }
    ensures none { NoTails }
{}

/// Callers of worked functions: in prologue, body and epilogue; at jumps that leave the function
/// and that don't; in functions of two parts; at a range's end and an early exit; with a frame
/// register; with vector registers; with a machine frame.
pub fn worked_callers()
    ensures cases { Cases }
    ensures jumps { Jumps }
    ensures parts { Parts }
    ensures edges { Edges }
    ensures frames { Frames }
    ensures vectors { Vectors }
    ensures machine_frames { MachineFrames }
{}

/// Callers of a worked function whose unwind info has version 2, with one epilogue listed and two:
/// in them, before them, and where none is listed. An entry that is refused, and one beside such.
pub fn worked_version_2()
    ensures { ListedEpilogues }
{}

/// Past a prologue and in no entry, where no vector register is saved and neither unwinder sees an
/// epilogue, or both know the one that is there, crate virtual_unwind and this one find the same
/// caller, or want the same word of the stack.
pub fn agreement()
    ensures agree { TheyAgree }
    ensures refuse { TheyRefuse }
{}

/// In a table that was read whole, the caller by entries that are read one by one, each refused
/// alone, is the caller by the table.
pub fn each_is_whole()
    ensures { EachIsWhole }
{}
