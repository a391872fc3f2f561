//! What holds of the frames of every program that can be linked.

ghost use Rattle.image_tables.specs.FrameLaws.{ImagesHaveText, TextsAreFixed, BodiesHaveFrames, LeavesHaveReturns, FunctionsAreInMemory, PartsAreInMemory, FunctionsKeepTheRules, PartsKeepTheRules, FramesAreFound, PartsAreFound, LeavesAreFound, ThunksAreFound, NameThunksAreFound, AddingStubsAreFound, RemovingStubsAreFound, ProbesAreFound};

/// The text of a program is in memory when its image is loaded, and may not be written.
pub fn text()
    ensures there { ImagesHaveText }
    ensures fixed { TextsAreFixed }
{}

/// At each instruction of its body a routine's frame is there where memory is as its unwind codes
/// tell: the function table has its entry there, or in a cold part one that is chained to it, and
/// RIP is past its prologue and in no epilogue. A leaf function has no entry, and its return
/// address at RSP.
pub fn bodies()
    ensures framed { BodiesHaveFrames }
    ensures leaves { LeavesHaveReturns }
{}

/// The routines of a program that have a frame keep the rules by which every frame can be unwound,
/// with the unwind infos that are written for them; and so do their cold parts, by the same codes.
pub fn functions()
    ensures stand { FunctionsAreInMemory }
    ensures parts { PartsAreInMemory }
    ensures right { FunctionsKeepTheRules }
    ensures all_right { PartsKeepTheRules }
{}

/// At every instruction of a program, prologues, epilogues and cold parts included, the caller's
/// stack pointer, return address and nonvolatile registers are found.
pub fn frames()
    ensures functions { FramesAreFound }
    ensures parts { PartsAreFound }
    ensures leaves { LeavesAreFound }
    ensures thunks { ThunksAreFound }
    ensures names { NameThunksAreFound }
    ensures adding { AddingStubsAreFound }
    ensures removing { RemovingStubsAreFound }
    ensures probes { ProbesAreFound }
{}
