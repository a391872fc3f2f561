//! The codes of answers, as `include/seh.h` names them.

/// All was done.
pub const OK: u32 = 0;

/// A range of memory isn't in order, or passes the end of the addresses.
pub const BAD_RANGES: u32 = 1;

/// No memory was left.
pub const NO_MEMORY: u32 = 2;

/// The caller's array is full.
pub const MORE: u32 = 3;

/// No entry of the function table covers the address.
pub const NO_FUNCTION: u32 = 4;

/// RIP is 0: the stack ends.
pub const END: u32 = 5;

/// RIP lies in no module.
pub const UNKNOWN_CODE: u32 = 6;

/// A header passes the end of the bytes.
pub const IMAGE_TRUNCATED: u32 = 16;

/// A signature is missing.
pub const IMAGE_NOT_PE: u32 = 17;

/// The machine isn't x64.
pub const IMAGE_MACHINE: u32 = 18;

/// The optional header isn't one of PE32+.
pub const IMAGE_MAGIC: u32 = 19;

/// A section doesn't lie as it must.
pub const IMAGE_LAYOUT: u32 = 20;

/// An import can't be read.
pub const IMAGE_IMPORT: u32 = 21;

/// An unwind info or the directory isn't stored whole.
pub const TABLE_TRUNCATED: u32 = 32;

/// It isn't 4-aligned.
pub const TABLE_MISALIGNED: u32 = 33;

/// The range of an entry is empty.
pub const TABLE_EMPTY_RANGE: u32 = 34;

/// An entry begins below the end of the one before.
pub const TABLE_UNSORTED: u32 = 35;

/// The version of an unwind info isn't 1.
pub const TABLE_VERSION: u32 = 36;

/// Its flags aren't defined.
pub const TABLE_FLAGS: u32 = 37;

/// An unwind code isn't defined.
pub const TABLE_OPERATION: u32 = 38;

/// Unwind codes aren't in the order of their offsets.
pub const TABLE_CODE_ORDER: u32 = 39;

/// More than 32 unwind infos are chained.
pub const TABLE_CHAIN: u32 = 40;

/// A scope record isn't within the image.
pub const TABLE_SCOPE: u32 = 41;

/// A word of the stack is needed that no range holds.
pub const UNREADABLE: u32 = 48;

/// The caller's stack pointer wouldn't be above that of the frame.
pub const BACKWARD: u32 = 49;

/// No rule fails in any entry.
pub const RULE_NONE: u32 = 0;

/// No instruction that the decoder knows stands there.
pub const RULE_DECODE: u32 = 1;

/// The entry is chained to another one, and isn't a fragment of its function without codes,
/// prologue and frame register of its own.
pub const RULE_CHAIN: u32 = 2;

/// An unwind code is one that no code of a prologue can keep.
pub const RULE_CODES: u32 = 3;

/// An instruction of the prologue isn't what its unwind code says.
pub const RULE_PROLOGUE: u32 = 4;

/// An instruction of the body writes RSP or the frame register.
pub const RULE_STACK_WRITE: u32 = 5;

/// An instruction of the body writes a nonvolatile register that isn't saved.
pub const RULE_UNSAVED: u32 = 6;

/// An epilogue doesn't undo the prologue.
pub const RULE_EPILOGUE: u32 = 7;
