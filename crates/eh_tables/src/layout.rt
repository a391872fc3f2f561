//! Where the fields of function tables and unwind infos are, and what they hold (Microsoft x64 ABI,
//! "Exception handling").

/// The fields of RUNTIME_FUNCTION ("struct RUNTIME_FUNCTION"): the begin of the code, its end, and
/// its unwind info, each an address relative to the image base.
pub const BEGIN_ADDRESS: usize = 0;

pub const END_ADDRESS: usize = 4;

pub const UNWIND_INFO_ADDRESS: usize = 8;

/// The size of RUNTIME_FUNCTION.
pub const RUNTIME_FUNCTION_SIZE: usize = 12;

/// The fields of UNWIND_INFO ("struct UNWIND_INFO"): the version in three bits and the flags in
/// five.
pub const VERSION_AND_FLAGS: usize = 0;

pub const SIZE_OF_PROLOG: usize = 1;

pub const COUNT_OF_CODES: usize = 2;

/// The frame register in four bits, and its offset in units of 16 bytes in four.
pub const FRAME_REGISTER_AND_OFFSET: usize = 3;

/// Where the unwind codes are, right after the header.
pub const UNWIND_CODES: usize = 4;

/// The most slots of codes, whose count is a byte.
pub const MOST_SLOTS: usize = 255;

/// The most bytes of slots, of two bytes each.
pub const MOST_SLOT_BYTES: usize = 2 * MOST_SLOTS;

/// The most bytes of a header and its slots, with the slot that makes their count even.
pub const MOST_INFO_BYTES: usize = UNWIND_CODES + MOST_SLOT_BYTES + 2;

/// The size of a handler's address, which is relative to the image base.
pub const HANDLER_SIZE: usize = 4;

/// The size of the count of records with which the C handler's scope table begins.
pub const SCOPE_COUNT_SIZE: usize = 4;

/// The size of a record of the C handler's scope table, four addresses relative to the image base
/// (Windows headers, `winnt.h`, SCOPE_TABLE_AMD64).
pub const SCOPE_RECORD_SIZE: usize = 16;

/// The HandlerAddress of a `__try` whose filter is this constant: it always accepts, and there is
/// no filter to be called (Windows headers, `excpt.h`).
pub const EXCEPTION_EXECUTE_HANDLER: u32 = 1;

/// The version of UNWIND_INFO that is read and written.
pub const UNWIND_VERSION: u8 = 1;

/// The version of UNWIND_INFO that lists its epilogues, in slots before those of its codes (own: no
/// page of the Microsoft x64 ABI has it).
pub const UNWIND_VERSION_2: u8 = 2;

/// The flags of UNWIND_INFO: there is a handler to be asked in a search for a handler.
pub const UNW_FLAG_EHANDLER: u8 = 1;

/// There is a handler to be asked while unwinding.
pub const UNW_FLAG_UHANDLER: u8 = 2;

/// The entry that this info is chained to follows the codes. No other flag is set with it.
pub const UNW_FLAG_CHAININFO: u8 = 4;

/// The numbers of the operations of unwind codes ("Unwind operation code").
pub const UWOP_PUSH_NONVOL: u8 = 0;

pub const UWOP_ALLOC_LARGE: u8 = 1;

pub const UWOP_ALLOC_SMALL: u8 = 2;

pub const UWOP_SET_FPREG: u8 = 3;

pub const UWOP_SAVE_NONVOL: u8 = 4;

pub const UWOP_SAVE_NONVOL_FAR: u8 = 5;

/// Of version 2 alone (own): a slot of the list of epilogues.
pub const UWOP_EPILOG: u8 = 6;

pub const UWOP_SAVE_XMM128: u8 = 8;

pub const UWOP_SAVE_XMM128_FAR: u8 = 9;

pub const UWOP_PUSH_MACHFRAME: u8 = 10;

/// So many unwind infos can be chained to one (own): with it there are 32.
pub const MOST_PARENTS: usize = 31;

/// The opcode of Intel's group 5 (Intel manual, volume 2, "Opcode Extensions for One- and Two-byte
/// Opcodes by Group Number").
pub const OPCODE_GROUP_5: u8 = 0xFF;

/// The ModRM byte of `jmp [rip + d]` in that group: mod 0, the extension 4 in the reg field, and
/// the r/m field 5, after which comes the displacement from the next instruction.
pub const MODRM_JUMP_BY_RIP: u8 = 8 * 4 + 5;

/// Where the displacement of that jump is, after opcode and ModRM byte.
pub const DISPLACEMENT: usize = 2;

/// The size of that jump, without a prefix.
pub const JUMP_SIZE: u64 = 6;

/// The high four bits of a REX prefix (Intel manual, volume 2, "REX Prefixes").
pub const REX: u8 = 4;
