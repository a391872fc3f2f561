//! How large a record is, and where its parts lie, from its address on (own). The exception record
//! and the context in it are as the Windows headers lay them out (`winnt.h`).

/// The bytes of a record, with the home space before its words.
pub const RECORD_SIZE: u64 = 1_568;

/// The bytes of a record with the return address below it.
pub const PLACED_SIZE: u64 = RECORD_SIZE + 8;

/// The mark, which is the first word after the home space.
pub const MARK_AT: u64 = 32;
/// The number of the kind.
pub const KIND_AT: u64 = 40;
/// The establisher frame in hand.
pub const FRAME_AT: u64 = 48;
/// The next scope record.
pub const ROW_AT: u64 = 56;
/// The frame that an unwinding goes to.
pub const TARGET_FRAME_AT: u64 = 64;
/// The address at which that frame continues.
pub const TARGET_AT: u64 = 72;
/// EXCEPTION_POINTERS: the addresses of the exception record and of the context.
pub const POINTERS_AT: u64 = 80;

/// EXCEPTION_RECORD, with ExceptionCode first.
pub const EXCEPTION_AT: u64 = 96;
/// ExceptionFlags.
pub const FLAGS_AT: u64 = EXCEPTION_AT + 4;
/// NumberParameters.
pub const COUNT_AT: u64 = EXCEPTION_AT + 24;
/// ExceptionInformation.
pub const PARAMETERS_AT: u64 = EXCEPTION_AT + 32;

/// CONTEXT.
pub const CONTEXT_AT: u64 = 256;
/// EFlags.
pub const EFLAGS_AT: u64 = CONTEXT_AT + 0x44;
/// Rax, and after it the other registers by their numbers.
pub const REGISTERS_AT: u64 = CONTEXT_AT + 0x78;
/// Rip.
pub const RIP_AT: u64 = CONTEXT_AT + 0xF8;

/// RIP at the frame in hand, after the context.
pub const WALK_RIP_AT: u64 = CONTEXT_AT + 0x4D0;
/// RSP and the other nonvolatile registers at that frame.
pub const WALK_KEPT_AT: u64 = WALK_RIP_AT + 8;
