//! What a minidump says, as numbers (Windows headers, minidumpapiset.h). C programs see them as
//! they are.

use crate::layout::{EXCEPTION_MAXIMUM_PARAMETERS, REGISTER_COUNT};

/// Records of one size, one after another: where the first begins in the file, and how many there
/// are.
#[repr(C)]
#[derive(Clone, Copy, Debug, PartialEq, Eq)]
pub struct Table {
    pub at: u64,
    pub count: u64,
}

/// Bytes of the file (MINIDUMP_LOCATION_DESCRIPTOR): how many, and the offset of the first.
#[repr(C)]
#[derive(Clone, Copy, Debug, PartialEq, Eq)]
pub struct Location {
    pub size: u32,
    pub rva: u32,
}

/// An entry of the directory (MINIDUMP_DIRECTORY).
#[repr(C)]
#[derive(Clone, Copy, Debug, PartialEq, Eq)]
pub struct Stream {
    pub stream_type: u32,
    pub location: Location,
}

/// A range of the process's memory (MINIDUMP_MEMORY_DESCRIPTOR): its address, and its bytes.
#[repr(C)]
#[derive(Clone, Copy, Debug, PartialEq, Eq)]
pub struct MemoryDescriptor {
    pub start: u64,
    pub memory: Location,
}

/// A thread (MINIDUMP_THREAD).
#[repr(C)]
#[derive(Clone, Copy, Debug, PartialEq, Eq)]
pub struct Thread {
    pub thread_id: u32,
    pub suspend_count: u32,
    pub priority_class: u32,
    pub priority: u32,
    /// The address of its thread environment block.
    pub teb: u64,
    /// Its stack. In a dump with all memory the file may have its bytes in the 64-bit memory list
    /// alone.
    pub stack: MemoryDescriptor,
    /// Its registers: a CONTEXT.
    pub context: Location,
}

/// A module (MINIDUMP_MODULE): an image that was loaded.
#[repr(C)]
#[derive(Clone, Copy, Debug, PartialEq, Eq)]
pub struct Module {
    /// Where it lies in the process.
    pub base: u64,
    /// How many bytes it takes there: the field SizeOfImage of its header.
    pub size: u32,
    pub check_sum: u32,
    /// The field TimeDateStamp of its header.
    pub time_date_stamp: u32,
    /// Where its name is in the file: a MINIDUMP_STRING.
    pub name_rva: u32,
    /// What a debugger finds its symbols by.
    pub cv_record: Location,
}

/// A range of the process's memory: its address, how many bytes it has, and the file offset of the
/// first.
#[repr(C)]
#[derive(Clone, Copy, Debug, PartialEq, Eq)]
pub struct MemoryRange {
    pub start: u64,
    pub size: u64,
    pub at: u64,
}

/// The 64-bit memory list (MINIDUMP_MEMORY64_LIST): its records, and the file offset of the bytes
/// of the first range. Those of the others follow, range by range.
#[repr(C)]
#[derive(Clone, Copy, Debug, PartialEq, Eq)]
pub struct Memory64List {
    pub ranges: Table,
    pub base_rva: u64,
}

/// A place in a 64-bit memory list: the index of a range, and the file offset of its bytes.
#[repr(C)]
#[derive(Clone, Copy, Debug, PartialEq, Eq)]
pub struct RangePlace {
    pub index: u64,
    pub at: u64,
}

/// What was raised, and by which thread (MINIDUMP_EXCEPTION_STREAM).
#[repr(C)]
#[derive(Clone, Copy, Debug, PartialEq, Eq)]
pub struct Exception {
    pub thread_id: u32,
    pub exception_code: u32,
    pub exception_flags: u32,
    /// The address of another exception record in the process, or 0.
    pub exception_record: u64,
    pub exception_address: u64,
    /// How many numbers of `information` count. The dump may say more than there are.
    pub number_parameters: u32,
    pub information: [u64; EXCEPTION_MAXIMUM_PARAMETERS],
    /// The registers where it was raised: a CONTEXT.
    pub context: Location,
}

/// The system on which the dump was made (MINIDUMP_SYSTEM_INFO).
#[repr(C)]
#[derive(Clone, Copy, Debug, PartialEq, Eq)]
pub struct SystemInfo {
    pub processor_architecture: u16,
    pub major_version: u32,
    pub minor_version: u32,
    pub build_number: u32,
    pub platform_id: u32,
}

/// Sixteen bytes of a register (Windows headers, winnt.h, M128A).
#[repr(C)]
#[derive(Clone, Copy, Debug, PartialEq, Eq)]
pub struct M128A {
    pub low: u64,
    pub high: u64,
}

/// The registers of a thread (Windows headers, winnt.h, CONTEXT for x64).
#[repr(C)]
#[derive(Clone, Copy, Debug, PartialEq, Eq)]
pub struct Context {
    /// Which parts were filled.
    pub context_flags: u32,
    pub mx_csr: u32,
    pub e_flags: u32,
    /// RAX, RCX, RDX, RBX, RSP, RBP, RSI, RDI and R8 to R15, as instructions number them.
    pub integer: [u64; REGISTER_COUNT],
    pub rip: u64,
    /// XMM0 to XMM15.
    pub xmm: [M128A; REGISTER_COUNT],
}
