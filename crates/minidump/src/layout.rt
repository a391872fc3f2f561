//! Where the fields of a minidump are, and what they hold (Windows headers, minidumpapiset.h, which
//! packs its structures to 4 bytes). Offsets are in bytes from the front of the structure.

/// The size of MINIDUMP_HEADER, at the front of the file.
pub const HEADER_SIZE: u64 = 32;

/// The field Signature of MINIDUMP_HEADER.
pub const SIGNATURE: usize = 0;

/// What Signature holds: the letters `MDMP`.
pub const MINIDUMP_SIGNATURE: u32 = 0x504D_444D;

/// The field Version, whose low 16 bits name the format; the others are the implementation's own.
pub const VERSION: usize = 4;

/// What the low 16 bits of Version hold.
pub const MINIDUMP_VERSION: u16 = 0xA793;

/// The field NumberOfStreams.
pub const NUMBER_OF_STREAMS: usize = 8;

/// The field StreamDirectoryRva: where the directory begins.
pub const STREAM_DIRECTORY_RVA: usize = 12;

/// The size of MINIDUMP_DIRECTORY, an entry of the directory.
pub const DIRECTORY_ENTRY_SIZE: u64 = 12;

/// The field StreamType of MINIDUMP_DIRECTORY.
pub const STREAM_TYPE: usize = 0;

/// Its field Location.
pub const STREAM_LOCATION: usize = 4;

/// The field DataSize of MINIDUMP_LOCATION_DESCRIPTOR.
pub const DATA_SIZE: usize = 0;

/// Its field Rva.
pub const RVA: usize = 4;

/// The size of the count in front of the records of MINIDUMP_THREAD_LIST, MINIDUMP_MODULE_LIST and
/// MINIDUMP_MEMORY_LIST.
pub const COUNT_SIZE: u64 = 4;

/// The size of MINIDUMP_THREAD.
pub const THREAD_SIZE: u64 = 48;

/// The field ThreadId of MINIDUMP_THREAD.
pub const THREAD_ID: usize = 0;

/// The field SuspendCount.
pub const SUSPEND_COUNT: usize = 4;

/// The field PriorityClass.
pub const PRIORITY_CLASS: usize = 8;

/// The field Priority.
pub const PRIORITY: usize = 12;

/// The field Teb.
pub const TEB: usize = 16;

/// The field Stack, a MINIDUMP_MEMORY_DESCRIPTOR.
pub const STACK: usize = 24;

/// The field ThreadContext, a MINIDUMP_LOCATION_DESCRIPTOR.
pub const THREAD_CONTEXT: usize = 40;

/// The size of MINIDUMP_MODULE.
pub const MODULE_SIZE: u64 = 108;

/// The field BaseOfImage of MINIDUMP_MODULE.
pub const BASE_OF_IMAGE: usize = 0;

/// The field SizeOfImage.
pub const SIZE_OF_IMAGE: usize = 8;

/// The field CheckSum.
pub const CHECK_SUM: usize = 12;

/// The field TimeDateStamp.
pub const TIME_DATE_STAMP: usize = 16;

/// The field ModuleNameRva.
pub const MODULE_NAME_RVA: usize = 20;

/// The field CvRecord, a MINIDUMP_LOCATION_DESCRIPTOR.
pub const CV_RECORD: usize = 76;

/// The field Length of MINIDUMP_STRING, in bytes and without what ends the string; after it are its
/// UTF-16 units.
pub const STRING_LENGTH_SIZE: u64 = 4;

/// The size of a UTF-16 unit.
pub const UNIT_SIZE: u64 = 2;

/// The size of MINIDUMP_MEMORY_DESCRIPTOR.
pub const MEMORY_DESCRIPTOR_SIZE: u64 = 16;

/// The field StartOfMemoryRange of MINIDUMP_MEMORY_DESCRIPTOR and MINIDUMP_MEMORY_DESCRIPTOR64.
pub const START_OF_MEMORY_RANGE: usize = 0;

/// The field Memory of MINIDUMP_MEMORY_DESCRIPTOR, a MINIDUMP_LOCATION_DESCRIPTOR.
pub const MEMORY: usize = 8;

/// The size of MINIDUMP_MEMORY64_LIST in front of its records.
pub const MEMORY64_LIST_SIZE: u64 = 16;

/// The field NumberOfMemoryRanges of MINIDUMP_MEMORY64_LIST.
pub const NUMBER_OF_MEMORY_RANGES: usize = 0;

/// The field BaseRva: where the bytes of its first range are.
pub const BASE_RVA: usize = 8;

/// The size of MINIDUMP_MEMORY_DESCRIPTOR64.
pub const MEMORY_DESCRIPTOR64_SIZE: u64 = 16;

/// The field DataSize of MINIDUMP_MEMORY_DESCRIPTOR64.
pub const DATA_SIZE64: usize = 8;

/// The size of MINIDUMP_EXCEPTION_STREAM.
pub const EXCEPTION_STREAM_SIZE: u64 = 168;

/// Its field ThreadId.
pub const EXCEPTION_THREAD_ID: usize = 0;

/// The field ExceptionCode of its MINIDUMP_EXCEPTION.
pub const EXCEPTION_CODE: usize = 8;

/// The field ExceptionFlags.
pub const EXCEPTION_FLAGS: usize = 12;

/// The field ExceptionRecord: the address of another exception record, or 0.
pub const EXCEPTION_RECORD: usize = 16;

/// The field ExceptionAddress.
pub const EXCEPTION_ADDRESS: usize = 24;

/// The field NumberParameters.
pub const NUMBER_PARAMETERS: usize = 32;

/// The field ExceptionInformation, of `EXCEPTION_MAXIMUM_PARAMETERS` numbers of 64 bits.
pub const EXCEPTION_INFORMATION: usize = 40;

/// How many numbers ExceptionInformation has room for (Windows headers, winnt.h).
pub const EXCEPTION_MAXIMUM_PARAMETERS: usize = 15;

/// The field ThreadContext of MINIDUMP_EXCEPTION_STREAM.
pub const EXCEPTION_CONTEXT: usize = 160;

/// The size of MINIDUMP_SYSTEM_INFO.
pub const SYSTEM_INFO_SIZE: u64 = 56;

/// Its field ProcessorArchitecture.
pub const PROCESSOR_ARCHITECTURE: usize = 0;

/// The number of x64 in ProcessorArchitecture.
pub const PROCESSOR_ARCHITECTURE_AMD64: u16 = 9;

/// The field MajorVersion.
pub const MAJOR_VERSION: usize = 8;

/// The field MinorVersion.
pub const MINOR_VERSION: usize = 12;

/// The field BuildNumber.
pub const BUILD_NUMBER: usize = 16;

/// The field PlatformId.
pub const PLATFORM_ID: usize = 20;

/// The size of CONTEXT for x64 (Windows headers, winnt.h).
pub const CONTEXT_SIZE: u64 = 1232;

/// Its field ContextFlags.
pub const CONTEXT_FLAGS: usize = 0x30;

/// The bit of ContextFlags that says that it is a CONTEXT for x64.
pub const CONTEXT_AMD64: u32 = 0x0010_0000;

/// The field MxCsr.
pub const MX_CSR: usize = 0x34;

/// The field EFlags.
pub const E_FLAGS: usize = 0x44;

/// The field Rax, the first of the sixteen integer registers.
pub const RAX: usize = 0x78;

/// The field Rip.
pub const RIP: usize = 0xF8;

/// The field Xmm0, the first of sixteen.
pub const XMM0: usize = 0x1A0;

/// How many integer and how many XMM registers there are.
pub const REGISTER_COUNT: usize = 16;
