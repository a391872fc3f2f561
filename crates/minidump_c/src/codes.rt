//! The codes of answers, as `include/seh_dump.h` names them.

/// All was done.
pub const OK: u32 = 0;

/// The header passes the end of the file.
pub const HEADER_TRUNCATED: u32 = 64;

/// The signature isn't `MDMP`.
pub const SIGNATURE: u32 = 65;

/// The version isn't known.
pub const VERSION: u32 = 66;

/// The directory passes the end of the file.
pub const DIRECTORY_TRUNCATED: u32 = 67;

/// A stream passes the end of the file.
pub const STREAM_TRUNCATED: u32 = 68;

/// A stream has fewer bytes than it needs.
pub const STREAM_SHORT: u32 = 69;

/// A string passes the end of the file.
pub const STRING_TRUNCATED: u32 = 70;

/// A string ends within a UTF-16 unit.
pub const STRING_ODD: u32 = 71;

/// A context has fewer bytes than CONTEXT for x64.
pub const CONTEXT_SHORT: u32 = 72;

/// A context passes the end of the file.
pub const CONTEXT_TRUNCATED: u32 = 73;

/// A context isn't one for x64.
pub const CONTEXT_KIND: u32 = 74;

/// The memory of a range passes the end of the file.
pub const RANGE_TRUNCATED: u32 = 75;

/// There is no such stream, or no such record.
pub const MISSING: u32 = 76;
