//! Why a minidump, or a part of it, isn't read.

use crate::stream_kind::StreamKind;

/// Why bytes aren't read: the first check that fails. The first four refuse the whole dump, each
/// of the others one stream, name, context or range alone.
#[derive(Clone, Copy, Debug, PartialEq, Eq)]
pub enum DumpErr {
    /// The header passes the end of the file.
    HeaderTruncated,
    /// The signature isn't `MDMP`: `found` is the field Signature.
    Signature { found: u64 },
    /// The format isn't known: `found` is the low 16 bits of the field Version.
    Version { found: u64 },
    /// The directory, which begins at that offset, passes the end of the file.
    DirectoryTruncated { at: u64 },
    /// The first stream of that kind passes the end of the file.
    StreamTruncated { kind: StreamKind },
    /// The first stream of that kind has fewer bytes than its structure, or than its count of
    /// records wants.
    StreamShort { kind: StreamKind },
    /// The string at that offset passes the end of the file.
    StringTruncated { at: u64 },
    /// The string at that offset ends within a UTF-16 unit.
    StringOdd { at: u64 },
    /// The context of a thread has fewer bytes than CONTEXT for x64: `size` is how many.
    ContextShort { size: u64 },
    /// The context at that offset passes the end of the file.
    ContextTruncated { at: u64 },
    /// The context isn't one for x64: `flags` is its field ContextFlags.
    ContextKind { flags: u64 },
    /// The memory of the range of that index passes the end of the file.
    RangeTruncated { index: u64 },
}
