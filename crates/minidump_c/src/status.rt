//! How a call ended.

ghost use Rattle.std.specs.Prelude.{◌≡◌};
ghost use Rattle.minidump_c.specs.Statuses as spec;

use crate::codes;
use minidump::{DumpErr, StreamKind};

/// How a call ended: a code of `include/seh_dump.h`, and the numbers that it speaks of.
#[repr(C)]
#[derive(Clone, Copy, Debug, PartialEq, Eq)]
pub struct SehStatus {
    pub code: u32,
    pub at: u64,
    pub more: u64,
}

/// All was done.
pub const OK: SehStatus = SehStatus {
    code: codes::OK,
    at: 0,
    more: 0,
};

/// There is no such stream, or no such record.
pub const MISSING: SehStatus = SehStatus {
    code: codes::MISSING,
    at: 0,
    more: 0,
};

fn status(code: u32, at: u64) -> SehStatus
    ensures { result ≡ spec.status code at }
{
    SehStatus { code, at, more: 0 }
}

fn of_kind(code: u32, kind: StreamKind) -> SehStatus
    ensures { result ≡ spec.of_kind code kind }
{
    status(code, kind.stream_type() as u64)
}

/// The status of a refusal.
pub fn refusal_status(refusal: DumpErr) -> SehStatus
    ensures { result ≡ spec.refusal_status refusal }
{
    match refusal {
        DumpErr::HeaderTruncated => status(codes::HEADER_TRUNCATED, 0),
        DumpErr::Signature { found } => status(codes::SIGNATURE, found),
        DumpErr::Version { found } => status(codes::VERSION, found),
        DumpErr::DirectoryTruncated { at } => status(codes::DIRECTORY_TRUNCATED, at),
        DumpErr::StreamTruncated { kind } => of_kind(codes::STREAM_TRUNCATED, kind),
        DumpErr::StreamShort { kind } => of_kind(codes::STREAM_SHORT, kind),
        DumpErr::StringTruncated { at } => status(codes::STRING_TRUNCATED, at),
        DumpErr::StringOdd { at } => status(codes::STRING_ODD, at),
        DumpErr::ContextShort { size } => status(codes::CONTEXT_SHORT, size),
        DumpErr::ContextTruncated { at } => status(codes::CONTEXT_TRUNCATED, at),
        DumpErr::ContextKind { flags } => status(codes::CONTEXT_KIND, flags),
        DumpErr::RangeTruncated { index } => status(codes::RANGE_TRUNCATED, index),
    }
}
