//! Minidumps of x64 processes (Windows headers, minidumpapiset.h), read in place.
//!
//! [`Minidump`] reads the bytes of a file without copying them. `directory` checks the header and
//! answers where the entries of the directory are. By it the streams are found: threads, modules,
//! memory, the exception, the system. A stream that the directory doesn't name is none, of several
//! of one type the first counts, and one that can't be read is refused alone ([`DumpErr`]).
//!
//! All that is read is plain numbers. A table of records is trusted for nothing: a record that it
//! doesn't have, or that the file doesn't hold, is none. No call takes memory, and each takes a
//! bounded time but for those of the directory, which take as long as it has entries.
//!
//! Proved: each answer is that of the definition (`specs/Streams.antt`, where to begin).
#![tactic(auto)]

mod contexts;
mod dump;
mod laws;
pub mod layout;
mod lists;
mod memory;
mod refusal;
mod stream_kind;
mod streams;
mod structures;
mod worked;

pub use dump::Minidump;
pub use laws::places_follow;
pub use refusal::DumpErr;
pub use stream_kind::StreamKind;
pub use structures::{
    Context, Exception, Location, M128A, Memory64List, MemoryDescriptor, MemoryRange, Module,
    RangePlace, Stream, SystemInfo, Table, Thread,
};
pub use worked::worked_dump;
