//! What crosses to C, and a dump that is opened.

ghost use Rattle.std.specs.Prelude.{◌≡◌, length};
ghost use Rattle.minidump.specs.Streams.{AreWhole};
ghost use Rattle.minidump_c.specs.Dumps as spec;
ghost use Rattle.minidump_c.specs.Statuses.{status_of, after};

use crate::status::{MISSING, OK, SehStatus, refusal_status};
use minidump::layout::DIRECTORY_ENTRY_SIZE;
use minidump::{DumpErr, Memory64List, Minidump, Table};

/// A dump that was opened: plain data, which the caller owns. But for its bytes it is trusted for
/// nothing.
#[repr(C)]
#[derive(Clone, Copy)]
pub struct SehDump<'a> {
    /// The bytes of its file.
    pub bytes: &'a [u8],
    pub threads: Table,
    pub modules: Table,
    /// The ranges of the memory list.
    pub memory: Table,
    /// The ranges of the 64-bit memory list.
    pub memory64: Memory64List,
    /// Whether the list is there, and can be read.
    pub threads_status: SehStatus,
    pub modules_status: SehStatus,
    pub memory_status: SehStatus,
    pub memory64_status: SehStatus,
}

/// Bytes of a dump's file.
#[repr(C)]
#[derive(Clone, Copy)]
pub struct SehBytes<'a> {
    pub bytes: &'a [u8],
}

/// Bytes of memory from an address on.
#[repr(C)]
#[derive(Clone, Copy)]
pub struct SehRange<'a> {
    /// The address of the first one.
    pub at: u64,
    /// The bytes.
    pub bytes: &'a [u8],
}

/// No records.
const NO_RECORDS: Table = Table { at: 0, count: 0 };

/// A list without ranges.
const NO_LIST: Memory64List = Memory64List {
    ranges: NO_RECORDS,
    base_rva: 0,
};

/// The status of an answer.
pub fn status_of<T: Copy>(answer: Result<Option<T>, DumpErr>) -> SehStatus
    ensures { result ≡ status_of answer }
{
    match answer {
        Ok(Some(_)) => OK,
        Ok(None) => MISSING,
        Err(e) => refusal_status(e),
    }
}

/// What was found, else another value.
pub fn found_or<T: Copy>(other: T, answer: Result<Option<T>, DumpErr>) -> T
    ensures { result ≡ after other answer }
{
    match answer {
        Ok(Some(found)) => found,
        Ok(None) => other,
        Err(_) => other,
    }
}

/// A dump, by its directory.
pub fn opened<'a>(bytes: &'a [u8], directory: Table) -> SehDump<'a>
    requires { AreWhole bytes.now DIRECTORY_ENTRY_SIZE directory }
    ensures { spec.IsDumpOf bytes.now directory result }
{
    let dump = Minidump::new(bytes);
    let threads = dump.threads(directory);
    let modules = dump.modules(directory);
    let memory = dump.memory_list(directory);
    let memory64 = dump.memory64_list(directory);
    SehDump {
        bytes,
        threads: found_or(NO_RECORDS, threads),
        modules: found_or(NO_RECORDS, modules),
        memory: found_or(NO_RECORDS, memory),
        memory64: found_or(NO_LIST, memory64),
        threads_status: status_of(threads),
        modules_status: status_of(modules),
        memory_status: status_of(memory),
        memory64_status: status_of(memory64),
    }
}
