//! What C calls. `include/seh_dump.h` says what a caller owes to each call.

ghost use Rattle.std.specs.Prelude.{◌≡◌};
ghost use Rattle.minidump.specs.Contexts.{context};
ghost use Rattle.minidump.specs.Lists.{thread_of, module_of, text};
ghost use Rattle.minidump.specs.Memory.{range as range_of_index, range64, IsInFile};
ghost use Rattle.minidump_c.specs.Dumps as spec;
ghost use Rattle.minidump_c.specs.Statuses.{Answers, Finds, some};

use crate::dump::{SehBytes, SehDump, SehRange, opened};
use crate::status::{MISSING, OK, SehStatus, refusal_status};
use minidump::{
    Context, Exception, Location, MemoryRange, Minidump, Module, RangePlace, SystemInfo, Thread,
};

/// Opens a dump: its header, its directory, and where its lists are.
#[unsafe(no_mangle)]
pub extern "C" fn seh_dump_open<'a>(bytes: &'a [u8], dump: &mut SehDump<'a>) -> SehStatus
    ensures { spec.OpenAnswers bytes.now dump.old dump.new result }
{
    match Minidump::new(bytes).directory() {
        Ok(directory) => {
            *dump = opened(bytes, directory);
            OK
        }
        Err(e) => refusal_status(e),
    }
}

/// The thread of an index.
#[unsafe(no_mangle)]
pub extern "C" fn seh_dump_thread(dump: &SehDump<'_>, index: u64, thread: &mut Thread) -> SehStatus
    ensures { Finds (thread_of dump.now.bytes.now dump.now.threads index) thread.old thread.new
        result }
{
    match Minidump::new(dump.bytes).thread(dump.threads, index) {
        Some(found) => {
            *thread = found;
            OK
        }
        None => MISSING,
    }
}

/// The registers of a thread, or those where an exception was raised.
#[unsafe(no_mangle)]
pub extern "C" fn seh_dump_context(
    dump: &SehDump<'_>,
    location: &Location,
    registers: &mut Context,
) -> SehStatus
    ensures { Answers (some (context dump.now.bytes.now location.now)) registers.old registers.new
        result }
{
    match Minidump::new(dump.bytes).context(*location) {
        Ok(found) => {
            *registers = found;
            OK
        }
        Err(e) => refusal_status(e),
    }
}

/// The module of an index.
#[unsafe(no_mangle)]
pub extern "C" fn seh_dump_module(dump: &SehDump<'_>, index: u64, loaded: &mut Module) -> SehStatus
    ensures { Finds (module_of dump.now.bytes.now dump.now.modules index) loaded.old loaded.new
        result }
{
    match Minidump::new(dump.bytes).module(dump.modules, index) {
        Some(found) => {
            *loaded = found;
            OK
        }
        None => MISSING,
    }
}

/// The UTF-16 units of the string at an offset, as a module's name.
#[unsafe(no_mangle)]
pub extern "C" fn seh_dump_string<'a>(
    dump: &SehDump<'a>,
    rva: u64,
    units: &mut SehBytes<'a>,
) -> SehStatus
    ensures { spec.BytesAnswers (text dump.now.bytes.now rva) units.old units.new result }
{
    match Minidump::new(dump.bytes).text(rva) {
        Ok(bytes) => {
            *units = SehBytes { bytes };
            OK
        }
        Err(e) => refusal_status(e),
    }
}

/// A range of a dump with its bytes.
fn c_range<'a>(file: &Minidump<'a>, range: MemoryRange) -> SehRange<'a>
    requires { IsInFile file.now range }
    ensures { spec.IsRange file.now range result }
{
    SehRange {
        at: range.start,
        bytes: file.range_bytes(range),
    }
}

/// The range of an index of the memory list.
#[unsafe(no_mangle)]
pub extern "C" fn seh_dump_range<'a>(
    dump: &SehDump<'a>,
    index: u64,
    range: &mut SehRange<'a>,
) -> SehStatus
    ensures { spec.RangeAnswers dump.now.bytes.now
        (range_of_index dump.now.bytes.now dump.now.memory index) range.old range.new result }
{
    let file = Minidump::new(dump.bytes);
    match file.range(dump.memory, index) {
        Ok(Some(found)) => {
            *range = c_range(&file, found);
            OK
        }
        Ok(None) => MISSING,
        Err(e) => refusal_status(e),
    }
}

/// The range at a place of the 64-bit memory list, and the place after it.
#[unsafe(no_mangle)]
pub extern "C" fn seh_dump_range64<'a>(
    dump: &SehDump<'a>,
    place: &mut RangePlace,
    range: &mut SehRange<'a>,
) -> SehStatus
    ensures range { spec.RangeAnswers dump.now.bytes.now (spec.range_found
        (range64 dump.now.bytes.now dump.now.memory64.ranges place.old)) range.old range.new
        result }
    ensures place { place.new ≡ spec.place_left place.old
        (range64 dump.now.bytes.now dump.now.memory64.ranges place.old) }
{
    let file = Minidump::new(dump.bytes);
    match file.range64(dump.memory64.ranges, *place) {
        Ok(Some((found, next))) => {
            *range = c_range(&file, found);
            *place = next;
            OK
        }
        Ok(None) => MISSING,
        Err(e) => refusal_status(e),
    }
}

/// What was raised, by the bytes of a dump's file.
#[unsafe(no_mangle)]
pub extern "C" fn seh_dump_exception(bytes: &[u8], exception: &mut Exception) -> SehStatus
    ensures { Answers (spec.exception_of bytes.now) exception.old exception.new result }
{
    let file = Minidump::new(bytes);
    let directory = match file.directory() {
        Ok(directory) => directory,
        Err(e) => return refusal_status(e),
    };
    match file.exception(directory) {
        Ok(Some(found)) => {
            *exception = found;
            OK
        }
        Ok(None) => MISSING,
        Err(e) => refusal_status(e),
    }
}

/// The system on which the dump was made, by the bytes of its file.
#[unsafe(no_mangle)]
pub extern "C" fn seh_dump_system(bytes: &[u8], system: &mut SystemInfo) -> SehStatus
    ensures { Answers (spec.system_of bytes.now) system.old system.new result }
{
    let file = Minidump::new(bytes);
    let directory = match file.directory() {
        Ok(directory) => directory,
        Err(e) => return refusal_status(e),
    };
    match file.system_info(directory) {
        Ok(Some(found)) => {
            *system = found;
            OK
        }
        Ok(None) => MISSING,
        Err(e) => refusal_status(e),
    }
}
