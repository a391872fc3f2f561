//! What is read of the dump, and of the dump with one field changed.

ghost use Rattle.minidump.specs.Streams.{AreWhole};

use crate::rows::{column, dump, number, put, shows};
use minidump::layout::DIRECTORY_ENTRY_SIZE;
use minidump::{Context, DumpErr, Location, MemoryRange, Minidump, RangePlace, Table};
use std::alloc::Global;
use std::process::Abort;

/// What is asked, and the answer, with numbers in decimal.
const READ: &str = r"
directory   | Ok(Table { at: 32, count: 8 })
threads     | Ok(Some(Table { at: 132, count: 1 }))
thread      | Some([36, 1, 32, 2, 2147352576, 2227968, 4, 596, 1232, 612])
no thread   | None
modules     | Ok(Some(Table { at: 184, count: 1 }))
module      | Some([5368709120, 12288, 8721, 305419896, 584, 5, 612])
no module   | None
name        | Ok([97, 0, 98, 0])
memory      | Ok(Some(Table { at: 296, count: 1 }))
range       | Ok(Some(MemoryRange { start: 2227968, size: 4, at: 596 }))
no range    | Ok(None)
memory64    | Ok(Some(Memory64List { ranges: Table { at: 552, count: 2 }, base_rva: 600 }))
range64     | Ok(Some((MemoryRange { start: 4096, size: 8, at: 600 }, [1, 608])))
next64      | Ok(Some((MemoryRange { start: 8192, size: 4, at: 608 }, [2, 612])))
last64      | Ok(None)
exception   | Ok(Some([36, 3221225477, 1, 0, 5368713780, 2, 1232, 612]))
information | Ok(Some([1, 8, 0, 0, 0, 0, 0, 0, 0, 0, 0, 0, 0, 0, 0]))
system      | Ok(Some([9, 10, 0, 19041, 2]))
flags       | Ok([1048587, 8064, 582])
integer     | Ok([1, 0, 0, 4, 2227968, 0, 0, 0, 0, 0, 0, 0, 0, 0, 0, 16])
rip         | Ok(5368713780)
xmm         | Ok([17, 34, 51, 0])
";

/// A field that is changed, and how what needs it is refused: `OFFSET | BYTES | ASKED | ANSWER`.
const BENT: &str = r"
3   | 51                      | directory | Err(Signature { found: 1364018253 })
5   | A8                      | directory | Err(Version { found: 43155 })
6   | FF FF                   | threads   | Ok(Some(Table { at: 132, count: 1 }))
8   | FF FF FF FF             | directory | Err(DirectoryTruncated { at: 32 })
8   | 8F 00 00 00             | directory | Ok(Table { at: 32, count: 143 })
8   | 00                      | directory | Ok(Table { at: 32, count: 0 })
8   | 00                      | threads   | Ok(None)
C   | FF FF FF FF             | directory | Err(DirectoryTruncated { at: 4294967295 })
20  | 00                      | threads   | Err(StreamTruncated { kind: ThreadList })
20  | 00                      | modules   | Ok(Some(Table { at: 184, count: 1 }))
24  | 33                      | threads   | Err(StreamShort { kind: ThreadList })
24  | 03                      | threads   | Err(StreamShort { kind: ThreadList })
24  | FF FF FF FF FF FF FF FF | threads   | Err(StreamTruncated { kind: ThreadList })
80  | 02                      | threads   | Err(StreamShort { kind: ThreadList })
80  | FF FF FF FF             | threads   | Err(StreamShort { kind: ThreadList })
30  | 6F                      | modules   | Err(StreamShort { kind: ModuleList })
3C  | 13                      | memory    | Err(StreamShort { kind: MemoryList })
48  | A7                      | exception | Err(StreamShort { kind: Exception })
54  | 37                      | system    | Err(StreamShort { kind: SystemInfo })
60  | 0F                      | memory64  | Err(StreamShort { kind: Memory64List })
60  | 2F                      | memory64  | Err(StreamShort { kind: Memory64List })
218 | FF FF FF FF FF FF FF FF | memory64  | Err(StreamShort { kind: Memory64List })
218 | 00 00 00 00 00 00 00 10 | memory64  | Err(StreamShort { kind: Memory64List })
130 | E1 04 00 00             | range     | Err(RangeTruncated { index: 0 })
134 | FF FF FF FF             | range     | Err(RangeTruncated { index: 0 })
230 | FF FF FF FF FF FF FF FF | range64   | Err(RangeTruncated { index: 0 })
240 | FF FF FF FF FF FF FF FF | next64    | Err(RangeTruncated { index: 1 })
248 | 03                      | name      | Err(StringOdd { at: 584 })
248 | E9 04                   | name      | Err(StringTruncated { at: 584 })
248 | FF FF FF FF             | name      | Err(StringTruncated { at: 584 })
294 | 0B 00 01                | rip       | Err(ContextKind { flags: 65547 })
";

/// What is asked of a dump, the answer that is wanted, and the row that says so.
#[derive(Drop)]
struct Question<'q> {
    asked: &'q str,
    wanted: &'q str,
    row: &'q str,
}

/// Asks for the directory or a list, and compares the answer.
fn asks(rt: &impl Abort, alloc: Global, file: &Minidump<'_>, question: &Question<'_>) {
    let wanted = question.wanted;
    let row = question.row;
    let Ok(directory) = file.directory() else {
        return shows(rt, alloc, &file.directory(), wanted, row);
    };
    match question.asked {
        "directory" => shows(rt, alloc, &file.directory(), wanted, row),
        "threads" => shows(rt, alloc, &file.threads(directory), wanted, row),
        "modules" => shows(rt, alloc, &file.modules(directory), wanted, row),
        "memory" => shows(rt, alloc, &file.memory_list(directory), wanted, row),
        "memory64" => shows(rt, alloc, &file.memory64_list(directory), wanted, row),
        "exception" => shows(rt, alloc, &exception(file, directory), wanted, row),
        "information" => shows(rt, alloc, &information(file, directory), wanted, row),
        "system" => shows(rt, alloc, &system(file, directory), wanted, row),
        _ => asks_of_lists(rt, alloc, file, question),
    }
}

/// The fields of the exception, but for its numbers.
fn exception(file: &Minidump<'_>, directory: Table) -> Result<Option<[u64; 8]>, DumpErr>
    requires { AreWhole file.now DIRECTORY_ENTRY_SIZE directory }
{
    let Some(e) = file.exception(directory)? else {
        return Ok(None);
    };
    Ok(Some([
        e.thread_id as u64,
        e.exception_code as u64,
        e.exception_flags as u64,
        e.exception_record,
        e.exception_address,
        e.number_parameters as u64,
        e.context.size as u64,
        e.context.rva as u64,
    ]))
}

/// Its numbers.
fn information(file: &Minidump<'_>, directory: Table) -> Result<Option<[u64; 15]>, DumpErr>
    requires { AreWhole file.now DIRECTORY_ENTRY_SIZE directory }
{
    match file.exception(directory)? {
        Some(e) => Ok(Some(e.information)),
        None => Ok(None),
    }
}

/// The fields of the system.
fn system(file: &Minidump<'_>, directory: Table) -> Result<Option<[u32; 5]>, DumpErr>
    requires { AreWhole file.now DIRECTORY_ENTRY_SIZE directory }
{
    let Some(s) = file.system_info(directory)? else {
        return Ok(None);
    };
    Ok(Some([
        s.processor_architecture as u32,
        s.major_version,
        s.minor_version,
        s.build_number,
        s.platform_id,
    ]))
}

/// Asks for what is in a list.
fn asks_of_lists(rt: &impl Abort, alloc: Global, file: &Minidump<'_>, question: &Question<'_>) {
    let wanted = question.wanted;
    let row = question.row;
    match question.asked {
        "thread" => shows(rt, alloc, &thread(file, 0), wanted, row),
        "no thread" => shows(rt, alloc, &thread(file, 1), wanted, row),
        "module" => shows(rt, alloc, &module_numbers(file, 0), wanted, row),
        "no module" => shows(rt, alloc, &module_numbers(file, u64::MAX), wanted, row),
        "name" => shows(rt, alloc, &file.text(584), wanted, row),
        "range" => shows(rt, alloc, &file.range(RANGES, 0), wanted, row),
        "no range" => shows(rt, alloc, &file.range(RANGES, 1), wanted, row),
        "range64" => shows(rt, alloc, &range64(file, 0, 600), wanted, row),
        "next64" => shows(rt, alloc, &range64(file, 1, 608), wanted, row),
        "last64" => shows(rt, alloc, &range64(file, 2, 612), wanted, row),
        _ => asks_of_registers(rt, alloc, file, question),
    }
}

/// The tables of the dump.
const THREADS: Table = Table { at: 132, count: 1 };

const MODULES: Table = Table { at: 184, count: 1 };

const RANGES: Table = Table { at: 296, count: 1 };

const RANGES64: Table = Table { at: 552, count: 2 };

/// The context of the dump.
const CONTEXT: Location = Location {
    size: 1232,
    rva: 612,
};

/// The fields of a thread.
fn thread(file: &Minidump<'_>, index: u64) -> Option<[u64; 10]> {
    let t = file.thread(THREADS, index)?;
    Some([
        t.thread_id as u64,
        t.suspend_count as u64,
        t.priority_class as u64,
        t.priority as u64,
        t.teb,
        t.stack.start,
        t.stack.memory.size as u64,
        t.stack.memory.rva as u64,
        t.context.size as u64,
        t.context.rva as u64,
    ])
}

/// The fields of a module.
fn module_numbers(file: &Minidump<'_>, index: u64) -> Option<[u64; 7]> {
    let m = file.module(MODULES, index)?;
    Some([
        m.base,
        m.size as u64,
        m.check_sum as u64,
        m.time_date_stamp as u64,
        m.name_rva as u64,
        m.cv_record.size as u64,
        m.cv_record.rva as u64,
    ])
}

/// A range of the 64-bit memory list, and the numbers of the place after it.
fn range64(
    file: &Minidump<'_>,
    index: u64,
    at: u64,
) -> Result<Option<(MemoryRange, [u64; 2])>, DumpErr> {
    match file.range64(RANGES64, RangePlace { index, at })? {
        Some((range, next)) => Ok(Some((range, [next.index, next.at]))),
        None => Ok(None),
    }
}

/// Asks for registers.
fn asks_of_registers(rt: &impl Abort, alloc: Global, file: &Minidump<'_>, question: &Question<'_>) {
    let wanted = question.wanted;
    let row = question.row;
    let registers = file.context(CONTEXT);
    match question.asked {
        "flags" => {
            let found = registers.map(|c| [c.context_flags, c.mx_csr, c.e_flags]);
            shows(rt, alloc, &found, wanted, row);
        }
        "integer" => shows(rt, alloc, &registers.map(|c| c.integer), wanted, row),
        "rip" => shows(rt, alloc, &registers.map(|c| c.rip), wanted, row),
        _ => shows(rt, alloc, &registers.map(|c| xmm(&c)), wanted, row),
    }
}

/// The halves of the first and the last XMM register.
fn xmm(registers: &Context) -> [u64; 4] {
    let first = registers.xmm[0];
    let last = registers.xmm[15];
    [first.low, first.high, last.low, last.high]
}

/// Asks a question.
fn ask(rt: &impl Abort, alloc: Global, bytes: &[u8], asked: &str, wanted: &str, row: &str) {
    asks(
        rt,
        alloc,
        &Minidump::new(bytes),
        &Question { asked, wanted, row },
    );
}

#[test]
fn fields_are_read(rt: HostRuntime) {
    let alloc = rt.alloc();
    let bytes = dump(&rt, alloc);
    for row in READ.lines().skip(1) {
        ask(&rt, alloc, &bytes, column(row, 0), column(row, 1), row);
    }
}

#[test]
fn bent_parts_are_refused_alone(rt: HostRuntime) {
    let alloc = rt.alloc();
    for row in BENT.lines().skip(1) {
        let mut bytes = dump(&rt, alloc);
        put(&rt, &mut bytes, number(&rt, column(row, 0)), column(row, 1));
        ask(&rt, alloc, &bytes, column(row, 2), column(row, 3), row);
    }
}

/// Where the file ends, and what is then refused: `SIZE | ASKED | ANSWER`.
const SHORT: &str = r"
0   | directory | Err(HeaderTruncated)
1F  | directory | Err(HeaderTruncated)
7F  | directory | Err(DirectoryTruncated { at: 32 })
80  | threads   | Err(StreamTruncated { kind: ThreadList })
B4  | threads   | Ok(Some(Table { at: 132, count: 1 }))
B4  | modules   | Err(StreamTruncated { kind: ModuleList })
24B | name      | Err(StringTruncated { at: 584 })
24F | name      | Err(StringTruncated { at: 584 })
250 | name      | Ok([97, 0, 98, 0])
733 | rip       | Err(ContextTruncated { at: 612 })
";

#[test]
fn short_files_are_refused(rt: HostRuntime) {
    let alloc = rt.alloc();
    for row in SHORT.lines().skip(1) {
        let mut bytes = dump(&rt, alloc);
        bytes.truncate(number(&rt, column(row, 0)));
        ask(&rt, alloc, &bytes, column(row, 1), column(row, 2), row);
    }
}
