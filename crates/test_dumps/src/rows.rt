//! The dump, and what tests share.

use std::alloc::Global;
use std::fmt::Debug;
use std::process::Abort;

/// A dump with each stream, one of them twice: `OFFSET | BYTES | FIELD`, in hexadecimal (Windows
/// headers, minidumpapiset.h and winnt.h). Other bytes are 0.
const DUMP: &str = r"
0   | 4D 44 4D 50             | Signature
4   | 93 A7 34 12             | Version
8   | 08                      | NumberOfStreams
C   | 20                      | StreamDirectoryRva
20  | 03 00 00 00 34 00 00 00 80 00 00 00 | ThreadListStream
2C  | 04 00 00 00 70 00 00 00 B4 00 00 00 | ModuleListStream
38  | 05 00 00 00 14 00 00 00 24 01 00 00 | MemoryListStream
44  | 06 00 00 00 A8 00 00 00 38 01 00 00 | ExceptionStream
50  | 07 00 00 00 38 00 00 00 E0 01 00 00 | SystemInfoStream
5C  | 09 00 00 00 30 00 00 00 18 02 00 00 | Memory64ListStream
68  | 03 00 00 00 FF FF FF FF FF FF FF FF | a second thread list, which passes the end
74  | 34 12 00 00 FF FF FF FF FF FF FF FF | a stream of another type
80  | 01                      | NumberOfThreads
84  | 24                      | ThreadId
88  | 01                      | SuspendCount
8C  | 20                      | PriorityClass
90  | 02                      | Priority
94  | 00 00 FE 7F             | Teb
9C  | 00 FF 21                | Stack: StartOfMemoryRange
A4  | 04 00 00 00 54 02 00 00 | Memory
AC  | D0 04 00 00 64 02 00 00 | ThreadContext
B4  | 01                      | NumberOfModules
B8  | 00 00 00 40 01          | BaseOfImage
C0  | 00 30                   | SizeOfImage
C4  | 11 22                   | CheckSum
C8  | 78 56 34 12             | TimeDateStamp
CC  | 48 02                   | ModuleNameRva
104 | 05 00 00 00 64 02 00 00 | CvRecord
124 | 01                      | NumberOfMemoryRanges
128 | 00 FF 21                | StartOfMemoryRange
130 | 04 00 00 00 54 02 00 00 | Memory
138 | 24                      | ThreadId
140 | 05 00 00 C0             | ExceptionCode
144 | 01                      | ExceptionFlags
150 | 34 12 00 40 01          | ExceptionAddress
158 | 02                      | NumberParameters
160 | 01                      | ExceptionInformation: it wrote
168 | 08                      | to that address
1D8 | D0 04 00 00 64 02 00 00 | ThreadContext
1E0 | 09                      | ProcessorArchitecture
1E8 | 0A                      | MajorVersion
1F0 | 61 4A                   | BuildNumber
1F4 | 02                      | PlatformId
218 | 02                      | NumberOfMemoryRanges
220 | 58 02                   | BaseRva
228 | 00 10                   | StartOfMemoryRange
230 | 08                      | DataSize
238 | 00 20                   | StartOfMemoryRange
240 | 04                      | DataSize
248 | 04 00 00 00 61 00 62    | a MINIDUMP_STRING: ab
254 | 01 02 03 04 05 06 07 08 09 0A 0B 0C 0D 0E 0F 10 | bytes of memory
294 | 0B 00 10                | ContextFlags
298 | 80 1F                   | MxCsr
2A8 | 46 02                   | EFlags
2DC | 01                      | Rax
2F4 | 04                      | Rbx
2FC | 00 FF 21                | Rsp
354 | 10                      | R15
35C | 34 12 00 40 01          | Rip
404 | 11                      | Xmm0, low
40C | 22                      | Xmm0, high
4F4 | 33                      | Xmm15, low
";

/// How many bytes it has.
const SIZE: usize = 0x734;

fn digit(rt: &impl Abort, byte: u8) -> u8 {
    match byte {
        b'0'..=b'9' => byte - b'0',
        b'A'..=b'F' => byte - b'A' + 10,
        _ => panic!(rt; "no digit: {byte}"),
    }
}

/// A number in hexadecimal.
pub fn number(rt: &impl Abort, word: &str) -> usize {
    let mut value = 0usize;
    for byte in word.bytes() {
        value = value
            .wrapping_mul(16)
            .wrapping_add(digit(rt, byte) as usize);
    }
    value
}

/// Puts bytes, which are spelled in hexadecimal, at an offset, as far as they have room.
pub fn put(rt: &impl Abort, out: &mut Vec<u8>, at: usize, digits: &str) {
    let mut place = at;
    for word in digits.split_ascii_whitespace() {
        if let Some(byte) = out.get_mut(place) {
            *byte = (number(rt, word) % 256) as u8;
        }
        place = place.wrapping_add(1);
    }
}

/// The column of a row, "" where it has none.
pub fn column(row: &str, index: usize) -> &str {
    match row.split('|').nth(index) {
        Some(text) => text.trim(),
        None => "",
    }
}

/// The dump.
pub fn dump(rt: &impl Abort, alloc: Global) -> Vec<u8> {
    let mut out = vec![in alloc; 0u8; SIZE].expect(rt, "memory");
    for row in DUMP.lines().skip(1) {
        put(rt, &mut out, number(rt, column(row, 0)), column(row, 1));
    }
    out
}

/// Compares a value, as `{:?}` prints it, with a text.
pub fn shows<T: Debug>(rt: &impl Abort, alloc: Global, found: &T, wanted: &str, row: &str) {
    let text = format!(in alloc; "{found:?}").expect(rt, "memory");
    assert_eq!(rt; text.as_str(), wanted, "{row}");
}
