//! The inputs that rows name, and tables of such rows.
//!
//! A row is `WORDS | INPUT | WANTED`. An input is `text` with a text of C, `compiled` with a text,
//! for the image of it, `bytes` with bytes, `code` with the bytes of the code of an image of one
//! section, `infos` with the bytes of unwind infos, which are at 0x3000, and `chain` with the
//! number of such infos, of which each but the last is chained to the next one; or the name of an
//! image. After it come changes, each after ` @ `: `cut` with the length to which it is cut, or a
//! place `PART+DISTANCE`, the distance in decimal, and the bytes that are put there. A word of
//! bytes is two digits, `TIMES*BYTE`, or a name after `'`; what comes after any other word on a
//! line isn't read.

use crate::calls::{answers, compiled};
use std::alloc::{AllocError, Global};
use std::process::Abort;
use test_tables::calls::store_and_collision;
use test_tables::forged::{
    HARMS_KIND, HARMS_MARK, HARMS_ROW, HARMS_SAVED_STATE, PUSHES_AT_ADDRESS_8, RAISES_AT_THE_GUARD,
    RETURNS_AS_FILTER, RETURNS_AS_FINALLY, UNWINDS_TO_NO_FRAME, plain, raising,
};
use test_tables::handled::{continued_access, filter_and_finally, raise_in_finally};
use test_tables::one_section::{ENDLESS, FOURTEEN, OPTIONAL, PLAIN, SIGNATURE, TABLE, image};
use test_tables::tables::{ENTRY, put, table_image};

/// An image of three unwind infos, which are at 0x3000, each of eight bytes, and after them, at
/// 0x3018, a function table that counts the first two of three entries.
const TABLES: &str = r"
'MZ 58*00 40 00 00 00 'PE 00 00
64 86 01 00 12*00 90 00 23 00 // Machine, NumberOfSections, SizeOfOptionalHeader
0B 02 22*00 00 00 00 40 01 00 00 00 24*00 00 40 00 00 48*00 // Magic, ImageBase, SizeOfImage
04 00 00 00 24*00 18 30 00 00 18 00 00 00 // NumberOfRvaAndSizes, the exception directory
'.xdata 00 00 00 10 00 00 00 30 00 00 3C 00 00 00 10 01 00 00 12*00 40 00 00 40
01 7*00 01 7*00 01 7*00
00 20 00 00 1F 20 00 00 00 30 00 00
20 20 00 00 3F 20 00 00 08 30 00 00
40 20 00 00 5F 20 00 00 10 30 00 00
";

/// An image of one function, at 0x2000, whose code is at 312 of the file; of its unwind info, at
/// 325, which tells of its first two instructions; and of a function table with its entry, at 333.
const FRAMED: &str = r"
'MZ 58*00 40 00 00 00 'PE 00 00
64 86 02 00 12*00 90 00 23 00 // Machine, NumberOfSections, SizeOfOptionalHeader
0B 02 22*00 00 00 00 40 01 00 00 00 24*00 00 40 00 00 48*00 // Magic, ImageBase, SizeOfImage
04 00 00 00 24*00 08 30 00 00 0C 00 00 00 // NumberOfRvaAndSizes, the exception directory
'.text 00 00 00 0D 00 00 00 00 20 00 00 0D 00 00 00 38 01 00 00 12*00 20 00 00 60
'.xdata 00 00 14 00 00 00 00 30 00 00 14 00 00 00 45 01 00 00 12*00 40 00 00 40
53 48 83 EC 20 31 F6 // push rbx; sub rsp, 32; xor esi, esi
48 83 C4 20 5B C3 // add rsp, 32; pop rbx; ret
01 05 02 00 05 32 01 30 // at 5 an allocation of 32 bytes, at 1 a push of RBX
00 20 00 00 0D 20 00 00 00 30 00 00
";

/// An image of four functions, from 312 of the file on: three as clang 14 wrote them for 64-bit
/// Windows at -O1, and one with a frame register, a register that `mov` saves and an epilogue of
/// `lea`, after the example in the ABI ("Prolog code"). Their unwind infos are at 563, the table
/// behind them.
const FOREIGN: &str = r"
'MZ 58*00 40 00 00 00 'PE 00 00
64 86 02 00 12*00 90 00 23 00 // Machine, NumberOfSections, SizeOfOptionalHeader
0B 02 22*00 00 00 00 40 01 00 00 00 24*00 00 40 00 00 48*00 // Magic, ImageBase, SizeOfImage
04 00 00 00 24*00 3C 30 00 00 30 00 00 00 // NumberOfRvaAndSizes, the exception directory
'.text 00 00 00 FB 00 00 00 00 20 00 00 FB 00 00 00 38 01 00 00 12*00 20 00 00 60
'.xdata 00 00 6C 00 00 00 00 30 00 00 6C 00 00 00 33 02 00 00 12*00 40 00 00 40
56 57 48 83 EC 28 // push rsi; push rdi; sub rsp, 40
89 CE E8 00 00 00 00 89 C7 89 F1 E8 00 00 00 00 01 F7 01 F8 // two calls
48 83 C4 28 5F 5E C3 15*CC // add rsp, 40; pop rdi; pop rsi; ret
41 56 56 57 53 48 83 EC 28 // push r14, rsi, rdi, rbx; sub rsp, 40
85 D2 74 29 89 D6 48 63 C2 4C 8D 34 C1 F7 DE BF 01 00 00 00 31 DB 90 // jz over the loop
49 0F AF 3C DE 89 F9 E8 00 00 00 00 48 83 C3 FF 39 DE 75 EC EB 05 // the loop
BF 01 00 00 00 48 89 F8
48 83 C4 28 5B 5F 5E 41 5E C3 8*CC // add rsp, 40; pop rbx, rdi, rsi, r14; ret
41 56 56 57 55 53 48 83 EC 20 // push r14, rsi, rdi, rbp, rbx; sub rsp, 32
44 89 CE 44 89 C7 89 D3 44 8B 74 24 70 // the fifth argument, above the frame
E8 00 00 00 00 89 C5 89 D9 E8 00 00 00 00 89 C3 01 EB 89 F9 E8 00 00 00 00 89 C7 01 DF 89 F1
E8 00 00 00 00 89 C6 01 FE 44 89 F1 E8 00 00 00 00 01 F0
48 83 C4 20 5B 5D 5F 5E 41 5E C3 12*CC // add rsp, 32; pop rbx, rbp, rdi, rsi, r14; ret
55 48 83 EC 40 48 8D 6C 24 20 48 89 74 24 38 // push rbp; sub rsp, 64; lea rbp, [rsp + 32]; save
31 F6 48 8B 75 18 48 8D 65 20 5D C3 // xor esi, esi; load; lea rsp, [rbp + 32]; pop rbp; ret
01 06 03 00 06 42 02 70 01 60 00 00
01 09 05 00 09 42 05 30 04 70 03 60 02 E0 00 00
01 0A 06 00 0A 32 06 30 05 50 04 70 03 60 02 E0
01 0F 05 25 0F 64 07 00 0A 03 05 72 01 50 00 00
00 20 00 00 21 20 00 00 00 30 00 00
30 20 00 00 78 20 00 00 0C 30 00 00
80 20 00 00 D4 20 00 00 1C 30 00 00
E0 20 00 00 FB 20 00 00 2C 30 00 00
";

/// An image of a function at 0x2000 and two fragments of it, at 0x200F and 0x2013, whose code is at
/// 312 of the file: the first goes back, the second has an epilogue of its own. Their unwind infos
/// are at 339, 347 and 363, and the table at 383.
const FRAGMENTS: &str = r"
'MZ 58*00 40 00 00 00 'PE 00 00
64 86 02 00 12*00 90 00 23 00 // Machine, NumberOfSections, SizeOfOptionalHeader
0B 02 22*00 00 00 00 40 01 00 00 00 24*00 00 40 00 00 48*00 // Magic, ImageBase, SizeOfImage
04 00 00 00 24*00 2C 30 00 00 24 00 00 00 // NumberOfRvaAndSizes, the exception directory
'.text 00 00 00 1B 00 00 00 00 20 00 00 1B 00 00 00 38 01 00 00 12*00 20 00 00 60
'.xdata 00 00 50 00 00 00 00 30 00 00 50 00 00 00 53 01 00 00 12*00 40 00 00 40
53 48 83 EC 20 85 C9 74 06 // push rbx; sub rsp, 32; test ecx, ecx; jz to the first fragment
48 83 C4 20 5B C3 // add rsp, 32; pop rbx; ret
31 DB EB F6 // xor ebx, ebx; jmp to the epilogue of the function
31 C0 48 83 C4 20 5B C3 // xor eax, eax; add rsp, 32; pop rbx; ret
01 05 02 00 05 32 01 30 // at 5 an allocation of 32 bytes, at 1 a push of RBX
21 00 00 00 00 20 00 00 0F 20 00 00 00 30 00 00 // no codes, chained to the function's entry
21 00 00 00 00 20 00 00 0F 20 00 00 00 30 00 00 4*00
00 20 00 00 0F 20 00 00 00 30 00 00
0F 20 00 00 13 20 00 00 08 30 00 00
13 20 00 00 1B 20 00 00 18 30 00 00
";

/// An image of one library and five imports: the descriptors are at 0x1000, the lookup table at
/// 0x1040, the slots at 0x1080, the names at 0x10B0 and the code at 0x1128, which puts what is in
/// each of the five slots by a call through the last one, and returns 7.
const IMPORTING: &str = r"
'MZ 58*00 40 00 00 00 'PE 00 00
64 86 01 00 12*00 90 00 23 00 // Machine, NumberOfSections, SizeOfOptionalHeader
0B 02 14*00 28 11 00 00 4*00 00 00 00 40 01 00 00 00 24*00 00 20 00 00 48*00 // entry, base, size
04 00 00 00 8*00 00 10 00 00 28 00 00 00 16*00 // NumberOfRvaAndSizes, the import directory
'.text 00 00 00 00 04 00 00 00 10 00 00 00 04 00 00 10 01 00 00 12*00 20 00 00 60
40 10 00 00 12*00 80 10 00 00 44*00 // the lookup table, no name, the slots
B0 10 6*00 C8 10 6*00 E0 10 6*00 F8 10 6*00 10 11 6*00 8*00 64*00
00 00 'RaiseException 8*00
00 00 '__C_specific_handler 2*00
00 00 '_local_unwind 9*00
00 00 'protect 15*00
00 00 'put 19*00
48 83 EC 28 // sub rsp, 40
48 8B 0D 4D FF FF FF FF 15 67 FF FF FF // mov rcx, [slot 0]; call [slot 4]
48 8B 0D 48 FF FF FF FF 15 5A FF FF FF // mov rcx, [slot 1]; call [slot 4]
48 8B 0D 43 FF FF FF FF 15 4D FF FF FF // mov rcx, [slot 2]; call [slot 4]
48 8B 0D 3E FF FF FF FF 15 40 FF FF FF // mov rcx, [slot 3]; call [slot 4]
48 8B 0D 39 FF FF FF FF 15 33 FF FF FF // mov rcx, [slot 4]; call [slot 4]
B8 07 00 00 00 48 83 C4 28 C3 649*00 // mov eax, 7; add rsp, 40; ret
";

/// Adds what a word spells. The answer is whether it spells anything.
fn push_word(rt: &impl Abort, out: &mut Vec<u8>, word: &str) -> bool {
    if let Some(name) = word.strip_prefix('\'') {
        out.extend_from_slice(name.as_bytes()).expect(rt, "memory");
        return true;
    }
    let (times, byte) = word.split_once('*').unwrap_or(("1", word));
    match (times.parse::<usize>(), u8::from_str_radix(byte, 16)) {
        (Ok(times), Ok(byte)) => {
            let length = out.len().saturating_add(times);
            out.resize(length, byte).expect(rt, "memory");
            true
        }
        _ => false,
    }
}

/// The bytes that the lines of a text spell, each up to the first word that spells nothing.
fn spelled(rt: &impl Abort, alloc: Global, text: &str) -> Vec<u8> {
    let mut bytes = Vec::new(alloc);
    for line in text.lines() {
        for word in line.split_ascii_whitespace() {
            if !push_word(rt, &mut bytes, word) {
                break;
            }
        }
    }
    bytes
}

/// So many infos, of which each but the last is chained to the next one. Each of those has 16
/// bytes.
fn chain(rt: &impl Abort, alloc: Global, count: &str) -> Vec<u8> {
    let mut infos = Vec::new(alloc);
    for next in 1..count.parse::<u8>().unwrap_or(1) {
        let begin = [0x21, 0, 0, 0, 0, 0x20, 0, 0, 0x20, 0x20, 0, 0];
        let parent = [next % 16 * 16, 0x30 + next / 16, 0, 0];
        infos.extend_from_slice(&begin).expect(rt, "memory");
        infos.extend_from_slice(&parent).expect(rt, "memory");
    }
    infos.extend_from_slice(&[1, 0, 0, 0]).expect(rt, "memory");
    infos
}

/// The image of this name whose code harms the records of the dispatcher.
fn forged(alloc: Global, name: &str) -> Result<Vec<u8>, AllocError> {
    match name {
        "harms_kind" => raising(alloc, HARMS_KIND),
        "harms_mark" => raising(alloc, HARMS_MARK),
        "harms_row" => raising(alloc, HARMS_ROW),
        "harms_saved_state" => raising(alloc, HARMS_SAVED_STATE),
        "returns_as_filter" => plain(alloc, RETURNS_AS_FILTER),
        "returns_as_finally" => plain(alloc, RETURNS_AS_FINALLY),
        "unwinds_to_no_frame" => plain(alloc, UNWINDS_TO_NO_FRAME),
        "raises_at_the_guard" => plain(alloc, RAISES_AT_THE_GUARD),
        "pushes_at_address_8" => plain(alloc, PUSHES_AT_ADDRESS_8),
        _ => image(alloc, PLAIN, PUSHES_AT_ADDRESS_8),
    }
}

/// The image of this name.
fn named(alloc: Global, name: &str) -> Result<Vec<u8>, AllocError> {
    match name {
        "fourteen" => image(alloc, PLAIN, &FOURTEEN),
        "endless" => image(alloc, PLAIN, &ENDLESS),
        "filter_and_finally" => filter_and_finally(alloc),
        "raise_in_finally" => raise_in_finally(alloc),
        "continued_access" => continued_access(alloc),
        "store_and_collision" => store_and_collision(alloc),
        _ => forged(alloc, name),
    }
}

/// An input without changes.
fn unchanged(rt: &impl Abort, alloc: Global, input: &str) -> Vec<u8> {
    let (kind, rest) = input.split_once(' ').unwrap_or((input, ""));
    match kind {
        "text" => rest.as_bytes().to_vec(alloc).expect(rt, "memory"),
        "compiled" => compiled(rt, alloc, rest),
        "bytes" => spelled(rt, alloc, rest),
        "tables" => spelled(rt, alloc, TABLES),
        "framed" => spelled(rt, alloc, FRAMED),
        "foreign" => spelled(rt, alloc, FOREIGN),
        "fragments" => spelled(rt, alloc, FRAGMENTS),
        "importing" => spelled(rt, alloc, IMPORTING),
        "infos" => table_image(alloc, &spelled(rt, alloc, rest), &ENTRY).expect(rt, "memory"),
        "chain" => table_image(alloc, &chain(rt, alloc, rest), &ENTRY).expect(rt, "memory"),
        "code" => image(alloc, PLAIN, &spelled(rt, alloc, rest)).expect(rt, "memory"),
        _ => named(alloc, kind).expect(rt, "memory"),
    }
}

/// The offset in the file that a word `PART+DISTANCE` names.
fn offset_of(word: &str) -> Option<usize> {
    let (part, distance) = word.split_once('+')?;
    let start = match part {
        "file" => 0,
        "signature" => SIGNATURE,
        "optional" => OPTIONAL,
        "sections" => TABLE,
        _ => return None,
    };
    start.checked_add(distance.parse().ok()?)
}

/// Makes a change.
fn change(rt: &impl Abort, alloc: Global, bytes: &mut Vec<u8>, change: &str) {
    let (place, rest) = change.split_once(' ').unwrap_or((change, ""));
    match offset_of(place) {
        Some(at) => put(bytes, at, &spelled(rt, alloc, rest)),
        None => bytes.truncate(rest.parse().unwrap_or(usize::MAX)),
    }
}

/// The input that a row names.
pub fn input_of(rt: &impl Abort, alloc: Global, input: &str) -> Vec<u8> {
    let mut parts = input.split(" @ ");
    let mut bytes = unchanged(rt, alloc, parts.next().unwrap_or(""));
    for part in parts {
        change(rt, alloc, &mut bytes, part);
    }
    bytes
}

/// What a row has: the words, the input and what is wanted.
pub fn columns_of(row: &str) -> Option<(&str, &str, &str)> {
    let (words, rest) = row.split_once(" | ")?;
    let (input, wanted) = rest.rsplit_once(" | ")?;
    Some((words, input, wanted))
}

/// Compares what the words of a row answer for its input with what is wanted.
pub fn row_answers(rt: &impl Abort, alloc: Global, row: &str) {
    let (words, input, wanted) = columns_of(row).expect(rt, row);
    let bytes = input_of(rt, alloc, input);
    answers(rt, alloc, words, &bytes, wanted);
}

/// The same of each row of a table. The table is one text, with a row in each line after its first.
pub fn all_answer(rt: &impl Abort, alloc: Global, table: &str) {
    for row in table.lines().skip(1) {
        row_answers(rt, alloc, row);
    }
}
