ghost use Rattle.std.specs.Prelude.{◌≡◌, ◌≤◌, ◌<◌, length};
ghost use Rattle.eh_tables.specs.Tables.{TablesAreWhole};

use crate::checks::{are, is_refused, shows};
use crate::entries::reads;
use crate::rows::{bytes_of, number, push_bytes, put_at};
use eh_tables::{RuntimeFunction, Tables};
use eh_write::{read_again, write_pdata};
use pe_image::ImageView;
use seh_num::steps::Steps;
use std::alloc::Global;
use std::marker::Brand;
use std::process::Abort;
use std::sync::ledger::{Blank, Ledger};
use test_tables::rows::columns_of;
use test_tables::tables::{ENTRY, table_image};

/// An info as LLVM writes it.
const WRITTEN_BY_LLVM: &str = "01190985 19680800 15341300 11030901 16000260 01500000";

/// Its fields, as llvm-readobj prints them.
const READ_BY_LLVM: &str = r"
2020 0 19 5 80 0 18
(None, false, None)
UnwindCode { offset: 25, operation: SaveVector { register: 6, offset: 128 } }
UnwindCode { offset: 21, operation: Save { register: 3, offset: 152 } }
UnwindCode { offset: 17, operation: SetFrame }
UnwindCode { offset: 9, operation: Allocate { size: 176 } }
UnwindCode { offset: 2, operation: Push { register: 6 } }
UnwindCode { offset: 1, operation: Push { register: 5 } }
";

#[test]
fn reads_what_llvm_writes(rt: HostRuntime) {
    let info = bytes_of(&rt, rt.alloc(), WRITTEN_BY_LLVM);
    reads(&rt, rt.alloc(), &info, READ_BY_LLVM);
}

/// An info with a scope table of one record, as LLVM writes it, but for the handler's address.
const SCOPED: &str =
    "19070300 07110800 10000000 00360000 01000000 10000000 20000000 01000000 30000000";

/// What is read of it, by the lowest byte of the handler's address. The table is read where the
/// handler is a jump through the slot of the C handler.
const BY_HANDLER: &str = r"
# 00
2020 3 7 0 0 0 C
(Some(13824), true, None)
UnwindCode { offset: 7, operation: Allocate { size: 1048584 } }
ScopeRecord { begin: 16, end: 32, handler_address: 1, jump_target: 48 }
# 08
2020 3 7 0 0 0 C
(Some(13832), true, None)
UnwindCode { offset: 7, operation: Allocate { size: 1048584 } }
ScopeRecord { begin: 16, end: 32, handler_address: 1, jump_target: 48 }
# 01
2020 3 7 0 0 0 C
(Some(13825), false, None)
UnwindCode { offset: 7, operation: Allocate { size: 1048584 } }
# 06
2020 3 7 0 0 0 C
(Some(13830), false, None)
UnwindCode { offset: 7, operation: Allocate { size: 1048584 } }
";

#[test]
fn reads_scope_tables_of_the_c_handler(rt: HostRuntime) {
    for part in BY_HANDLER.split("\n# ").skip(1) {
        let (handler, text) = part.split_once('\n').unwrap_or((part, ""));
        let mut info = bytes_of(&rt, rt.alloc(), SCOPED);
        put_at(&rt, rt.alloc(), &mut info, "C", handler);
        reads(&rt, rt.alloc(), &info, text);
    }
}

/// Compares what the function table of an image is refused for with a text.
fn answers(rt: &impl Abort, alloc: Global, infos: &[u8], entries: &[u8], wanted: &str, row: &str) {
    let bytes = table_image(alloc, infos, entries).expect(rt, "memory");
    let view = ImageView::read(alloc, &bytes).expect(rt, "an image");
    let answer = Tables::read(&view).err();
    is_refused(rt, alloc, &answer, wanted, row);
    let answer = Tables::read_in(alloc, &view).expect(rt, "memory").err();
    is_refused(rt, alloc, &answer, wanted, row);
}

/// Infos and their refusals, `BYTES | REFUSAL | NAME`, where `-` is none.
const INFOS: &str = r"
01 05 02 00 05 32 01 30                                    | -                                | as it is
02 00 00 00                                                | Version { index: 0, found: 2 }   | version 2
29 00 00 00                                                | Flags { index: 0 }               | flags 5
41 00 00 00                                                | Flags { index: 0 }               | flags 8
01 07 01 00 07 01 00 00                                    | Op { index: 0, slot: 0 }         | operand past the count
01 07 02 00 07 11 00 00                                    | Op { index: 0, slot: 0 }         | two operands past it
01 05 02 00 02 32 05 32                                    | CodeOrder { index: 0, slot: 1 }  | rising offset
01 04 01 00 04 03 00 00                                    | Op { index: 0, slot: 0 }         | no frame register
01 04 01 00 04 06 00 00                                    | Op { index: 0, slot: 0 }         | no operation 6
01 04 02 00 04 21 01 00                                    | Op { index: 0, slot: 0 }         | large with info 2
01 04 01 00 04 2A 00 00                                    | Op { index: 0, slot: 0 }         | machine frame 2
01 04 01 00 04 1A 00 00                                    | -                                | machine frame 1
21000000 00200000 20200000 00300000                        | ChainLong { index: 0 }           | chained to itself
21000000 00200000 20200000 00500000                        | Truncated { rva: 20480 }         | chained to none stored
09 00 00 00 00 36 00 00 FF FF FF FF                        | Truncated { rva: 12288 }         | all rows there may be
09000000 00360000 01000000 00200000 00200000 01000000 0120 | ScopeRange { index: 0, row: 0 }  | empty row
09000000 00360000 01000000 00200000 01200000 00500000 0120 | ScopeRange { index: 0, row: 0 }  | handler at the end
";

#[test]
fn refuses_infos(rt: HostRuntime) {
    for row in INFOS.lines().skip(1) {
        let columns = columns_of(row);
        let info = bytes_of(&rt, rt.alloc(), columns[0]);
        answers(&rt, rt.alloc(), &info, &ENTRY, columns[1], row);
    }
}

/// Entries, all with an info at 0x3000, and their refusals, `NAME | BYTES | REFUSAL`.
const ENTRIES: &str = r"
as they should be | 00200000 20200000 00300000 20200000 30200000 00300000 | -
empty             | 00200000 00200000 00300000 20200000 30200000 00300000 | EmptyRange { index: 0 }
same begin        | 00200000 20200000 00300000 00200000 30200000 00300000 | Unsorted { index: 1 }
one byte below    | 00200000 20200000 00300000 1F200000 30200000 00300000 | Unsorted { index: 1 }
empty and below   | 00200000 20200000 00300000 00200000 00200000 00300000 | EmptyRange { index: 1 }
misaligned        | 00200000 20200000 02300000 20200000 30200000 00300000 | Misaligned { rva: 12290 }
nothing stored    | 00200000 20200000 00300000 20200000 30200000 00600000 | Truncated { rva: 24576 }
short             | 00200000 20200000 003000                              | Truncated { rva: 16384 }
";

#[test]
fn refuses_entries(rt: HostRuntime) {
    for row in ENTRIES.lines().skip(1) {
        let columns = columns_of(row);
        let entries = bytes_of(&rt, rt.alloc(), columns[1]);
        answers(&rt, rt.alloc(), &[1, 0, 0, 0], &entries, columns[2], row);
    }
    answers(&rt, rt.alloc(), &[], &[], "-", "no entries");
}

/// Infos whose scope tables overlap. Those at 0, 10, 20 and 30 have the bytes of the ones behind
/// them as records, the first of 3, the last of none. That at 40 has two records, and that at 54
/// one, which lies across these.
const OVERLAPPING: &str = r"
09000000 00360000 03000000 00000000
09000000 00360000 02000000 00000000
09000000 00360000 01000000 00000000
09000000 00360000 00000000 00000000
09000000 00360000 02000000 01000000
02000000 09000000 00360000 01000000
02000000 03000000 00000000 00000000
";

/// Entries with these infos, in this order; a place there with bytes that are put to it; and their
/// refusal, `INFOS | PLACE | BYTES | REFUSAL | NAME`. The word at 2C is the begin of the third
/// record of the first table.
const OVERLAPS: &str = r"
00 10 20 30 | 2C | 00000000 | -                               | each contains the next one
30 20 10 00 | 2C | 00000000 | -                               | the next one contains each
10 00 20 00 | 2C | 00000000 | -                               | contained, containing, shared
00 10 20 30 | 2C | 00500000 | ScopeRange { index: 0, row: 2 } | the last record of the first
30 20 10 00 | 2C | 00500000 | ScopeRange { index: 1, row: 0 } | of the first that has one
30 10 20 00 | 2C | 00500000 | ScopeRange { index: 1, row: 1 } | in its second row
20 00       | 0C | 00500000 | ScopeRange { index: 1, row: 0 } | before those that were seen
10 00 54 40 | 68 | 00000000 | -                               | at another remainder
40 54       | 68 | 00500000 | ScopeRange { index: 0, row: 1 } | a jump target
54 40       | 68 | 00500000 | ScopeRange { index: 0, row: 0 } | a handler
40 54       | 6C | 00500000 | ScopeRange { index: 1, row: 0 } | behind the other table
";

/// Appends an entry with an info.
fn push_entry(rt: &impl Abort, entries: &mut Vec<u8>, index: usize, info: &str) {
    let begin = 0x2000 + (index % 256) as u32 * 16;
    let range = RuntimeFunction {
        begin,
        end: begin + 16,
        unwind_info: 0x3000 + (number(rt, info) % 256) as u32,
    };
    write_pdata(&[range], entries).expect(rt, "memory");
}

#[test]
fn reads_scope_tables_that_overlap(rt: HostRuntime) {
    for row in OVERLAPS.lines().skip(1) {
        let columns = columns_of(row);
        let mut infos = bytes_of(&rt, rt.alloc(), "");
        for line in OVERLAPPING.lines().skip(1) {
            push_bytes(&rt, &mut infos, line);
        }
        put_at(&rt, rt.alloc(), &mut infos, columns[1], columns[2]);
        let mut entries = bytes_of(&rt, rt.alloc(), "");
        for (index, info) in columns[0].split_ascii_whitespace().enumerate() {
            push_entry(&rt, &mut entries, index, info);
        }
        answers(&rt, rt.alloc(), &infos, &entries, columns[3], row);
    }
}

/// So many infos, of which each but the last is chained to the next one.
fn chain(rt: &impl Abort, alloc: Global, count: u8) -> Vec<u8> {
    let mut infos = bytes_of(rt, alloc, "");
    for k in 1..count {
        let next = [k % 16 * 16, 0x30 + k / 16, 0, 0];
        let start = [0x21, 0, 0, 0, 0, 0x20, 0, 0, 0x20, 0x20, 0, 0];
        infos.extend_from_slice(&start).expect(rt, "memory");
        infos.extend_from_slice(&next).expect(rt, "memory");
    }
    infos.extend_from_slice(&[1, 0, 0, 0]).expect(rt, "memory");
    infos
}

#[test]
fn counts_a_chain(rt: HostRuntime) {
    let most = chain(&rt, rt.alloc(), 32);
    answers(&rt, rt.alloc(), &most, &ENTRY, "-", "32 infos");
    let more = chain(&rt, rt.alloc(), 33);
    answers(
        &rt,
        rt.alloc(),
        &more,
        &ENTRY,
        "ChainLong { index: 0 }",
        "33 infos",
    );
}

/// A range with the info at 0x3000.
fn ranged(begin: u32, end: u32) -> RuntimeFunction {
    RuntimeFunction {
        begin,
        end,
        unwind_info: 0x3000,
    }
}

/// Addresses, and where the entry begins that holds each.
const LOOKUPS: &str = r"
1FFF             | None
2000             | Some(8192)
200F             | Some(8192)
2010             | None
2020             | Some(8224)
202F             | Some(8224)
2030             | Some(8240)
2031             | None
FFFFFFFFFFFFFFFF | None
";

fn finds(rt: &impl Abort, alloc: Global, tables: &Tables<'_, '_>)
    requires whole { TablesAreWhole tables.now }
{
    for row in LOOKUPS.lines().skip(1) {
        let columns = columns_of(row);
        let found = tables.lookup(number(rt, columns[0]));
        let begin = found.map(|entry| entry.range().begin);
        shows(rt, alloc, &begin, columns[1], row);
    }
}

#[test]
fn looks_up(rt: HostRuntime) {
    let ranges = [
        ranged(0x2000, 0x2010),
        ranged(0x2020, 0x2030),
        ranged(0x2030, 0x2031),
    ];
    let mut entries = bytes_of(&rt, rt.alloc(), "");
    write_pdata(&ranges, &mut entries).expect(&rt, "memory");
    let bytes = table_image(rt.alloc(), &[1, 0, 0, 0], &entries).expect(&rt, "memory");
    let view = ImageView::read(rt.alloc(), &bytes).expect(&rt, "an image");
    let tables = Tables::read(&view).expect(&rt, "a table");
    finds(&rt, rt.alloc(), &tables);
}

#[test]
fn finds_nothing_without_entries(rt: HostRuntime) {
    let bytes = table_image(rt.alloc(), &[], &[]).expect(&rt, "memory");
    let view = ImageView::read(rt.alloc(), &bytes).expect(&rt, "an image");
    let tables = Tables::read(&view).expect(&rt, "a table");
    let is_none = tables.lookup(0x2000).is_none() as u64;
    are(&rt, &[tables.len(), is_none], "0 1");
}

/// Where the entry begins that holds an address, and the steps of the search. The number of steps
/// takes no bytes, so that the contract alone says it: 0 where there are no entries, at most 2 of
/// 3.
fn looked_up<L: Ledger>(tables: &Tables<'_, '_>, rva: u64, blank: Blank) -> (Option<u32>, Steps<L>)
    requires whole { TablesAreWhole tables.now }
    requires name { blank.name ≡ L.name }
    requires parts { blank.parts ≡ L.parts }
    requires some { 0 < L.parts }
    ensures of_none { length tables.now.ranges ≡ 0 → result.1 ≡ 0 }
    ensures of_three { length tables.now.ranges ≡ 3 → result.1 ≤ 2 }
{
    let mut steps = Steps::<L>::new(blank);
    let found = tables.lookup_counted(rva, &mut steps);
    (found.map(|entry| entry.range().begin), steps)
}

fn begin_of<L: Ledger>(tables: &Tables<'_, '_>, rva: u64, blank: Blank) -> Option<u32>
    requires whole { TablesAreWhole tables.now }
    requires name { blank.name ≡ L.name }
    requires parts { blank.parts ≡ L.parts }
    requires some { 0 < L.parts }
{
    let (begin, _steps) = looked_up::<L>(tables, rva, blank);
    begin
}

/// The entries of a table, and where the one begins that holds 0x202F.
const SEARCHED: &str = r"
                                                                                 | None
00200000 10200000 00300000 20200000 30200000 00300000 30200000 31200000 00300000 | Some(8224)
";

#[test]
fn counts_the_steps_of_a_search(rt: HostRuntime) {
    for row in SEARCHED.lines().skip(1) {
        let columns = columns_of(row);
        let entries = bytes_of(&rt, rt.alloc(), columns[0]);
        let bytes = table_image(rt.alloc(), &[1, 0, 0, 0], &entries).expect(&rt, "memory");
        let view = ImageView::read(rt.alloc(), &bytes).expect(&rt, "an image");
        let tables = Tables::read(&view).expect(&rt, "a table");
        let found = begin_of::<Brand>(&tables, 0x202F, Blank::new(1));
        shows(&rt, rt.alloc(), &found, columns[1], row);
    }
}

#[test]
fn laws_hold() {
    read_again();
}
