//! Dispatch records in memory: where each field is, which records are placed and which are fetched.
//!
//! A table is one text. Each line after its first is a row of words; offsets are decimal, and
//! addresses and values hexadecimal.

use seh_num::event::Code;
use seh_num::width::Width;
use seh_records::{BadRecord, DispatchRecord, Guard, Kind, fetch, place};
use std::alloc::Global;
use std::process::Abort;
use test_tables::words::number_of;
use x64_machine::context::Context;
use x64_machine::cpu::{Cpu, Flags};
use x64_memory::page_map::PageMap;
use x64_memory::region::Region;
use x64_memory::space::{AddressSpace, ReadSpace};

/// The arena, and two pages of the stack.
const REGIONS: [Region; 2] = [
    Region {
        start: 0x2000_0000,
        end: 0x2010_0000,
        read: false,
        write: false,
        execute: false,
    },
    Region {
        start: 0x7000_0000,
        end: 0x7000_2000,
        read: true,
        write: true,
        execute: false,
    },
];

fn space(rt: &impl Abort, alloc: Global) -> PageMap {
    PageMap::new(alloc, &REGIONS).expect(rt, "memory")
}

/// A state whose registers have numbers from 50 on.
fn saved() -> Cpu {
    Cpu {
        registers: [
            50, 51, 52, 53, 54, 55, 56, 57, 58, 59, 60, 61, 62, 63, 64, 65,
        ],
        rip: 0x66,
        flags: Flags {
            carry: true,
            zero: false,
            sign: true,
            overflow: true,
        },
    }
}

fn record() -> DispatchRecord {
    DispatchRecord {
        kind: Kind::LocalUnwind,
        frame: 0x11,
        row: 0x12,
        target_frame: 0x13,
        target: 0x14,
        code: Code(0xE000_0001),
        flags: 1,
        count: 2,
        parameters: [31, 32, 33, 34, 35, 36, 37, 38, 39, 40, 41, 42, 43, 44, 45],
        saved: saved(),
        walk: Context {
            rip: 0x70,
            kept: [71, 72, 73, 74, 75, 76, 77, 78, 79],
        },
    }
}

/// Where the record is placed below RSP 0x70001620.
const AT: u64 = 0x7000_1000;

/// Places the record, and fetches it again.
fn is_placed(rt: &impl Abort, space: &mut PageMap) {
    assert!(rt; place(space, 0x7000_1620, &record()) == Ok(AT));
    assert!(rt; fetch(space, AT) == Ok(record()));
}

/// The first two words of a row: a decimal and a hexadecimal number.
fn pair_of(row: &str) -> Option<(u64, u64)> {
    let mut words = row.split_ascii_whitespace();
    let first = words.next()?.parse().ok()?;
    Some((first, number_of(words.next()?)?))
}

/// Compares words of a record, each by its offset, with the rows of a table.
fn words_are(rt: &impl Abort, space: &PageMap, table: &str) {
    for row in table.lines().skip(1) {
        let Some((offset, value)) = pair_of(row) else {
            panic!(rt; "no row: {row}")
        };
        let found = space.load(AT.wrapping_add(offset), Width::W64);
        assert!(rt; found == Ok(value), "{row}");
    }
}

/// The offsets are those of the record's table; the CONTEXT's are those of winnt.h, from 256 on.
const FIELDS: &str = r"
32 4843505344484553
40 3
48 11
56 12
64 13
72 14
80 70001060           | the record of the exception, at 96
88 70001100           | the CONTEXT, at 256
1488 70
1560 4F
96 1E0000001          | the exception
112 66
120 2
128 1F
240 2D
320 88300000000       | 256 + 0x40
376 32                | 256 + 0x78
408 36                | 256 + 0x98
496 41                | 256 + 0xF0
504 66                | 256 + 0xF8
";

#[test]
fn fields_are_at_their_offsets(rt: HostRuntime) {
    let mut space = space(&rt, rt.alloc());
    is_placed(&rt, &mut space);
    words_are(&rt, &space, FIELDS);
}

/// What memory holds before a record is placed.
const OLD: u64 = 0xA5A5_A5A5_A5A5_A5A5;

/// Fills memory from 64 bytes below the record on.
fn fill(rt: &impl Abort, space: &mut PageMap) {
    for index in 0..256 {
        let address = AT.wrapping_sub(64).wrapping_add(8 * index);
        assert!(rt; space.store(address, Width::W64, OLD) == Ok(()));
    }
}

/// The next record of the exception is at 104, and NumberParameters at 120; 124 to 127, 248 to 255
/// and what the CONTEXT's table doesn't name have no content. Below the record is the return
/// address, 8 below it, and above it what was suspended before.
const WRITTEN: &str = r"
104 0
120 2
248 0
256 0
328 0                 | 256 + 0x48
512 0                 | 256 + 0x100
1480 0
0 A5A5A5A5A5A5A5A5    | the home space
8 A5A5A5A5A5A5A5A5
16 A5A5A5A5A5A5A5A5
24 A5A5A5A5A5A5A5A5
1568 A5A5A5A5A5A5A5A5
18446744073709551608 A5A5A5A5A5A5A5A5
";

#[test]
fn all_is_written_but_the_home_space(rt: HostRuntime) {
    let mut space = space(&rt, rt.alloc());
    fill(&rt, &mut space);
    is_placed(&rt, &mut space);
    words_are(&rt, &space, WRITTEN);
}

/// The record is of 1,568 bytes, and its return address is below it: the lowest place is at
/// 0x70000010. A row has RSP, and where the record is placed or what guards it.
const PLACES: &str = r"
70002000 placed 700019E0
7000063F placed 70000010
70000630 placed 70000010
7000062F guard 6FFFFFF8
70002010 guard 70002000
20 guard 0
";

/// The stack pointer and the answer of a row.
fn place_of(row: &str) -> Option<(u64, Result<u64, Guard>)> {
    let (rsp, rest) = row.split_once(' ')?;
    let (how, word) = rest.split_once(' ')?;
    let address = number_of(word)?;
    let answer = if how == "placed" {
        Ok(address)
    } else {
        Err(Guard { address })
    };
    Some((number_of(rsp)?, answer))
}

/// Compares where a record is placed with a row.
fn places(rt: &impl Abort, alloc: Global, row: &str) {
    let Some((rsp, answer)) = place_of(row) else {
        panic!(rt; "no row: {row}")
    };
    let mut space = space(rt, alloc);
    assert!(rt; place(&mut space, rsp, &record()) == answer, "{row}");
}

#[test]
fn records_are_placed_in_the_stack(rt: HostRuntime) {
    for row in PLACES.lines().skip(1) {
        places(&rt, rt.alloc(), row);
    }
}

/// Bytes that are changed, by their offset, and whether the record is fetched then.
const DAMAGED: &str = r"
0 1 fetched
24 1 fetched
32 0 refused
39 48 fetched
39 68 refused
40 0 refused
40 5 refused
47 1 refused
124 1 fetched
";

/// Compares what is fetched of a damaged record with a row.
fn fetches(rt: &impl Abort, alloc: Global, row: &str) {
    let Some((offset, value)) = pair_of(row) else {
        panic!(rt; "no row: {row}")
    };
    let mut space = space(rt, alloc);
    is_placed(rt, &mut space);
    let _ = space.store(AT.wrapping_add(offset), Width::W8, value);
    let answer = if row.ends_with("fetched") {
        Ok(record())
    } else {
        Err(BadRecord { address: AT })
    };
    assert!(rt; fetch(&space, AT) == answer, "{row}");
}

/// Places a record of a kind whose number this is, and fetches it again.
fn has_number(rt: &impl Abort, alloc: Global, kind: Kind, number: u64) {
    let mut space = space(rt, alloc);
    let mut new = record();
    new.kind = kind;
    assert!(rt; place(&mut space, 0x7000_1620, &new) == Ok(AT), "{number}");
    assert!(rt; space.load(AT.wrapping_add(40), Width::W64) == Ok(number));
    assert!(rt; fetch(&space, AT) == Ok(new), "{number}");
}

#[test]
fn kinds_have_their_numbers(rt: HostRuntime) {
    has_number(&rt, rt.alloc(), Kind::Search, 1);
    has_number(&rt, rt.alloc(), Kind::ExceptionUnwind, 2);
    has_number(&rt, rt.alloc(), Kind::LocalUnwind, 3);
    has_number(&rt, rt.alloc(), Kind::Vectored, 4);
}

#[test]
fn damaged_records_are_refused(rt: HostRuntime) {
    for row in DAMAGED.lines().skip(1) {
        fetches(&rt, rt.alloc(), row);
    }
}

#[test]
fn no_record_is_there(rt: HostRuntime) {
    let space = space(&rt, rt.alloc());
    for address in [0, 0x7000_1A00, 0x2000_0000] {
        assert!(rt;
            fetch(&space, address) == Err(BadRecord { address }),
            "{address}"
        );
    }
}
