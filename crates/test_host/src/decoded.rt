//! What is run is what memory holds, whether it was decoded before or not.

use crate::shown::{Run, shows};
use std::alloc::Global;
use std::process::Abort;
use test_tables::one_section::{Fields, PLAIN, SIGNATURE, TABLE, headers, image};
use test_tables::tables::put;
use test_tables::words::bytes_of;

/// A run that would show its trace, of a hundred turns.
const TRACED: Run = Run {
    argument: 0,
    turns: 100,
    trace: true,
};

/// Code that writes 7 over the 5 that its first instruction loads, and begins again.
const OVERWRITTEN: &str = "B9 05 00 00 00 83 F9 05 75 09 C6 05 F0 FF FF FF 07 EB ED 89 C8 C3";

// mov ecx,5; cmp ecx,5; jne +9; mov byte [rip-16],7; jmp to the first; mov eax,ecx; ret
#[test]
fn code_overwrites_itself(rt: HostRuntime) {
    let fields = Fields {
        characteristics: 0xE000_0020,
        ..PLAIN
    };
    let code = bytes_of(rt.alloc(), OVERWRITTEN).expect(&rt, "memory");
    let bytes = image(rt.alloc(), fields, &code).expect(&rt, "memory");
    shows(&rt, rt.alloc(), &bytes, TRACED, "exit 7");
}

/// At 0x1000: add ecx,1; jmp 0x3000.
const FIRST: &str = "83 C1 01 E9 F8 1F 00 00";

/// At 0x3000: add ecx,2; cmp ecx,6; jne 0x1000; mov eax,ecx; ret.
const SECOND: &str = "83 C1 02 83 F9 06 0F 85 F4 DF FF FF 89 C8 C3";

// Two instructions at addresses that are 8,192 apart are run in turn.
#[test]
fn addresses_share_their_low_bits(rt: HostRuntime) {
    let mut code = bytes_of(rt.alloc(), FIRST).expect(&rt, "memory");
    code.resize(0x2000, 0x90).expect(&rt, "memory");
    let second = bytes_of(rt.alloc(), SECOND).expect(&rt, "memory");
    code.extend_from_slice(&second).expect(&rt, "memory");
    let fields = Fields {
        size: 0x4000,
        ..PLAIN
    };
    let bytes = image(rt.alloc(), fields, &code).expect(&rt, "memory");
    shows(&rt, rt.alloc(), &bytes, TRACED, "exit 6");
}

/// The end of a page at 0x2000: the first four bytes of mov ecx,5.
const LAST: &str = "B9 05 00 00";

/// From 0x2000 on, in a page that may be written: the fifth byte; cmp ecx,5; jne +9; mov byte
/// [0x2000],1; jmp 0x1FFC; mov eax,ecx; ret.
const NEXT: &str = "00 81 F9 05 00 00 00 75 09 C6 05 F0 FF FF FF 01 EB EA 89 C8 C3";

/// Where the bytes of the first of two sections are in the file.
const RAW: usize = TABLE + 80;

/// Fills in a row of the table of sections: its address, its size in memory and in the file, where
/// it is in the file, and its characteristics.
fn put_section(out: &mut Vec<u8>, row: usize, numbers: [u32; 4]) {
    let [address, size, place, characteristics] = numbers;
    let fields = [
        (8, size), // VirtualSize
        (12, address), // VirtualAddress
        (16, size), // SizeOfRawData
        (20, place), // PointerToRawData
        (36, characteristics),
    ];
    for (offset, number) in fields {
        put(out, row.saturating_add(offset), &number.to_le_bytes());
    }
}

/// An image of two sections of code, at 0x1000 and at 0x2000, of which the second may be written
/// too. It begins at 0x1FFC.
fn two_sections(rt: &impl Abort, alloc: Global, last: &[u8], next: &[u8]) -> Vec<u8> {
    let fields = Fields {
        entry: 0x1FFC,
        size: 0x3000,
        ..PLAIN
    };
    let mut out = headers(alloc, fields, 112).expect(rt, "memory");
    put(&mut out, SIGNATURE + 6, &[2]); // NumberOfSections
    out.resize(RAW, 0).expect(rt, "memory");
    let size = u32::try_from(next.len()).unwrap_or(0);
    put_section(&mut out, TABLE, [0x1000, 0x1000, 0x118, 0x6000_0020]);
    put_section(&mut out, TABLE + 40, [0x2000, size, 0x1118, 0xE000_0020]);
    out.resize(RAW + 0xFFC, 0x90).expect(rt, "memory");
    out.extend_from_slice(last).expect(rt, "memory");
    out.extend_from_slice(next).expect(rt, "memory");
    out
}

// Only the last byte of an instruction may be written.
#[test]
fn an_instruction_ends_in_a_writable_page(rt: HostRuntime) {
    let last = bytes_of(rt.alloc(), LAST).expect(&rt, "memory");
    let next = bytes_of(rt.alloc(), NEXT).expect(&rt, "memory");
    let bytes = two_sections(&rt, rt.alloc(), &last, &next);
    shows(&rt, rt.alloc(), &bytes, TRACED, "exit 16777221");
}
