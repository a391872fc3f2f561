use crate::rows::{number, number_at, same, shows, width_of};
use host_layout::service::Service;
use seh_num::event::Code;
use seh_num::size::LONGEST_INSTRUCTION;
use seh_num::width::Width;
use std::alloc::Global;
use std::process::Abort;
use test_tables::rows::{column, word, word_if};
use test_tables::words::put_bytes;
use x64_instr::decoding::decode;
use x64_instr::register::Reg;
use x64_machine::context::Context;
use x64_machine::control::pop;
use x64_machine::cpu::{Cpu, Flags};
use x64_machine::outcome::{StepOutcome, Stop};
use x64_machine::running::{execute, step};
use x64_machine::words::merge;
use x64_memory::page_map::PageMap;
use x64_memory::region::Region;
use x64_memory::space::AddressSpace;

mod computing;
mod stepping;

/// The arena, a page of code, one of data after it, and one of the stack above its guard.
const REGIONS: [Region; 4] = [
    Region {
        start: 0x2000_0000,
        end: 0x2010_0000,
        read: false,
        write: false,
        execute: false,
    },
    Region {
        start: 0x4000_0000,
        end: 0x4000_1000,
        read: true,
        write: false,
        execute: true,
    },
    Region {
        start: 0x4000_1000,
        end: 0x4000_2000,
        read: true,
        write: true,
        execute: false,
    },
    Region {
        start: 0x7000_0000,
        end: 0x7000_1000,
        read: true,
        write: true,
        execute: false,
    },
];

/// CF, ZF, SF and OF.
fn flags(carry: bool, zero: bool, sign: bool, overflow: bool) -> Flags {
    Flags {
        carry,
        zero,
        sign,
        overflow,
    }
}

/// Registers of ones alone, with an empty stack.
fn cpu() -> Cpu {
    let mut registers = [u64::MAX; 16];
    registers[4] = 0x7000_1000;
    Cpu {
        registers,
        rip: 0x4000_0000,
        flags: flags(false, false, false, false),
    }
}

/// A code of 32 bits.
fn code_of(number: u64) -> Code {
    Code((number % 0x1_0000_0000) as u32)
}

/// Puts the code of rows `PLACE | CODE` into the pages from 40000000h on.
fn put_code(rt: &impl Abort, table: &str, pages: &mut [u8]) {
    for row in table.lines().skip(1) {
        let from = number(rt, column(row, 0)) % 0x2000;
        if let Some(room) = pages.get_mut(from as usize..) {
            let _ = put_bytes(column(row, 1), room);
        }
    }
}

/// Memory with the code of a table.
fn with_code(rt: &impl Abort, alloc: Global, table: &str) -> PageMap {
    let mut pages = [0; 0x2000];
    put_code(rt, table, &mut pages);
    let mut space = PageMap::new(alloc, &REGIONS).expect(rt, "memory");
    space.fill(0x4000_0000, &pages);
    space
}

/// Memory of zeros.
fn space(rt: &impl Abort, alloc: Global) -> PageMap {
    with_code(rt, alloc, "")
}

fn violation(write: bool, address: u64) -> StepOutcome {
    StepOutcome::Fault {
        code: Code(0xC000_0005),
        access: Some((write, address)),
    }
}

/// What is in R9 after 99AABBCCDDEEFF00h was put there over 1122334455667788h, by the width.
const MERGES: &str = r"
8  | 1122334455667700
16 | 112233445566FF00
32 | 00000000DDEEFF00
64 | 99AABBCCDDEEFF00
";

/// Compares what a row's width makes of R9. R8 beside it stays.
fn merges_to(rt: &impl Abort, row: &str, width: Width, want: u64) {
    let (old, value) = (0x1122_3344_5566_7788, 0x99AA_BBCC_DDEE_FF00);
    let mut cpu = cpu();
    cpu.set_register(Width::W64, Reg::R9, old);
    cpu.set_register(width, Reg::R9, value);
    same(rt, merge(width, old, value), want, row);
    same(rt, cpu.register(Reg::R9), want, row);
    same(rt, cpu.register(Reg::R8), u64::MAX, row);
    same(rt, cpu.registers[9], want, row);
}

#[test]
fn merges(rt: HostRuntime) {
    for row in MERGES.lines().skip(1) {
        let width = width_of(&rt, column(row, 0));
        merges_to(&rt, row, width, number(&rt, column(row, 1)));
    }
}

/// The effect of the instruction that words spell, where RIP is that of the next one; none where
/// they spell no instruction, or more than one.
fn effect_of<S: AddressSpace>(
    rt: &impl Abort,
    cpu: Cpu,
    space: &mut S,
    words: &str,
) -> Option<Result<Cpu, Stop>> {
    let mut code = [0; LONGEST_INSTRUCTION];
    let count = put_bytes(words, &mut code);
    let (instr, len) = decode(&code)?;
    if len != count {
        return None;
    }
    let mut at = cpu;
    at.rip = cpu.rip.wrapping_sub(len as u64);
    Some(execute(at, space, &instr, len))
}

/// Compares the effect of the code in a row's first column.
fn has_effect<S: AddressSpace>(
    rt: &impl Abort,
    space: &mut S,
    row: &str,
    before: Cpu,
    want: Result<Cpu, Stop>,
) {
    let found = effect_of(rt, before, space, column(row, 0));
    same(rt, found, Some(want), row);
}
