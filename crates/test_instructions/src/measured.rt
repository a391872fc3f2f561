//! What is measured of instructions as assemblers spell them, how the flow goes on after them, and
//! what isn't measured.

use crate::words::code_of;
use crate::{assembled_1, assembled_2};
use std::alloc::Global;
use std::process::Abort;
use std::test::Fail;
use test_tables::words::number_of;
use x64_lengths::measure::{Measured, measure};

/// What an instruction writes, as sets.
#[derive(Clone, Copy)]
struct Written {
    general: u64,
    vectors: u64,
    /// Whether more may be named.
    more: bool,
}

impl Written {
    /// What words say.
    fn of(words: &str) -> Option<Written> {
        let mut words = words.split(' ');
        let general = number_of(words.next()?)?;
        let vectors = number_of(words.next()?)?;
        let more = words.next().is_some();
        Some(Written {
            general,
            vectors,
            more,
        })
    }

    /// Whether that is named.
    fn is_named(&self, measured: &Measured) -> bool {
        let general = u64::from(measured.effects.general);
        let vectors = u64::from(measured.effects.vectors);
        if self.more {
            general & self.general == self.general && vectors & self.vectors == self.vectors
        } else {
            general == self.general && vectors == self.vectors
        }
    }
}

/// What is measured of the instruction that words spell, with a byte after it.
fn measured_of(rt: &impl Abort, words: &str, row: &str) -> Measured {
    let code = code_of(words);
    let mut more = code;
    more.push(0xC3);
    let Some(measured) = measure(more.front(more.count())) else {
        panic!(rt; "no instruction: {row}")
    };
    assert_eq!(rt; measured.length, code.count(), "{row}");
    measured
}

/// Compares length and registers of a row.
fn is_measured(rt: &impl Abort, row: &str) {
    let mut columns = row.split(" / ");
    let (Some(words), Some(sets)) = (columns.next(), columns.next()) else {
        panic!(rt; "no row: {row}")
    };
    let Some(written) = Written::of(sets) else {
        panic!(rt; "no row: {row}")
    };
    assert!(rt; written.is_named(&measured_of(rt, words, row)), "{row}");
}

/// The same of each row of a table.
fn all_are_measured(rt: &impl Abort, table: &str) {
    for line in table.lines().skip(1) {
        for row in line.split(" | ") {
            is_measured(rt, row);
        }
    }
}

#[test]
fn assembled_instructions(rt: HostRuntime) {
    all_are_measured(&rt, assembled_1::TABLE);
    all_are_measured(&rt, assembled_2::TABLE);
}

/// How the flow goes on, with displacements from the next instruction (Intel manual, volume 2, each
/// instruction's page). INT 29h is Windows' fast fail.
const FLOWS: &str = r"
70 FE | jo . | Conditional(18446744073709551614)
7F 7F | jg .+129 | Conditional(127)
0F 84 10 00 00 00 | je .+22 | Conditional(16)
0F 8F FA FF FF FF | jg . | Conditional(18446744073709551610)
E0 05 | loopne .+7 | Conditional(5)
E1 80 | loope .-126 | Conditional(18446744073709551488)
E2 05 | loop .+7 | Conditional(5)
E3 05 | jrcxz .+7 | Conditional(5)
EB FE | jmp . | Jump(18446744073709551614)
E9 00 10 00 00 | jmp .+4101 | Jump(4096)
48 E9 00 00 00 80 | rex.w jmp | Jump(18446744071562067968)
E8 05 00 00 00 | call .+10 | Call(5)
E8 00 FF FF FF | call .-251 | Call(18446744073709551360)
C3 | ret | Return
F3 C3 | rep ret | Return
F2 C3 | bnd ret | Return
C2 08 00 | ret 8 | Return
CB | retf | Return
48 CF | iretq | Return
FF E0 | jmp rax | JumpIndirect
48 FF 24 C8 | rex.w jmp [rax+rcx*8] | JumpIndirect
FF 25 10 00 00 00 | jmp [rip+16] | JumpIndirect
FF 28 | jmp far [rax] | JumpIndirect
41 FF D4 | call r12 | CallIndirect
FF 15 10 00 00 00 | call [rip+16] | CallIndirect
FF 18 | call far [rax] | CallIndirect
0F 0B | ud2 | Stops
F4 | hlt | Stops
CD 29 | int 0x29 | Stops
CD 2C | int 0x2c | Next
CC | int3 | Next
0F 1F 44 00 00 | nop | Next
FF C0 | inc eax | Next
FF 30 | push [rax] | Next
0F 05 | syscall | Next
";

#[test]
fn flows(rt: HostRuntime) -> Result<(), Fail> {
    for row in FLOWS.lines().skip(1) {
        goes_on(&rt, rt.alloc(), row)?;
    }
    Ok(())
}

/// Compares how the flow goes on after a row's instruction.
fn goes_on(rt: &impl Abort, alloc: Global, row: &str) -> Result<(), Fail> {
    let mut columns = row.split(" | ");
    let (Some(words), Some(_), Some(flow)) = (columns.next(), columns.next(), columns.next()) else {
        panic!(rt; "no row: {row}")
    };
    let found = measured_of(rt, words, row).effects.flow;
    let found = format!(in alloc; "{found:?}")?;
    assert_eq!(rt; found.as_str(), flow, "{row}");
    Ok(())
}

/// What isn't measured: no instruction in 64-bit mode, a prefix that isn't allowed, a form that
/// isn't there, or one of those that docs/DECISIONS.md names. A byte follows each.
const REFUSED: &str = r"
06 | push es, in 32-bit mode alone
60 | pusha
82 C0 01 | 80 in 32-bit mode
9A 00 00 00 00 00 00 | call far
D4 0A | aam
EA 00 00 00 00 00 00 | jmp far
8F C8 | no /1
C6 C8 01 | no /1
F6 C8 01 | no /1
FE D0 | no /2
FF F8 | no /7
FF D8 | call far of a register
0F C7 C8 | cmpxchg8b of a register
8D C0 | lea of a register
0F 04 | no such opcode
0F 0F C0 9E | 3DNow!
0F A6 C0 | VIA
0F B9 C0 | ud1
0F FF C0 | ud0
0F 71 C0 01 | no /0
F3 0F 54 C1 | andps with F3
0F 38 10 C1 | pblendvb without 66
66 E8 00 00 00 00 | call with 66
66 E9 00 00 00 00 | jmp with 66
66 EB 00 | jmp with 66
66 0F 84 00 00 00 00 | je with 66
66 74 00 | je with 66
F0 90 | lock nop
F0 01 C0 | lock of a register
66 C5 F8 58 C1 | VEX after 66
F3 C5 F8 58 C1 | VEX after F3
48 C5 F8 58 C1 | VEX after REX
F0 C5 F8 58 00 | VEX after F0
C4 E4 78 58 C1 | VEX, map 4
62 F1 78 48 58 C1 | EVEX with a bit that has to be 1
62 F5 7C 48 58 C1 | vaddph: EVEX map 5
62 F6 7D 48 98 C1 | vfmadd132ph: EVEX map 6
62 F4 7C 18 01 C1 | add of APX: EVEX map 4
D5 08 01 C0 | REX2 of APX
C4 E2 78 49 00 | ldtilecfg of AMX
";

#[test]
fn refused(rt: HostRuntime) {
    for row in REFUSED.lines().skip(1) {
        let mut more = code_of(row);
        more.push(0xC3);
        assert!(rt; measure(more.front(more.count())).is_none(), "{row}");
    }
}

#[test]
fn longest(rt: HostRuntime) {
    let mut bytes = [0x2E; 16];
    bytes[14] = 0x90;
    assert!(rt; measure(&bytes).is_some_and(|measured| measured.length == 15));
    bytes[14] = 0x2E;
    bytes[15] = 0x90;
    assert!(rt; measure(&bytes).is_none());
    assert!(rt; measure(&[]).is_none());
}
