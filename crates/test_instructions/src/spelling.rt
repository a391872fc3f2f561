//! Spellings as GNU as writes them, and others that are read and never chosen.
//!
//! A row is `BYTES | ASSEMBLY | INSTRUCTION`, the bytes in hexadecimal and the instruction as its
//! `Debug` shows it, where a number below 0 is shown modulo 2^64.

use crate::words::code_of;
use arrayvec::ArrayVec;
use seh_num::size::LONGEST_INSTRUCTION;
use std::alloc::Global;
use std::process::Abort;
use std::test::Fail;
use x64_encode::encodable::is_encodable;
use x64_encode::encoding::encode;
use x64_instr::decoding::decode;
use x64_instr::instruction::Instr;

/// What a row has: the bytes and the instruction.
fn columns_of(row: &str) -> Option<(&str, &str)> {
    let mut columns = row.split(" | ");
    let words = columns.next()?;
    let _assembly = columns.next()?;
    Some((words, columns.next()?))
}

/// Compares what the leading bytes spell.
fn reads(rt: &impl Abort, bytes: &[u8], want: Option<(Instr, usize)>, row: &str) {
    assert_eq!(rt; decode(bytes), want, "{row}");
}

/// The instruction that words spell, also with a byte after them, and that no part of them does.
fn read(rt: &impl Abort, words: &str, row: &str) -> Instr {
    let code = code_of(words);
    let Some((instr, count)) = decode(code.front(code.count())) else {
        panic!(rt; "no instruction: {row}")
    };
    assert_eq!(rt; count, code.count(), "{row}");
    for len in 0..count {
        reads(rt, code.front(len), None, row);
    }
    let mut more = code;
    more.push(0xC3);
    reads(rt, more.front(more.count()), Some((instr, count)), row);
    instr
}

/// Compares the chosen spelling of an instruction.
fn is_chosen(rt: &impl Abort, instr: &Instr, words: &str, row: &str) {
    let code = code_of(words);
    let mut into: ArrayVec<u8, LONGEST_INSTRUCTION> = ArrayVec::new();
    assert!(rt; is_encodable(instr));
    encode(instr, &mut into);
    assert_eq!(rt; into.as_slice(), code.front(code.count()), "{row}");
}

/// Compares what a row's bytes spell, and whether they are also the chosen spelling.
fn is_spelled(rt: &impl Abort, alloc: Global, row: &str, chosen: bool) -> Result<(), Fail> {
    let Some((words, want)) = columns_of(row) else {
        panic!(rt; "no row: {row}")
    };
    let instr = read(rt, words, row);
    if chosen {
        is_chosen(rt, &instr, words, row);
    }
    let found = format!(in alloc; "{instr:?}")?;
    assert_eq!(rt; found.as_str(), want, "{row}");
    Ok(())
}

/// The same of each row of a table.
fn all_are_spelled(
    rt: &impl Abort,
    alloc: Global,
    table: &str,
    are_chosen: bool,
) -> Result<(), Fail> {
    for row in table.lines().skip(1) {
        is_spelled(rt, alloc, row, are_chosen)?;
    }
    Ok(())
}

const MOVES: &str = r"
48 89 43 08 | mov qword ptr [rbx+8], rax | Move { width: W64, to: Memory(MemRef { base: Register(Rbx), index: None, displacement: 8 }), from: Register(Rax) }
48 89 5C 24 10 | mov qword ptr [rsp+16], rbx | Move { width: W64, to: Memory(MemRef { base: Register(Rsp), index: None, displacement: 16 }), from: Register(Rbx) }
4C 89 15 10 00 00 00 | mov qword ptr [rip+16], r10 | Move { width: W64, to: Memory(MemRef { base: Rip, index: None, displacement: 16 }), from: Register(R10) }
4D 89 A4 68 2C 01 00 00 | mov qword ptr [r8+rbp*2+300], r12 | Move { width: W64, to: Memory(MemRef { base: Register(R8), index: Some(Index { register: Rbp, scale: Two }), displacement: 300 }), from: Register(R12) }
4C 89 B4 35 00 00 00 80 | mov qword ptr [rbp+rsi*1-2147483648], r14 | Move { width: W64, to: Memory(MemRef { base: Register(Rbp), index: Some(Index { register: Rsi, scale: One }), displacement: 18446744071562067968 }), from: Register(R14) }
66 44 89 CA | mov dx, r9w | Move { width: W16, to: Register(Rdx), from: Register(R9) }
44 89 CA | mov edx, r9d | Move { width: W32, to: Register(Rdx), from: Register(R9) }
4C 89 CA | mov rdx, r9 | Move { width: W64, to: Register(Rdx), from: Register(R9) }
66 B8 34 12 | mov ax, 0x1234 | Move { width: W16, to: Register(Rax), from: Immediate(4660) }
48 BC 10 20 30 40 50 60 70 80 | movabs rsp, 0x8070605040302010 | Move { width: W64, to: Register(Rsp), from: Immediate(9255003132036915216) }
40 88 CB | {rex} mov bl, cl | Move { width: W8, to: Register(Rbx), from: Register(Rcx) }
44 8A 74 48 08 | mov r14b, byte ptr [rax+rcx*2+8] | Move { width: W8, to: Register(R14), from: Memory(MemRef { base: Register(Rax), index: Some(Index { register: Rcx, scale: Two }), displacement: 8 }) }
40 C6 42 01 80 | {rex} mov byte ptr [rdx+1], 128 | Move { width: W8, to: Memory(MemRef { base: Register(Rdx), index: None, displacement: 1 }), from: Immediate(128) }
48 C7 44 24 08 FF FF FF 7F | mov qword ptr [rsp+8], 0x7fffffff | Move { width: W64, to: Memory(MemRef { base: Register(Rsp), index: None, displacement: 8 }), from: Immediate(2147483647) }
40 0F B6 D6 | {rex} movzx edx, sil | Extend { extension: Zero, width: W32, to: Rdx, narrow: W8, from: Register(Rsi) }
48 0F B6 D6 | movzx rdx, sil | Extend { extension: Zero, width: W64, to: Rdx, narrow: W8, from: Register(Rsi) }
40 0F BE D6 | {rex} movsx edx, sil | Extend { extension: Sign, width: W32, to: Rdx, narrow: W8, from: Register(Rsi) }
48 0F BE D6 | movsx rdx, sil | Extend { extension: Sign, width: W64, to: Rdx, narrow: W8, from: Register(Rsi) }
8D 44 B3 40 | lea eax, [rbx+rsi*4+64] | LoadAddress { width: W32, to: Rax, from: MemRef { base: Register(Rbx), index: Some(Index { register: Rsi, scale: Four }), displacement: 64 } }
4C 8D 25 F0 FF FF FF | lea r12, [rip-16] | LoadAddress { width: W64, to: R12, from: MemRef { base: Rip, index: None, displacement: 18446744073709551600 } }
";

#[test]
fn moves(rt: HostRuntime) -> Result<(), Fail> {
    all_are_spelled(&rt, rt.alloc(), MOVES, true)
}

const OPERATIONS: &str = r"
40 00 D1 | {rex} add cl, dl | Arithmetic { operation: Add, width: W8, to: Register(Rcx), from: Register(Rdx) }
45 08 4A FE | {rex} or byte ptr [r10-2], r9b | Arithmetic { operation: Or, width: W8, to: Memory(MemRef { base: Register(R10), index: None, displacement: 18446744073709551614 }), from: Register(R9) }
40 20 C7 | {rex} and dil, al | Arithmetic { operation: And, width: W8, to: Register(Rdi), from: Register(Rax) }
40 28 3D 20 00 00 00 | {rex} sub byte ptr [rip+32], dil | Arithmetic { operation: Sub, width: W8, to: Memory(MemRef { base: Rip, index: None, displacement: 32 }), from: Register(Rdi) }
45 30 F5 | {rex} xor r13b, r14b | Arithmetic { operation: Xor, width: W8, to: Register(R13), from: Register(R14) }
31 E7 | xor edi, esp | Arithmetic { operation: Xor, width: W32, to: Register(Rdi), from: Register(Rsp) }
44 39 1D 20 00 00 00 | cmp dword ptr [rip+32], r11d | Arithmetic { operation: Compare, width: W32, to: Memory(MemRef { base: Rip, index: None, displacement: 32 }), from: Register(R11) }
40 02 5A 01 | {rex} add bl, byte ptr [rdx+1] | Arithmetic { operation: Add, width: W8, to: Register(Rbx), from: Memory(MemRef { base: Register(Rdx), index: None, displacement: 1 }) }
44 22 6C B3 40 | {rex} and r13b, byte ptr [rbx+rsi*4+64] | Arithmetic { operation: And, width: W8, to: Register(R13), from: Memory(MemRef { base: Register(Rbx), index: Some(Index { register: Rsi, scale: Four }), displacement: 64 }) }
40 32 7A 01 | {rex} xor dil, byte ptr [rdx+1] | Arithmetic { operation: Xor, width: W8, to: Register(Rdi), from: Memory(MemRef { base: Register(Rdx), index: None, displacement: 1 }) }
40 80 C2 7F | {rex} add dl, 127 | Arithmetic { operation: Add, width: W8, to: Register(Rdx), from: Immediate(127) }
49 83 CF FF | or r15, -1 | Arithmetic { operation: Or, width: W64, to: Register(R15), from: Immediate(18446744073709551615) }
40 80 2D 20 00 00 00 7F | {rex} sub byte ptr [rip+32], 127 | Arithmetic { operation: Sub, width: W8, to: Memory(MemRef { base: Rip, index: None, displacement: 32 }), from: Immediate(127) }
49 83 72 FE FF | xor qword ptr [r10-2], -1 | Arithmetic { operation: Xor, width: W64, to: Memory(MemRef { base: Register(R10), index: None, displacement: 18446744073709551614 }), from: Immediate(18446744073709551615) }
40 84 FB | {rex} test bl, dil | Test { width: W8, first: Register(Rbx), second: Register(Rdi) }
40 F6 42 01 80 | {rex} test byte ptr [rdx+1], 128 | Test { width: W8, first: Memory(MemRef { base: Register(Rdx), index: None, displacement: 1 }), second: Immediate(128) }
49 F7 C1 FE FF FF FF | test r9, -2 | Test { width: W64, first: Register(R9), second: Immediate(18446744073709551614) }
41 F6 D3 | {rex} not r11b | Unary { operation: Not, width: W8, to: Register(R11) }
40 F6 5A 01 | {rex} neg byte ptr [rdx+1] | Unary { operation: Negate, width: W8, to: Memory(MemRef { base: Register(Rdx), index: None, displacement: 1 }) }
";

#[test]
fn operations(rt: HostRuntime) -> Result<(), Fail> {
    all_are_spelled(&rt, rt.alloc(), OPERATIONS, true)
}

const OTHERS: &str = r"
44 0F AF CB | imul r9d, ebx | Multiply { width: W32, to: R9, from: Register(Rbx) }
49 63 C2 | movsxd rax, r10d | Extend { extension: Sign, width: W64, to: Rax, narrow: W32, from: Register(R10) }
54 | push rsp | Push(Rsp)
41 57 | push r15 | Push(R15)
41 FF D4 | call r12 | Call(Indirect(Register(R12)))
FF 54 24 08 | call qword ptr [rsp+8] | Call(Indirect(Memory(MemRef { base: Register(Rsp), index: None, displacement: 8 })))
F7 F3 | div ebx | Divide { division: Unsigned, width: W32, by: Register(Rbx) }
F7 FB | idiv ebx | Divide { division: Signed, width: W32, by: Register(Rbx) }
41 6B CA 80 | imul ecx, r10d, -128 | MultiplyBy { width: W32, to: Rcx, from: Register(R10), by: 4294967168 }
49 6B CA 80 | imul rcx, r10, -128 | MultiplyBy { width: W64, to: Rcx, from: Register(R10), by: 18446744073709551488 }
99 | cdq | ExtendRax { width: W32 }
C1 E3 1F | shl ebx, 31 | Shift { direction: Left, width: W32, to: Register(Rbx), by: Immediate(31) }
41 D3 62 FE | shl dword ptr [r10-2], cl | Shift { direction: Left, width: W32, to: Memory(MemRef { base: Register(R10), index: None, displacement: 18446744073709551614 }), by: Cl }
C1 6A 01 02 | shr dword ptr [rdx+1], 2 | Shift { direction: Right, width: W32, to: Memory(MemRef { base: Register(Rdx), index: None, displacement: 1 }), by: Immediate(2) }
C1 FB 1F | sar ebx, 31 | Shift { direction: ArithmeticRight, width: W32, to: Register(Rbx), by: Immediate(31) }
41 D3 7A FE | sar dword ptr [r10-2], cl | Shift { direction: ArithmeticRight, width: W32, to: Memory(MemRef { base: Register(R10), index: None, displacement: 18446744073709551614 }), by: Cl }
40 0F 90 C3 | {rex} seto bl | Set { condition: Overflow, to: Register(Rbx) }
41 0F 92 C5 | {rex} setb r13b | Set { condition: Below, to: Register(R13) }
40 0F 94 C7 | {rex} sete dil | Set { condition: Equal, to: Register(Rdi) }
40 0F 96 C1 | {rex} setbe cl | Set { condition: BelowOrEqual, to: Register(Rcx) }
41 0F 98 C3 | {rex} sets r11b | Set { condition: Sign, to: Register(R11) }
41 0F 99 42 FE | {rex} setns byte ptr [r10-2] | Set { condition: NotSign, to: Memory(MemRef { base: Register(R10), index: None, displacement: 18446744073709551614 }) }
40 0F 9D 05 20 00 00 00 | {rex} setge byte ptr [rip+32] | Set { condition: GreaterOrEqual, to: Memory(MemRef { base: Rip, index: None, displacement: 32 }) }
41 0F 9F 42 FE | {rex} setg byte ptr [r10-2] | Set { condition: Greater, to: Memory(MemRef { base: Register(R10), index: None, displacement: 18446744073709551614 }) }
E9 00 10 00 00 | {disp32} jmp .+5+4096 | Jump(Relative(4096))
FF E1 | jmp rcx | Jump(Indirect(Register(Rcx)))
CC | int3 | Breakpoint
";

#[test]
fn others(rt: HostRuntime) -> Result<(), Fail> {
    all_are_spelled(&rt, rt.alloc(), OTHERS, true)
}

/// Forms that the assembler has shorter ones for: C6 /0 with a register, C1 with 1 (Intel manual,
/// volume 2, MOV and SAL/SAR/SHL/SHR).
const MANUAL: &str = r"
40 C6 C1 7F | mov cl, 127 | Move { width: W8, to: Register(Rcx), from: Immediate(127) }
41 C6 C7 FF | mov r15b, 255 | Move { width: W8, to: Register(R15), from: Immediate(255) }
C1 E1 01 | shl ecx, 1 | Shift { direction: Left, width: W32, to: Register(Rcx), by: Immediate(1) }
81 C0 80 00 00 00 | add eax, 128 | Arithmetic { operation: Add, width: W32, to: Register(Rax), from: Immediate(128) }
F7 C0 01 00 00 00 | test eax, 1 | Test { width: W32, first: Register(Rax), second: Immediate(1) }
";

#[test]
fn forms_of_the_manual(rt: HostRuntime) -> Result<(), Fail> {
    all_are_spelled(&rt, rt.alloc(), MANUAL, true)
}

/// Spellings that are read and never chosen. In the first four rows 66 is beside REX.W, so that
/// the width is 64, or a REX says nothing.
const READ: &str = r"
66 48 89 C8 | mov rax, rcx | Move { width: W64, to: Register(Rax), from: Register(Rcx) }
66 48 BA 0A 00 00 00 00 00 00 00 | movabs rdx, 10 | Move { width: W64, to: Register(Rdx), from: Immediate(10) }
40 C3 | ret | Return
4F 50 | push r8 | Push(R8)
89 08 | mov dword ptr [rax], ecx | Move { width: W32, to: Memory(MemRef { base: Register(Rax), index: None, displacement: 0 }), from: Register(Rcx) }
43 89 0C 51 | mov dword ptr [r9+r10*2], ecx | Move { width: W32, to: Memory(MemRef { base: Register(R9), index: Some(Index { register: R10, scale: Two }), displacement: 0 }), from: Register(Rcx) }
88 CB | mov bl, cl | Move { width: W8, to: Register(Rbx), from: Register(Rcx) }
44 8A D5 | {load} mov r10b, bpl | Move { width: W8, to: Register(R10), from: Register(Rbp) }
22 CA | {load} and cl, dl | Arithmetic { operation: And, width: W8, to: Register(Rcx), from: Register(Rdx) }
84 DA | test dl, bl | Test { width: W8, first: Register(Rdx), second: Register(Rbx) }
0F 9F C2 | setg dl | Set { condition: Greater, to: Register(Rdx) }
73 FE | jae .+2-2 | JumpIf { condition: AboveOrEqual, displacement: 18446744073709551614 }
77 FE | ja .+2-2 | JumpIf { condition: Above, displacement: 18446744073709551614 }
7D FE | jge .+2-2 | JumpIf { condition: GreaterOrEqual, displacement: 18446744073709551614 }
EB FE | jmp . | Jump(Relative(18446744073709551614))
48 CC | rex.w int3 | Breakpoint
";

#[test]
fn read_and_not_chosen(rt: HostRuntime) -> Result<(), Fail> {
    all_are_spelled(&rt, rt.alloc(), READ, false)
}
