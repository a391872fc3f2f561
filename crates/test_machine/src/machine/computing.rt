//! What instructions make of registers and flags.
//!
//! A row of the first three tables is
//!
//!     CODE | INSTRUCTION | RAX RCX FLAGS | RAX FLAGS
//!
//! with what is there before, and after. All are in hexadecimal, but FLAGS are the letters of
//! those that are set, or `-`.

use super::*;

const BITS_AND_FLAGS: &str = r"
21 C8    | and eax, ecx  | FFFFFFFF0000F0F0 FF000FF0 CO         | F0 -
48 21 C8 | and rax, rcx  | 8000000000000001 8000000000000000 CO | 8000000000000000 S
09 C8    | or eax, ecx   | 0 0 CSO                              | 0 Z
31 C8    | xor eax, ecx  | 80000001 1 CZO                       | 80000000 S
39 C8    | cmp eax, ecx  | FFFFFFFF00000001 2 -                 | FFFFFFFF00000001 CS
39 C8    | cmp eax, ecx  | 80000000 1 CZ                        | 80000000 O
85 C8    | test eax, ecx | FFFFFFFF000000F0 F CSO               | FFFFFFFF000000F0 Z
84 C8    | test al, cl   | 80 FF80 C                            | 80 S
00 C8    | add al, cl    | 123456FF 1 -                         | 12345600 CZ
00 C8    | add al, cl    | 7F 1 -                               | 80 SO
66 29 C8 | sub ax, cx    | 10000 1 -                            | 1FFFF CS
F7 D8    | neg eax       | 0 0 CSO                              | 0 Z
F7 D8    | neg eax       | FFFFFFFF00000001 0 -                 | FFFFFFFF CS
F7 D8    | neg eax       | 80000000 0 -                         | 80000000 CSO
F6 D8    | neg al        | 180 0 -                              | 180 CSO
F7 D0    | not eax       | FFFFFFFF000000FF 0 CZO               | FFFFFF00 CZO
";

/// CF: the last bit out. OF: for a count of 1 alone. A count of 0 leaves the flags.
const SHIFTS: &str = r"
C1 E0 01    | shl eax, 1                | 40000000 0 CZ          | 80000000 SO
C1 E0 01    | shl eax, 1                | C0000000 0 O           | 80000000 CS
C1 E0 04    | shl eax, 4                | 10000001 0 SO          | 10 CO
C1 E0 20    | shl eax, 32               | FFFFFFFF00000001 0 CZS | 1 CZS
48 C1 E0 3F | shl rax, 63               | 3 0 O                  | 8000000000000000 CSO
C1 E8 01    | shr eax, 1                | 80000001 0 -           | 40000000 CO
C1 E8 1F    | shr eax, 31               | 80000000 0 C           | 1 -
48 C1 E8 01 | shr rax, 1                | 1 0 O                  | 0 CZ
C1 F8 01    | sar eax, 1                | 80000001 0 O           | C0000000 CS
C1 F8 04    | sar eax, 4                | 70000008 0 O           | 7000000 CO
48 C1 F8 3F | sar rax, 63               | 8000000000000000 0 C   | FFFFFFFFFFFFFFFF S
D3 E0       | shl eax, cl: 33 modulo 32 | 1 121 CZSO             | 2 -
48 D3 F8    | sar rax, cl: 64 modulo 64 | 8000000000000000 40 C  | 8000000000000000 C
";

/// CF and OF of a product: it doesn't fit. The others leave the flags.
const OTHERS: &str = r"
6B C1 03             | imul eax, ecx, 3          | 0 55555555 ZS               | FFFFFFFF CZSO
6B C1 FF             | imul eax, ecx, -1         | 0 5 CO                      | FFFFFFFB -
48 69 C1 00 00 00 80 | imul rax, rcx, -80000000h | 0 2 CZO                     | FFFFFFFF00000000 Z
0F B6 C1             | movzx eax, cl             | FFFFFFFFFFFFFFFF 12345680 C | 80 C
48 0F B7 C1          | movzx rax, cx             | FFFFFFFFFFFFFFFF 87658000 C | 8000 C
0F BE C1             | movsx eax, cl             | 0 80 C                      | FFFFFF80 C
48 0F BF C1          | movsx rax, cx             | 0 8000 C                    | FFFFFFFFFFFF8000 C
8D 44 88 08          | lea eax, [rax+rcx*4+8]    | FFFFFFFFFFFFFFF0 2 CZSO     | 0 CZSO
48 8D 44 C8 FF       | lea rax, [rax+rcx*8-1]    | 10 3 -                      | 27 -
C6 C0 80             | mov al, 80h               | 1111 0 Z                    | 1180 Z
48 C7 C0 FE FF FF FF | mov rax, -2               | 0 0 -                       | FFFFFFFFFFFFFFFE -
0F 94 C0             | sete al                   | FFFF 0 Z                    | FF01 Z
0F 9C C0             | setl al                   | FFFF 0 SO                   | FF00 SO
90                   | nop                       | 7 0 CZSO                    | 7 CZSO
";

/// DIV and IDIV of RDX and RAX by RCX: `CODE | INSTRUCTION | RDX RAX RCX | RAX RDX`, or in place of
/// RAX RDX the code of the fault.
const DIVISIONS: &str = r"
F7 F1    | div ecx  | AAAAAAAA00000001 BBBBBBBB00000005 2                | 80000002 1
F7 F1    | div ecx  | 2 0 2                                              | C0000095
F7 F1    | div ecx  | 5 7 0                                              | C0000094
48 F7 F1 | div rcx  | 1 0 2                                              | 8000000000000000 0
48 F7 F1 | div rcx  | 2 0 2                                              | C0000095
F7 F9    | idiv ecx | FFFFFFFF FFFFFFF9 2                                | FFFFFFFD FFFFFFFF
F7 F9    | idiv ecx | 0 7 FFFFFFFE                                       | FFFFFFFD 1
F7 F9    | idiv ecx | FFFFFFFF 80000000 FFFFFFFF                         | C0000095
F7 F9    | idiv ecx | FFFFFFFF 80000000 1                                | 80000000 0
48 F7 F9 | idiv rcx | FFFFFFFFFFFFFFFF 8000000000000000 FFFFFFFFFFFFFFFF | C0000095
48 F7 F9 | idiv rcx | 8000000000000000 0 FFFFFFFFFFFFFFFF                | C0000095
48 F7 F9 | idiv rcx | FFFFFFFFFFFFFFFF FFFFFFFFFFFFFFFF 2                | 0 FFFFFFFFFFFFFFFF
48 F7 F9 | idiv rcx | 0 1 0                                              | C0000094
";

/// The flags that letters name.
fn flags_named(letters: &str) -> Flags {
    let mut named = flags(false, false, false, false);
    for letter in letters.bytes() {
        match letter {
            b'C' => named.carry = true,
            b'Z' => named.zero = true,
            b'S' => named.sign = true,
            b'O' => named.overflow = true,
            _ => (),
        }
    }
    named
}

/// The states before and after that a row has.
fn states_of(rt: &impl Abort, row: &str) -> (Cpu, Cpu) {
    let words = column(row, 2);
    let answer = column(row, 3);
    let mut before = cpu();
    before.registers[0] = number_at(rt, words, 0);
    before.registers[1] = number_at(rt, words, 1);
    before.flags = flags_named(word(words, 2));
    let mut after = before;
    after.registers[0] = number_at(rt, answer, 0);
    after.flags = flags_named(word(answer, 1));
    (before, after)
}

/// The state before a division.
fn dividend_of(rt: &impl Abort, words: &str) -> Cpu {
    let mut before = cpu();
    before.registers[2] = number_at(rt, words, 0);
    before.registers[0] = number_at(rt, words, 1);
    before.registers[1] = number_at(rt, words, 2);
    before
}

/// What a division comes to.
fn quotient_of(rt: &impl Abort, before: Cpu, answer: &str) -> Result<Cpu, Stop> {
    let first = number_at(rt, answer, 0);
    match word_if(answer, 1) {
        None => Err(Stop::Fault {
            code: code_of(first),
            access: None,
        }),
        Some(remainder) => {
            let mut after = before;
            after.registers[0] = first;
            after.registers[2] = number(rt, remainder);
            Ok(after)
        }
    }
}

/// Compares the effects of the rows of a table.
fn all_have_effects<S: AddressSpace>(rt: &impl Abort, space: &mut S, table: &str) {
    for row in table.lines().skip(1) {
        let (before, after) = states_of(rt, row);
        has_effect(rt, space, row, before, Ok(after));
    }
}

/// Compares what the rows of a table divide.
fn all_divide<S: AddressSpace>(rt: &impl Abort, space: &mut S, table: &str) {
    for row in table.lines().skip(1) {
        let before = dividend_of(rt, column(row, 2));
        let want = quotient_of(rt, before, column(row, 3));
        has_effect(rt, space, row, before, want);
    }
}

#[test]
fn registers_and_flags(rt: HostRuntime) {
    let mut space = space(&rt, rt.alloc());
    for table in [BITS_AND_FLAGS, SHIFTS, OTHERS] {
        all_have_effects(&rt, &mut space, table);
    }
    all_divide(&rt, &mut space, DIVISIONS);
}
