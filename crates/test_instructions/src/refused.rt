//! What no row of the opcode table spells.

use crate::words::code_of;
use x64_instr::decoding::decode;

/// How many bytes are one spelling as a whole.
fn ones() -> u32 {
    let mut count = 0u32;
    for first in 0..=255 {
        if decode(&[first]).is_some() {
            count = count.saturating_add(1);
        }
    }
    count
}

/// Of how many pairs of bytes the same holds, where the first is this one.
fn twos_after(first: u8) -> u32 {
    let mut count = 0u32;
    for second in 0..=255 {
        if matches!(decode(&[first, second]), Some((_, 2))) {
            count = count.saturating_add(1);
        }
    }
    count
}

#[test]
fn counts(rt: HostRuntime) {
    let mut twos = 0u32;
    for first in 0..=255 {
        twos = twos.saturating_add(twos_after(first));
    }
    // 50+r and 58+r; 90, 99, C3 and CC.
    assert_eq!(rt; ones(), 8 + 8 + 4);
    // With REX: those, and 90 where B is 0. 0F 0B. A byte after 14 conditions and EB.
    let others = 16 * 19 + 8 + 1 + 14 * 256 + 256;
    // 15 opcodes of words with 64 pairs of registers, and 8 registers with the 6 places of memory
    // that are a register alone; LEA with these places; F7, D3 and FF by their digits.
    let words = 15 * (64 + 8 * 6) + 8 * 6 + (4 + 3 + 2) * (8 + 6);
    // 15 opcodes of bytes and two digits of F6, with the registers 0 to 3 alone.
    let bytes = 15 * (16 + 4 * 6) + 2 * (4 + 6);
    assert_eq!(rt; twos, others + words + bytes);
}

/// Prefixes that a row doesn't have or that are in another order; in the last two, MOVSXD without
/// REX.W, and 90 with REX.B.
const PREFIXES: &str = r"
66 50
66 41 58
66 C3
66 90
66 99
66 FF D0
66 0F AF C8
66 0F B6 C1
66 48 63 C8
66 C1 E0 04
66 F7 F1
66 48 F7 F9
66 66 89 C8
48 66 89 C8
48 48 89 C8
F3 C3
F0 01 08
67 8B 01
41 63 C8
41 90
";

/// AH, CH, DH and BH, and digits and rows that aren't there; then ADC, ADD of AL, MOV of 8 bits in
/// the opcode, and LEA of a register; and the conditions on PF.
const ROWS: &str = r"
88 E0
02 C7
F6 DC
0F B6 C5
0F 94 C6
83 D0 01
80 D8 01
C6 C8 01
F6 F1
F7 E1
C1 F0 01
D3 C0
FF C0
FF D8
11 C8
04 01
B0 01
8D C0
7A 00
0F 8B 00 00 00 00
0F 9A C0
";

// No leading bytes of them are a spelling.
#[test]
fn no_row_spells_them(rt: HostRuntime) {
    for table in [PREFIXES, ROWS] {
        for words in table.lines().skip(1) {
            let code = code_of(words);
            assert_eq!(rt; code.count(), words.split(' ').count(), "{words}");
            assert!(rt; decode(code.front(code.count())).is_none(), "{words}");
        }
    }
}
