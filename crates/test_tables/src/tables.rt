//! Images of two sections, unwind infos and a function table, whose bytes are given.

use crate::words::number_of;
use std::alloc::{AllocError, Global};

/// Overwrites bytes from a place on.
pub fn put(out: &mut Vec<u8>, at: usize, bytes: &[u8]) {
    for (i, byte) in bytes.iter().enumerate() {
        if let Some(place) = out.get_mut(at.saturating_add(i)) {
            *place = *byte;
        }
    }
}

/// Overwrites the bytes from a row's first word, a place, on with those that its other words spell.
fn put_row(out: &mut Vec<u8>, row: &str) {
    let mut words = row.split_ascii_whitespace();
    let place = match words.next() {
        Some(word) => number_of(word).unwrap_or(0),
        None => return,
    };
    let mut at = place as usize;
    for word in words {
        match number_of(word) {
            Some(byte) if byte < 256 => put(out, at, &[byte as u8]),
            _ => return,
        }
        at = at.saturating_add(1);
    }
}

/// The same of each row of a table. A table is one text; each line after its first is a row.
pub(crate) fn put_rows(out: &mut Vec<u8>, table: &str) {
    for row in table.lines().skip(1) {
        put_row(out, row);
    }
}

/// The headers of [`table_image`], and what its first section has from 0x3600 on: jumps, and the
/// import of the C handler, whose name is at 0x3662.
const HEADERS_AND_IMPORT: &str = r"
0 4D 5A                              | MZ
3C 40                                | e_lfanew
40 50 45 0 0 64 86 2                 | PE, Machine, NumberOfSections
54 F0 0 23 0 B 2                     | SizeOfOptionalHeader, Characteristics, Magic
70 0 0 0 40 1                        | ImageBase
90 0 50                              | SizeOfImage
C4 10                                | NumberOfRvaAndSizes
D0 10 36 0 0 28                      | the directory of imports
E0 0 40 0 0                          | the function table's address
150 0 8 0 0 0 30 0 0 0 8 0 0 0 4     | a section at 0x3000, of 0x800 bytes from 0x400 on
178 0 8 0 0 0 40 0 0 0 8 0 0 0 C     | one at 0x4000, from 0xC00 on
A00 FF 25 4A 0 0 0 CC CC             | jmp [0x3650]
A08 48 FF 25 41                      | the same with a prefix
A10 40 36                            | the lookup table's address
A1C 80 36 0 0 50 36                  | the library's name and the slots
A40 60 36                            | the name's address
";

/// An image of two sections: at 0x3000 unwind infos, and at 0x4000 the function table. The C
/// handler is imported to a slot at 0x3650; jumps through it are at 0x3600 and, with a prefix, at
/// 0x3608.
pub fn table_image(alloc: Global, infos: &[u8], entries: &[u8]) -> Result<Vec<u8>, AllocError> {
    let mut out = vec![in alloc; 0; 0x1400]?;
    put_rows(&mut out, HEADERS_AND_IMPORT);
    put(&mut out, 0xA62, b"__C_specific_handler");
    put(&mut out, 0xE4, &(entries.len() % 65536).to_le_bytes());
    put(&mut out, 0x400, infos);
    put(&mut out, 0xC00, entries);
    Ok(out)
}

/// The function from 0x2000 to 0x2020 with the info at 0x3000.
pub const ENTRY: [u8; 12] = [0, 0x20, 0, 0, 0x20, 0x20, 0, 0, 0, 0x30, 0, 0];
