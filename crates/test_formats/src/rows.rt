//! Readers of tables. A table of rows is one text, and each line after the first is a row, of
//! columns between bars; numbers are in hexadecimal.
//!
//! Where no memory is left a reader ends the test, so that those who call it have one end, at which
//! what they hold is dropped once.

use std::alloc::Global;
use std::process::Abort;
use test_tables::rows::columns_of;
use test_tables::tables::put;
use test_tables::words::number_of;

fn digit(rt: &impl Abort, byte: u8) -> u8 {
    match byte {
        b'0'..=b'9' => byte - b'0',
        b'A'..=b'F' => byte - b'A' + 10,
        _ => panic!(rt; "no digit: {byte}"),
    }
}

/// A number in hexadecimal.
pub fn number(rt: &impl Abort, word: &str) -> u64 {
    match number_of(word) {
        Some(value) => value,
        None => panic!(rt; "no number: {word}"),
    }
}

/// Appends the bytes that pairs of digits spell.
pub fn push_bytes(rt: &impl Abort, out: &mut Vec<u8>, digits: &str) {
    let mut high = None;
    for byte in digits.bytes() {
        if byte != b' ' {
            let low = digit(rt, byte);
            match high {
                None => high = Some(low),
                Some(first) => {
                    let value = first.wrapping_mul(16).wrapping_add(low);
                    out.push(value).expect(rt, "memory");
                    high = None;
                }
            }
        }
    }
}

/// The bytes that pairs of digits spell, or those of a text between quotes.
pub fn bytes_of(rt: &impl Abort, alloc: Global, column: &str) -> Vec<u8> {
    let mut bytes = Vec::new(alloc);
    match column.strip_prefix('\'') {
        None => push_bytes(rt, &mut bytes, column),
        Some(text) => {
            let text = text.strip_suffix('\'').unwrap_or(text);
            bytes
                .extend_from_slice(text.as_bytes())
                .expect(rt, "memory");
        }
    }
    bytes
}

/// A place in the file of an image: an offset, or `NAME+OFFSET` from a header, the directories, the
/// section table, or the raw data of `.rdata`.
pub fn place_of(rt: &impl Abort, column: &str) -> usize {
    let (name, offset) = column.split_once('+').unwrap_or((column, "0"));
    let start = match name {
        "signature" => 0x40,
        "optional" => 0x58,
        "directories" => 0xC8,
        "table" => 0x148,
        "rdata" => 0x800,
        _ => number(rt, name),
    };
    (start.wrapping_add(number(rt, offset)) % 65536) as usize
}

/// Puts the bytes of a column at the place that another one names.
pub fn put_at(rt: &impl Abort, alloc: Global, out: &mut Vec<u8>, place: &str, bytes: &str) {
    let field = bytes_of(rt, alloc, bytes);
    put(out, place_of(rt, place), &field);
}

/// Puts the fields of a table, `PLACE | BYTES | NOTE`, at their places.
pub fn put_fields(rt: &impl Abort, alloc: Global, out: &mut Vec<u8>, table: &str) {
    for row in table.lines().skip(1) {
        let columns = columns_of(row);
        put_at(rt, alloc, out, columns[0], columns[1]);
    }
}
