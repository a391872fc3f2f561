//! Numbers and widths of rows, and comparisons with them.

use seh_num::width::Width;
use std::alloc::Global;
use std::fmt::Debug;
use std::process::Abort;
use test_tables::rows::word;
use test_tables::words::number_of;

/// A number in hexadecimal.
pub fn number(rt: &impl Abort, word: &str) -> u64 {
    match number_of(word) {
        Some(value) => value,
        None => panic!(rt; "no number: {word}"),
    }
}

/// The number that the word after so many others is.
pub fn number_at(rt: &impl Abort, text: &str, index: usize) -> u64 {
    number(rt, word(text, index))
}

/// The width of so many bits.
pub fn width_of(rt: &impl Abort, word: &str) -> Width {
    match word {
        "8" => Width::W8,
        "16" => Width::W16,
        "32" => Width::W32,
        "64" => Width::W64,
        _ => panic!(rt; "no width: {word}"),
    }
}

/// Compares two values, of a row or of what a note says.
pub fn same<T: Copy + PartialEq + Debug>(rt: &impl Abort, found: T, want: T, note: &str) {
    assert_eq!(rt; found, want, "{note}");
}

/// Compares what `Debug` shows of a value.
pub fn shows<T: Debug>(rt: &impl Abort, alloc: Global, value: &T, want: &str, row: &str) {
    let found = format!(in alloc; "{value:?}").expect(rt, "memory");
    assert_eq!(rt; found.as_str(), want, "{row}");
}
