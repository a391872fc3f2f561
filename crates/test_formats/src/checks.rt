//! Checkers, each of which compares what is found with the text of a row. An assertion that prints
//! what it compares is proved anew wherever it stands, so that each kind stands once here.

use crate::rows::{bytes_of, number};
use pe_image::Imports;
use std::alloc::Global;
use std::fmt::Debug;
use std::process::Abort;
use test_tables::rows::columns_of;

/// Compares texts.
pub fn is_text(rt: &impl Abort, found: &str, wanted: &str, row: &str) {
    assert_eq!(rt; found, wanted, "{row}");
}

/// Compares a value, as `{:?}` prints it, with a text; its numbers are in decimal.
pub fn shows<T: Debug>(rt: &impl Abort, alloc: Global, found: &T, wanted: &str, row: &str) {
    let text = format!(in alloc; "{found:?}").expect(rt, "memory");
    is_text(rt, text.as_str(), wanted, row);
}

/// Compares a refusal, as `{:?}` prints it, with a text, which is `-` where there is none.
pub fn is_refused<E: Debug>(
    rt: &impl Abort,
    alloc: Global,
    found: &Option<E>,
    wanted: &str,
    row: &str,
) {
    match found {
        None => is_text(rt, "-", wanted, row),
        Some(refusal) => shows(rt, alloc, refusal, wanted, row),
    }
}

/// Compares numbers with all words of a row.
pub fn are(rt: &impl Abort, found: &[u64], row: &str) {
    let mut words = row.split_ascii_whitespace();
    for &value in found {
        let wanted = number(rt, words.next().unwrap_or("no number"));
        assert_eq!(rt; value, wanted, "{row}");
    }
    is_text(rt, words.next().unwrap_or(""), "", row);
}

/// Compares bytes.
pub fn are_same(rt: &impl Abort, found: &[u8], wanted: &[u8], row: &str) {
    assert_eq!(rt; found, wanted, "{row}");
}

/// Compares bytes with those that pairs of digits spell.
pub fn are_bytes(rt: &impl Abort, alloc: Global, found: &[u8], digits: &str) {
    let wanted = bytes_of(rt, alloc, digits);
    are_same(rt, found, &wanted, digits);
}

/// Compares imports with a table, `NAME | 1 SLOT`, whose slots are relative to a base. The 1 says
/// that the name is that one.
pub fn are_imports(rt: &impl Abort, found: Imports<'_, '_>, base: u64, table: &str) {
    let mut rows = table.lines().skip(1);
    for import in found {
        let columns = columns_of(rows.next().unwrap_or("no row"));
        let is_named = import.name() == columns[0].as_bytes();
        are(
            rt,
            &[is_named as u64, import.slot().wrapping_sub(base)],
            columns[1],
        );
    }
    is_text(rt, rows.next().unwrap_or(""), "", table);
}
