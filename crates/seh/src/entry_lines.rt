//! The text of the verdicts on the entries of a function table, one by one.

ghost use Rattle.std.specs.Prelude.{◌≡◌, ◌≤◌, IfOk, length};
ghost use Rattle.seh.specs.EntryChecks.{entry_text, entry_line, kept_count, count_line, entries_text};

use crate::verdict::{RVA_DIGITS, verdict_text};
use seh_io::line::Line;
use std::alloc::{AllocError, Global};
use unwind_check::{EntryVerdict, Verdict};

/// The text of the verdict on the entry of an index.
fn entry_text(index: u64, verdict: &EntryVerdict) -> Line
    ensures value { result ≡ entry_text index verdict.now.begin verdict.now.fault }
    ensures len { length result ≤ 63 }
{
    match verdict.fault {
        None => {
            let mut line = Line::new();
            line.text(b"yes ");
            line.natural(index);
            line.text(b" ");
            line.hexadecimal(RVA_DIGITS, verdict.begin);
            line
        }
        Some(fault) => verdict_text(&Verdict::No { index, fault }),
    }
}

/// The line of the verdict on the entry of an index: `yes` with the address of the entry's first
/// byte relative to the image base, in 8 digits of base 16; or `no` with the first boundary at
/// which a rule fails, and the rule's name.
fn entry_line(index: u64, verdict: &EntryVerdict) -> Line
    ensures { result ≡ entry_line index verdict.now }
{
    let mut line = entry_text(index, verdict);
    line.end();
    line
}

/// The last line: how many entries are without a fault, and how many there are.
fn count_line(kept: u64, all: u64) -> Line
    ensures { result ≡ count_line kept all }
{
    let mut line = Line::new();
    line.text(b"yes ");
    line.natural(kept);
    line.text(b" of ");
    line.natural(all);
    line.end();
    line
}

/// How many entries are without a fault.
pub fn kept_count(verdicts: &[EntryVerdict]) -> u64
    ensures { result ≡ kept_count verdicts.now }
{
    verdicts.iter().filter(|v| v.fault.is_none()).count() as u64
}

/// A line for each entry, in the table's order, and the last line. Refused for want of memory
/// alone.
pub fn entries_text(alloc: Global, verdicts: &[EntryVerdict]) -> Result<Vec<u8>, AllocError>
    ensures { IfOk result (λ t. t.items ≡ entries_text verdicts.now) }
{
    let mut text = Vec::new(alloc);
    for (index, verdict) in verdicts.iter().enumerate() {
        let line = entry_line(index as u64, verdict);
        text.extend_from_slice(line.as_bytes())?;
    }
    let last = count_line(kept_count(verdicts), verdicts.len() as u64);
    text.extend_from_slice(last.as_bytes())?;
    Ok(text)
}
