//! Codes: each code is at the end of an instruction of the prologue, and no two are at one
//! (Microsoft x64 ABI, "Unwind operation code").

ghost use Rattle.std.specs.Prelude.{◌≡◌, ◌<◌, ◌^◌, IfOk};
ghost use Rattle.frame_rules.specs.Body as bodies;
ghost use Rattle.frame_rules.specs.Prologue.{bytes};
ghost use Rattle.unwind_check.specs.Codes as spec;

use eh_tables::UnwindCode;
use std::alloc::{AllocError, Global};
use unwind_tails::fetched::FetchedInstr;

/// Where each instruction of a prologue ends, from the prologue's first byte. Refused for want of
/// memory alone.
pub fn ends(alloc: Global, items: &[FetchedInstr]) -> Result<Vec<u64>, AllocError>
    requires { bytes items.now < 2 ^ 63 }
    ensures { IfOk result (λ v. v.items ≡ spec.ends 0 items.now) }
{
    let mut ends = Vec::new(alloc);
    let mut at = 0;
    let mut rest = items;
    while let [item, more @ ..] = rest {
        at += item.size();
        ends.push(at)?;
        rest = more;
    }
    Ok(ends)
}

fn is_offset(offset: u8, codes: &[UnwindCode]) -> bool
    ensures { result ≡ spec.is_offset offset codes.now }
{
    match codes {
        [] => false,
        [first, rest @ ..] => first.offset == offset || is_offset(offset, rest),
    }
}

fn has(number: u64, numbers: &[u64]) -> bool
    ensures { result ≡ bodies.has number numbers.now }
{
    match numbers {
        [] => false,
        [first, rest @ ..] => *first == number || has(number, rest),
    }
}

/// Whether each code is at one of the ends, and no two are at one.
pub fn are_at_ends(ends: &[u64], codes: &[UnwindCode]) -> bool
    ensures { result ≡ spec.are_at_ends ends.now codes.now }
{
    match codes {
        [] => true,
        [first, rest @ ..] => {
            has(first.offset as u64, ends)
                && !is_offset(first.offset, rest)
                && are_at_ends(ends, rest)
        }
    }
}
