//! The epilogues that an unwind info of version 2 lists.

ghost use Rattle.std.specs.Prelude.{◌≡◌, ◌≤◌, ◌<◌, ◌^◌, []};
ghost use Rattle.abi_unwind.specs.Version2 as spec;

use crate::function::Function;

/// The version of UNWIND_INFO that lists its epilogues.
const LISTING_VERSION: u8 = 2;

/// Whether an address is inside an epilogue of that size, which begins so many bytes before `end`,
/// where these aren't 0.
fn is_in_one(end: u64, size: u64, rva: u64, start: u64) -> bool
    requires end { end < 2 ^ 32 }
    requires size { size < 256 }
    ensures { result ≡ spec.is_inside end size rva (spec.unless_zero start []) }
{
    let begin = end.saturating_sub(start);
    start != 0 && begin <= rva && rva < begin + size
}

/// Whether an address is inside an epilogue of the slots after the first.
#[tactic(auto, using(crate::proofs::Listed::one_or_later))]
fn is_inside(end: u64, size: u64, rva: u64, slots: &[u8]) -> bool
    requires end { end < 2 ^ 32 }
    requires size { size < 256 }
    ensures { result ≡ spec.is_inside end size rva (spec.starts_of slots.now) }
{
    match slots {
        [low, high, rest @ ..] => {
            let start = *low as u64 + 256 * (*high as u64 / 16);
            is_in_one(end, size, rva, start) || is_inside(end, size, rva, rest)
        }
        _ => false,
    }
}

/// Whether an address is inside a listed epilogue.
#[tactic(auto, using(crate::proofs::Listed::one_or_later))]
fn is_listed(end: u64, rva: u64, slots: &[u8]) -> bool
    requires { end < 2 ^ 32 }
    ensures { result ≡ spec.is_listed end rva slots.now }
{
    match slots {
        [size, last, rest @ ..] => {
            let size = *size as u64;
            let start = *last as u64 / 16 % 2 * size;
            is_in_one(end, size, rva, start) || is_inside(end, size, rva, rest)
        }
        _ => false,
    }
}

/// Whether an epilogue may stand at an address: in version 2 inside a listed one alone.
pub fn may_end(function: &Function, rva: u64) -> bool
    ensures { result ≡ spec.may_end function.now rva }
{
    function.info.version() != LISTING_VERSION
        || is_listed(
            function.range.end as u64,
            rva,
            function.info.epilogue_slots(),
        )
}
