//! Ranges of memory, as a caller passes them.

ghost use Rattle.std.specs.Prelude.{◌≡◌, ◌+◌, length, OnOk};
ghost use Rattle.seh_views.specs.Ranges as spec;

use crate::c_types::SehRange;
use crate::refusal::Refusal;

/// How many addresses there are.
const ADDRESSES: u128 = 0x1_0000_0000_0000_0000;

/// The address after the last byte of a range, which can be the number of all addresses.
fn end_of(range: &SehRange<'_>) -> u128
    ensures { result ≡ range.now.at + length range.now.bytes.now }
{
    range.at as u128 + range.bytes.len() as u128
}

/// Whether a range begins at or above an end, and ends within the addresses.
fn is_placed(end: u128, range: &SehRange<'_>) -> bool
    ensures { result ≡ spec.is_placed end range.now }
{
    end <= range.at as u128 && end_of(range) <= ADDRESSES
}

/// Checks that ranges are in order: each begins at or above the end of the one before, and ends
/// within the addresses. The first that doesn't is refused by its index.
#[tactic(auto, using(crate::proofs::RangesHeld::are_in_order))]
pub fn check_ranges(ranges: &[SehRange<'_>]) -> Result<(), Refusal>
    ensures answer { result ≡ spec.ranges_checked 0 0 ranges.now }
    ensures ordered { OnOk result (spec.AreInOrder ranges.now) }
{
    let mut end = 0;
    for index in 0..ranges.len() {
        let range = &ranges[index];
        if !is_placed(end, range) {
            return Err(Refusal::Range {
                index: index as u64,
            });
        }
        end = end_of(range);
    }
    Ok(())
}
