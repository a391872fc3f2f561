//! Names that are ended by 0. Bytes that many names share are looked at once.

ghost use Rattle.std.specs.Prelude.{◌≡◌, ◌≤◌, ◌<◌, ◌+◌, ◌-◌, ◌^◌, ◌==◌, List, Some, length, drop, position, option_map, IfSome, OnOk};
ghost use Rattle.std.specs.Ordering.{nat_cmp};
ghost use Rattle.std.specs.BTreeMap.{get};
ghost use Rattle.pe_image.specs.Image.{Section, AreAscending, section_at, stored_in};
ghost use Rattle.pe_image.specs.Imports as spec;
ghost use Rattle.pe_image.specs.Names.{EndsAt, AreEnds};

use crate::layout::HINT_SIZE;
use crate::section::{SectionView, stored_from};
use std::alloc::AllocError;
use std::collections::BTreeMap;

/// Bytes other than 0 from an address on, and the address of the 0 after them.
#[derive(Clone, Copy)]
struct Stretch {
    from: u64,
    end: u64,
}

/// The place of the first 0.
pub fn first_zero(bytes: &[u8]) -> Option<usize>
    ensures place { result ≡ position (λ b. b == 0) bytes.now }
    ensures within { IfSome result (λ n. n < length bytes.now) }
{
    bytes.iter().position(|b| *b == 0)
}

/// The place of the first 0, where the first one at or after `unread` is known to be at `end`,
/// if the bytes go so far.
fn first_zero_before(bytes: &[u8], unread: u64, end: u64) -> Option<usize>
    requires ordered { unread ≤ end }
    requires known { unread < length bytes.now
        → position (λ b. b == 0) (drop unread bytes.now) ≡ Some (end - unread) }
    ensures place { result ≡ position (λ b. b == 0) bytes.now }
    ensures within { IfSome result (λ n. n < length bytes.now) }
{
    if bytes.len() as u64 <= unread {
        return first_zero(bytes);
    }
    match first_zero(&bytes[..unread as usize]) {
        Some(place) => Some(place),
        None => Some(end as usize),
    }
}

/// The first stretch that is known to end at an address or above it.
fn known_stretch(ends: &BTreeMap<u64, u64>, at: u64) -> Option<Stretch>
    ensures known { IfSome result (λ s. get nat_cmp ends.now s.end ≡ Some s.from) }
    ensures above { IfSome result (λ s. at ≤ s.end) }
{
    let (end, from) = ends.range(at..).next()?;
    Some(Stretch {
        from: *from,
        end: *end,
    })
}

/// How many bytes come before the first 0 of what is stored from an address on.
fn name_len(ends: &BTreeMap<u64, u64>, sections: &[SectionView<'_>], at: u64) -> Option<usize>
    requires ascending { AreAscending 0 sections.now }
    requires ends { AreEnds sections.now ends.now }
    requires low { at ≤ 2 ^ 63 + 1 }
    ensures { result ≡ position (λ b. b == 0) (stored_in at (section_at at sections.now)) }
{
    let bytes = stored_from(sections, at);
    match known_stretch(ends, at) {
        Some(known) if known.from <= at => Some((known.end - at) as usize),
        Some(known) => first_zero_before(bytes, known.from - at, known.end - at),
        None => first_zero(bytes),
    }
}

/// The name after a hint at an address.
pub fn read_name<'a>(
    ends: &BTreeMap<u64, u64>,
    sections: &[SectionView<'a>],
    at: u64,
) -> Option<&'a [u8]>
    requires ascending { AreAscending 0 sections.now }
    requires ends { AreEnds sections.now ends.now }
    requires low { at < 2 ^ 63 }
    ensures name { option_map (λ b. b.now) result ≡ spec.name_at sections.now at }
    ensures end { IfSome result (λ name. EndsAt sections.now (at + HINT_SIZE)
        (at + HINT_SIZE + length name.now)) }
    ensures fits { IfSome result (λ name. at + HINT_SIZE + length name.now < 2 ^ 64) }
{
    let hinted = stored_from(sections, at);
    if hinted.len() <= HINT_SIZE {
        return None;
    }
    let bytes = &hinted[HINT_SIZE..];
    match name_len(ends, sections, at + HINT_SIZE as u64) {
        Some(len) => Some(&bytes[..len]),
        None => None,
    }
}

/// Keeps where bytes other than 0 end, with the lowest address from which on they are known.
pub fn keep_end(ends: &mut BTreeMap<u64, u64>, from: u64, end: u64) -> Result<(), AllocError>
    ensures { OnOk result ((ss : List Section) → AreEnds ss ends.old → EndsAt ss from end
        → AreEnds ss ends.new) }
{
    match ends.get(&end) {
        Some(known) if *known <= from => {}
        _ => {
            ends.insert(end, from)?;
        }
    }
    Ok(())
}
