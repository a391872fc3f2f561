//! Memory that a caller passes in ranges, over the code of an image.

ghost use Rattle.std.specs.Prelude.{◌≡◌, ◌⊎◌, ◌+◌, ◌-◌, ◌^◌, ◌<◌, ◌≤◌, ℕ, length, take, drop, slice_index, slice_index_or};
ghost use Rattle.seh_views.specs.Ranges.{AreInOrder, held};
ghost use Rattle.seh_views.specs.Snapshot.{snapshot};

use crate::c_types::SehRange;
use flat_memory::access::RefusedAccess;
use flat_memory::protection::{Protection, Rights, UNMAPPED};
use pe_image::ImageView;
use seh_num::size::LONGEST_INSTRUCTION;
use seh_num::width::Width;
use x64_memory::paged::{self, ReadPages};
use x64_memory::space::{CodeSpace, ReadSpace};

/// Bytes of a range, which may be read, and fetched as code.
pub const DATA: Protection = Protection {
    rights: Rights::Read,
    execute: true,
};

/// Bytes that an image stores, which may be fetched.
pub const CODE: Protection = Protection {
    rights: Rights::Nothing,
    execute: true,
};

/// The bytes themselves, each of which is below 256.
fn as_bytes<'a>(bytes: &'a [u8]) -> &'a [u8]
    ensures same { result.now ≡ bytes.now }
    ensures small { (i : ℕ) → slice_index result.now i < 256 }
{
    bytes
}

/// How many of ranges in order begin at or below an address.
fn count_begun(ranges: &[SehRange<'_>], at: u64) -> usize
    requires { AreInOrder ranges.now }
    ensures within { result ≤ length ranges.now }
    ensures begun { (k : ℕ) (d : SehRange) → k < result → (slice_index_or ranges.now k d).at ≤ at }
    ensures later { (k : ℕ) (d : SehRange) → result ≤ k → k < length ranges.now
        → at < (slice_index_or ranges.now k d).at }
{
    ranges.partition_point(|r| r.at <= at)
}

impl<'a> SehRange<'a> {
    /// Its bytes from an address on, which lies at or above its own.
    fn bytes_from(&self, at: u64) -> &'a [u8]
        ensures { result.now ≡ drop (at - self.now.at) self.now.bytes.now }
    {
        let bytes = self.bytes;
        let passed = at.saturating_sub(self.at);
        if passed < bytes.len() as u64 {
            &bytes[passed as usize..]
        } else {
            &[]
        }
    }
}

/// The bytes from an address on that one of ranges in order holds.
fn bytes_at<'a>(ranges: &[SehRange<'a>], at: u64) -> &'a [u8]
    requires { AreInOrder ranges.now }
    ensures { result.now ≡ held at ranges.now }
{
    let begun = count_begun(ranges, at);
    if begun == 0 {
        return &[];
    }
    ranges[begun - 1].bytes_from(at)
}

/// How far it is from an address to where the next of ranges in order begins, or to the end of the
/// addresses.
fn room_at(ranges: &[SehRange<'_>], at: u64) -> u64
    requires { AreInOrder ranges.now }
    ensures next { (k : ℕ) (d : SehRange) → k < length ranges.now
        → (slice_index_or ranges.now k d).at ≤ at
        ⊎ at + result ≤ (slice_index_or ranges.now k d).at }
    ensures within { at + result < 2 ^ 64 }
{
    let begun = count_begun(ranges, at);
    if begun < ranges.len() {
        ranges[begun].at - at
    } else {
        u64::MAX - at
    }
}

/// As many of some bytes as there is room for, and one more where there is none.
fn first_bytes<'a>(bytes: &'a [u8], room: u64) -> &'a [u8]
    ensures some { 0 < length bytes.now → 0 < length result.now }
    ensures few { length result.now ≤ 1 ⊎ length result.now ≤ room }
    ensures front { result.now ≡ take (length result.now) bytes.now }
{
    if (bytes.len() as u64) <= room {
        bytes
    } else {
        &bytes[..room.max(1) as usize]
    }
}

/// The bytes of ranges, and the code of an image that lies at a base.
#[derive(Drop)]
pub struct Snapshot<'image, 'bytes, 'ranges, 'memory> {
    image: &'image ImageView<'bytes>,
    base: u64,
    ranges: &'ranges [SehRange<'memory>],
    ghost ordered: { AreInOrder ranges.now },
}

impl<'image, 'bytes, 'ranges, 'memory> Snapshot<'image, 'bytes, 'ranges, 'memory> {
    ghost use Rattle.seh_views.specs.Snapshots.{memory_of};

    pub fn new(
        image: &'image ImageView<'bytes>,
        base: u64,
        ranges: &'ranges [SehRange<'memory>],
    ) -> Self
        requires { AreInOrder ranges.now }
        ensures { memory_of result ≡ snapshot image.now base ranges.now }
    {
        Snapshot {
            image,
            base,
            ranges,
        }
    }
}

impl<'image, 'bytes, 'ranges, 'memory> ReadPages for Snapshot<'image, 'bytes, 'ranges, 'memory> {
    ghost memory = { λ s. snapshot s.image.now s.base s.ranges.now };

    fn rest_of_page(&self, at: u64) -> (Protection, &[u8]) {
        let bytes = as_bytes(bytes_at(self.ranges, at));
        if bytes.len() != 0 {
            return (DATA, bytes);
        }
        let rva = at.wrapping_sub(self.base);
        let code = as_bytes(self.image.bytes_from(rva));
        if code.len() == 0 {
            return (UNMAPPED, code);
        }
        let room = room_at(self.ranges, at).min(u64::MAX - rva);
        (CODE, as_bytes(first_bytes(code, room)))
    }
}

impl<'image, 'bytes, 'ranges, 'memory> CodeSpace for Snapshot<'image, 'bytes, 'ranges, 'memory> {
    ghost memory = { λ s. snapshot s.image.now s.base s.ranges.now };

    fn fetch(&self, at: u64, into: &mut [u8; LONGEST_INSTRUCTION]) -> usize {
        paged::fetch(self, at, into)
    }
}

impl<'image, 'bytes, 'ranges, 'memory> ReadSpace for Snapshot<'image, 'bytes, 'ranges, 'memory> {
    fn load(&self, at: u64, width: Width) -> Result<u64, RefusedAccess> {
        paged::load(self, at, width)
    }
}
