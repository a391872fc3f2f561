//! A section of an image that was read.

ghost use Rattle.std.specs.Prelude.{◌≡◌, ℕ, ◌<◌, ◌≤◌, ◌-◌, ◌^◌, length, drop, slice_index_or, option_map};
ghost use Rattle.pe_image.specs.Image.{Section, AreAscending, section_at, stored_in};
ghost use Rattle.pe_image.specs.Image as spec;

use crate::layout::{
    IMAGE_SCN_MEM_EXECUTE, IMAGE_SCN_MEM_READ, IMAGE_SCN_MEM_WRITE, SECTION_NAME_SIZE,
};
use std::marker::Model;

/// A section of an image: its name, where it lies, and what the file stores of it.
#[derive(Drop)]
pub struct SectionView<'a> {
    name: [u8; SECTION_NAME_SIZE],
    address: u32,
    size: u32,
    raw: &'a [u8],
    flags: u32,
}

impl<'a> Model for SectionView<'a> {
    ghost use Rattle.pe_image.specs.Image.{Section};

    ghost Value = { Section };

    ghost view = { λ s. record {
      name = s.name;
      address = s.address;
      size = s.size;
      raw = s.raw.now;
      flags = s.flags;
    } };
}

impl<'a> SectionView<'a> {
    pub(crate) fn new(
        name: [u8; SECTION_NAME_SIZE],
        address: u32,
        size: u32,
        raw: &'a [u8],
        flags: u32,
    ) -> SectionView<'a>
        ensures { result ≡ record {
          name = name;
          address = address;
          size = size;
          raw = raw.now;
          flags = flags;
        } }
    {
        SectionView {
            name,
            address,
            size,
            raw,
            flags,
        }
    }

    /// Its name (PE format, "Section Table"), with zeros after one of fewer bytes.
    pub fn name(&self) -> [u8; SECTION_NAME_SIZE]
        ensures { result ≡ self.now.name }
    {
        self.name
    }

    /// Where it begins, relative to the image base.
    pub fn address(&self) -> u64
        ensures value { result ≡ self.now.address }
        ensures fits { result < 2 ^ 32 }
    {
        self.address as u64
    }

    /// How many bytes it takes in the image.
    pub fn size(&self) -> u64
        ensures value { result ≡ self.now.size }
        ensures fits { result < 2 ^ 32 }
    {
        self.size as u64
    }

    /// Its first bytes, as the file stores them; the others, up to its size, are 0.
    pub fn raw(&self) -> &'a [u8]
        ensures { result.now ≡ self.now.raw }
    {
        self.raw
    }

    /// What is stored of it from an address on, which lies at or above its own.
    fn raw_from(&self, rva: u64) -> &'a [u8]
        ensures { result.now ≡ drop (rva - self.now.address) self.now.raw }
    {
        let passed = rva.saturating_sub(self.address());
        if passed < self.raw.len() as u64 {
            &self.raw[passed as usize..]
        } else {
            &[]
        }
    }

    /// Its characteristics (PE format, "Section Flags").
    pub fn flags(&self) -> u32
        ensures { result ≡ self.now.flags }
    {
        self.flags
    }

    /// Whether its code may run.
    pub fn is_executable(&self) -> bool
        ensures { result ≡ spec.is_executable self.now }
    {
        self.flags & IMAGE_SCN_MEM_EXECUTE != 0
    }

    /// Whether its bytes may be written.
    pub fn is_writable(&self) -> bool
        ensures { result ≡ spec.is_writable self.now }
    {
        self.flags & IMAGE_SCN_MEM_WRITE != 0
    }

    /// Whether its bytes may be read: what may run or be written may be read too.
    pub fn is_readable(&self) -> bool
        ensures { result ≡ spec.is_readable self.now }
    {
        self.flags & (IMAGE_SCN_MEM_EXECUTE | IMAGE_SCN_MEM_READ | IMAGE_SCN_MEM_WRITE) != 0
    }
}

/// The first section of a name.
pub fn section_named<'v, 'a>(
    sections: &'v [SectionView<'a>],
    name: [u8; SECTION_NAME_SIZE],
) -> Option<&'v SectionView<'a>>
    ensures { option_map (λ s. s.now) result ≡ spec.section_named name sections.now }
{
    sections.iter().find(|s| s.name() == name)
}

/// How many of ascending sections begin at or below an address.
fn count_begun(sections: &[SectionView<'_>], rva: u64) -> usize
    requires { AreAscending 0 sections.now }
    ensures within { result ≤ length sections.now }
    ensures begun { (k : ℕ) (d : Section) → k < result
        → (slice_index_or sections.now k d).address ≤ rva }
    ensures later { (k : ℕ) (d : Section) → result ≤ k → k < length sections.now
        → rva < (slice_index_or sections.now k d).address }
{
    sections.partition_point(|s| s.address() <= rva)
}

/// The bytes from an address on that are stored in one of ascending sections.
pub fn stored_from<'a>(sections: &[SectionView<'a>], rva: u64) -> &'a [u8]
    requires { AreAscending 0 sections.now }
    ensures { result.now ≡ stored_in rva (section_at rva sections.now) }
{
    let begun = count_begun(sections, rva);
    if begun == 0 {
        return &[];
    }
    sections[begun - 1].raw_from(rva)
}
