//! The section table of an image.

ghost use Rattle.std.specs.Prelude.{◌≡◌, ◌≤◌, ◌+◌, ◌*◌, ◌^◌, ◌<◌, ◌⊎◌, length, IfOk};
ghost use Rattle.pe_image.specs.Answer.{Gives};
ghost use Rattle.pe_image.specs.Image.{AreAscending};
ghost use Rattle.pe_image.specs.Reading.{headers_from, all_placed, sections_of};

use crate::fields::u32_at;
use crate::image_layout::ImageLayout;
use crate::layout::{
    CHARACTERISTICS, POINTER_TO_RAW_DATA, SECTION_HEADER_SIZE, SECTION_NAME_SIZE, SIZE_OF_RAW_DATA,
    VIRTUAL_ADDRESS, VIRTUAL_SIZE,
};
use crate::refusal::ImageErr;
use crate::section::SectionView;
use host_layout::range::PAGE;
use std::alloc::Global;

/// A section header (PE format, "Section Table").
#[derive(Clone, Copy, Debug)]
pub struct SectionHeader {
    /// Its name, with zeros after one of fewer bytes.
    pub name: [u8; SECTION_NAME_SIZE],
    /// How many bytes the section takes in the image: VirtualSize, or SizeOfRawData where that is
    /// 0.
    pub size: u32,
    /// Where it lies in the image.
    pub address: u32,
    /// How many bytes are stored for it.
    pub raw_size: u32,
    /// Where they are in the bytes of the image.
    pub raw_at: u32,
    /// Its characteristics.
    pub flags: u32,
}

impl SectionHeader {
    ghost use Rattle.pe_image.specs.Reading as spec;

    fn read(bytes: &[u8], at: usize) -> SectionHeader
        requires { at + SECTION_HEADER_SIZE ≤ length bytes.now }
        ensures { result ≡ spec.header_at bytes.now at }
    {
        let mut name = [0; SECTION_NAME_SIZE];
        name.copy_from_slice(&bytes[at..at + SECTION_NAME_SIZE]);
        let virtual_size = u32_at(bytes, at + VIRTUAL_SIZE);
        let raw_size = u32_at(bytes, at + SIZE_OF_RAW_DATA);
        SectionHeader {
            name,
            size: if virtual_size == 0 {
                raw_size
            } else {
                virtual_size
            },
            address: u32_at(bytes, at + VIRTUAL_ADDRESS),
            raw_size,
            raw_at: u32_at(bytes, at + POINTER_TO_RAW_DATA),
            flags: u32_at(bytes, at + CHARACTERISTICS),
        }
    }

    /// The header of what is stored in a layout: a loader maps all of the section's size, at its
    /// address.
    fn placed(self, layout: ImageLayout) -> SectionHeader
        ensures { result ≡ spec.placed layout self }
    {
        match layout {
            ImageLayout::File => self,
            ImageLayout::Mapped => SectionHeader {
                raw_size: self.size,
                raw_at: self.address,
                ..self
            },
        }
    }

    fn raw_end(&self) -> u64
        ensures { result ≡ self.now.raw_at + self.now.raw_size }
    {
        self.raw_at as u64 + self.raw_size as u64
    }

    fn end(&self) -> u64
        ensures { result ≡ self.now.address + self.now.size }
    {
        self.address as u64 + self.size as u64
    }

    /// Whether what is stored of it lies in so many bytes, and it itself on whole pages from `end`
    /// on and up to `limit`.
    fn is_laid_out(&self, byte_count: u64, limit: u64, end: u64) -> bool
        ensures { result ≡ spec.is_laid_out byte_count limit end self.now }
    {
        (self.raw_size == 0 || self.raw_end() <= byte_count)
            && self.address as u64 % PAGE == 0
            && end <= self.address as u64
            && self.end() <= limit
    }

    fn view<'a>(&self, bytes: &'a [u8]) -> SectionView<'a>
        requires { (self.now.raw_size ≡ 0)
            ⊎ (self.now.raw_at + self.now.raw_size ≤ length bytes.now) }
        ensures { result ≡ spec.section_of bytes.now self.now }
    {
        let stored = self.size.min(self.raw_size) as usize;
        let raw = if stored == 0 {
            &[]
        } else {
            &bytes[self.raw_at as usize..self.raw_at as usize + stored]
        };
        SectionView::new(self.name, self.address, self.size, raw, self.flags)
    }
}

/// The sections of a table of so many headers, in an image that ends at `limit`.
pub fn sections<'a>(
    alloc: Global,
    bytes: &'a [u8],
    layout: ImageLayout,
    at: usize,
    count: usize,
    limit: u64,
) -> Result<Vec<SectionView<'a>>, ImageErr>
    requires { at + SECTION_HEADER_SIZE * count ≤ length bytes.now }
    ensures answer { Gives (λ v. v.items) result
        (sections_of bytes.now limit (all_placed layout (headers_from bytes.now count at))) }
    ensures ascending { IfOk result (λ v. AreAscending 0 v.items) }
{
    let mut sections = Vec::with_capacity(alloc, count)?;
    let mut end = 0;
    for index in 0..count {
        let header = SectionHeader::read(bytes, at + SECTION_HEADER_SIZE * index).placed(layout);
        if !header.is_laid_out(bytes.len() as u64, limit, end) {
            return Err(ImageErr::Layout {
                section: index as u64,
            });
        }
        end = header.end();
        sections.push(header.view(bytes))?;
    }
    Ok(sections)
}
