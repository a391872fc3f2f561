//! The sections of an image that is written.

ghost use Rattle.std.specs.Prelude.{◌≡◌, ◌^◌, ◌<◌, ◌++◌, OnOk};
ghost use Rattle.pe_write.specs.Written as spec;

use crate::header::{FILE_ALIGNMENT, IMAGE_SCN_CNT_CODE, RELOCATION_FIELDS_SIZE};
use crate::put::{put_u32, put_zeros};
use host_layout::range::pages;
use std::alloc::AllocError;
use std::marker::Model;

/// A section of an image to be written.
#[derive(Drop)]
pub struct ImageSection<'a> {
    name: [u8; 8],
    flags: u32,
    size: u32,
    bytes: &'a [u8],
}

impl<'a> Model for ImageSection<'a> {
    ghost use Rattle.pe_write.specs.Written.{SectionParts};

    ghost Value = { SectionParts };

    ghost view = { λ s. record {
      name = s.name;
      flags = s.flags;
      size = s.size;
      bytes = s.bytes.now;
    } };
}

impl<'a> ImageSection<'a> {
    /// A section of that name and those characteristics (PE format, "Section Flags"). It takes
    /// `size` bytes in the image: `bytes` and after them zeros.
    pub fn new(name: [u8; 8], flags: u32, size: u32, bytes: &'a [u8]) -> ImageSection<'a>
        ensures { result ≡ record { name = name; flags = flags; size = size; bytes = bytes.now } }
    {
        ImageSection {
            name,
            flags,
            size,
            bytes,
        }
    }

    /// How many bytes the pages that it takes have.
    pub fn pages(&self) -> u64
        ensures { result ≡ spec.pages self.now.size }
    {
        pages(self.size as u64)
    }

    /// How many bytes of the file its raw data takes.
    pub fn raw_size(&self) -> u64
        ensures { result ≡ spec.raw_size self.now }
    {
        (self.bytes.len() as u64).div_ceil(FILE_ALIGNMENT) * FILE_ALIGNMENT
    }

    /// Whether it has code.
    pub fn is_code(&self) -> bool
        ensures { result ≡ spec.is_code self.now }
    {
        self.flags & IMAGE_SCN_CNT_CODE != 0
    }

    /// Writes its header, where it lies at an address and its raw data at a place in the file.
    #[tactic(auto, unfolding(crate::specs::Written::section_fields), using(crate::proofs::Pieces::pieces))]
    pub fn put_header(&self, out: &mut Vec<u8>, address: u32, raw_at: u32) -> Result<(), AllocError>
        requires { spec.raw_size self.now < 2 ^ 32 }
        ensures { OnOk result (out.new.items ≡ out.old.items ++ spec.section_header
            (record { parts = self.now; address = address; raw_at = raw_at })) }
    {
        out.extend_from_slice(&self.name)?;
        put_u32(out, self.size)?;
        put_u32(out, address)?;
        put_u32(out, self.raw_size() as u32)?;
        put_u32(out, raw_at)?;
        put_zeros(out, RELOCATION_FIELDS_SIZE)?;
        put_u32(out, self.flags)
    }

    /// Writes its raw data, up to a whole block.
    #[tactic(auto, unfolding(crate::specs::Written::raw_data), using(crate::proofs::Pieces::pieces))]
    pub fn put_raw_data(&self, out: &mut Vec<u8>) -> Result<(), AllocError>
        ensures { OnOk result (out.new.items ≡ out.old.items ++ spec.raw_data self.now) }
    {
        out.extend_from_slice(self.bytes)?;
        put_zeros(out, self.raw_size() as usize - self.bytes.len())
    }
}
