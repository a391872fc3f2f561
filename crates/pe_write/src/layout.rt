//! Where the sections of a written image lie.

ghost use Rattle.std.specs.Prelude.{◌≡◌, ◌^◌, ◌<◌, ◌++◌, OnOk};
ghost use Rattle.std.specs.List.{AllByRecursion, flat_map};
ghost use Rattle.pe_write.specs.Written as spec;

use crate::header::SIZE_OF_HEADERS;
use crate::parts::ImageSection;
use host_layout::range::PAGE;
use std::alloc::AllocError;

/// Where an image ends, after the page of its headers and those of its sections.
pub fn end_of(sections: &[ImageSection<'_>]) -> u64
    requires { spec.end_of sections.now < 2 ^ 32 }
    ensures { result ≡ spec.end_of sections.now }
{
    PAGE + sections.iter().map(|s| s.pages()).sum::<u64>()
}

/// How many bytes of the file the sections of code take.
pub fn code_size(sections: &[ImageSection<'_>]) -> u64
    requires { spec.code_size sections.now < 2 ^ 32 }
    ensures { result ≡ spec.code_size sections.now }
{
    sections
        .iter()
        .filter(|s| s.is_code())
        .map(|s| s.raw_size())
        .sum()
}

/// How many bytes of the file the other sections take.
pub fn data_size(sections: &[ImageSection<'_>]) -> u64
    requires { spec.data_size sections.now < 2 ^ 32 }
    ensures { result ≡ spec.data_size sections.now }
{
    sections
        .iter()
        .filter(|s| !s.is_code())
        .map(|s| s.raw_size())
        .sum()
}

/// Where the first section of code begins, or 0 where there is none.
pub fn code_base(sections: &[ImageSection<'_>]) -> u64
    requires { spec.end_of sections.now < 2 ^ 32 }
    ensures value { result ≡ spec.code_base PAGE sections.now }
    ensures fits { result < 2 ^ 32 }
{
    let mut address = PAGE;
    for section in sections {
        if section.is_code() {
            return address;
        }
        address += section.pages();
    }
    0
}

/// Writes a header for each section.
pub fn put_headers(out: &mut Vec<u8>, sections: &[ImageSection<'_>]) -> Result<(), AllocError>
    requires whole { AllByRecursion spec.IsSection sections.now }
    requires end { spec.end_of sections.now < 2 ^ 32 }
    ensures { OnOk result (out.new.items ≡ out.old.items
        ++ spec.section_table (spec.placed PAGE SIZE_OF_HEADERS sections.now)) }
{
    let mut address = PAGE;
    let mut raw_at = SIZE_OF_HEADERS;
    for section in sections {
        section.put_header(out, address as u32, raw_at as u32)?;
        address += section.pages();
        raw_at += section.raw_size();
    }
    Ok(())
}

/// Writes the raw data of each section.
pub fn put_data(out: &mut Vec<u8>, sections: &[ImageSection<'_>]) -> Result<(), AllocError>
    ensures { OnOk result (out.new.items ≡ out.old.items ++ flat_map spec.raw_data sections.now) }
{
    for section in sections {
        section.put_raw_data(out)?;
    }
    Ok(())
}
