//! The checks of an image's headers.

ghost use Rattle.std.specs.Prelude.{◌≡◌, ◌≤◌, ◌<◌, length, OnOk};
ghost use Rattle.pe_image.specs.Reading as spec;

use crate::directory::DataDirectory;
use crate::fields::{u16_at, u32_at, u64_at};
use crate::layout::{
    ADDRESS_OF_ENTRY_POINT, DIRECTORIES, DIRECTORY_SIZE, DOS_HEADER_SIZE, E_LFANEW,
    FILE_HEADER_SIZE, IMAGE_BASE, IMAGE_DOS_SIGNATURE, IMAGE_FILE_MACHINE_AMD64,
    IMAGE_NT_OPTIONAL_HDR64_MAGIC, IMAGE_NT_SIGNATURE, IMAGE_NUMBEROF_DIRECTORY_ENTRIES, MACHINE,
    NUMBER_OF_RVA_AND_SIZES, NUMBER_OF_SECTIONS, SECTION_HEADER_SIZE, SIZE_IN_DIRECTORY,
    SIZE_OF_IMAGE, SIZE_OF_OPTIONAL_HEADER,
};
use crate::refusal::ImageErr;
use host_layout::range::pages;

/// Checks the headers up to the file header.
fn check_file_header(bytes: &[u8]) -> Result<(), ImageErr>
    ensures answer { result ≡ spec.file_header bytes.now }
    ensures dos_header { OnOk result (DOS_HEADER_SIZE ≤ length bytes.now) }
    ensures file_header { OnOk result (spec.optional_at bytes.now ≤ length bytes.now) }
{
    let size = bytes.len();
    if size < DOS_HEADER_SIZE {
        return Err(ImageErr::Truncated { at: 0 });
    }
    if u16_at(bytes, 0) != IMAGE_DOS_SIGNATURE {
        return Err(ImageErr::NotPe { at: 0 });
    }
    let signature_at = u32_at(bytes, E_LFANEW) as usize;
    let at = signature_at as u64;
    if size < signature_at + FILE_HEADER_SIZE {
        return Err(ImageErr::Truncated { at });
    }
    if u32_at(bytes, signature_at) != IMAGE_NT_SIGNATURE {
        return Err(ImageErr::NotPe { at });
    }
    let machine = u16_at(bytes, signature_at + MACHINE);
    if machine != IMAGE_FILE_MACHINE_AMD64 {
        let found = machine as u64;
        return Err(ImageErr::Machine { found });
    }
    Ok(())
}

/// Checks the optional header and the section table.
fn check_optional_header(bytes: &[u8]) -> Result<(), ImageErr>
    requires dos_header { DOS_HEADER_SIZE ≤ length bytes.now }
    requires file_header { spec.optional_at bytes.now ≤ length bytes.now }
    ensures answer { result ≡ spec.optional_header bytes.now }
    ensures found { OnOk result (spec.HasHeaders bytes.now) }
{
    let size = bytes.len();
    let signature_at = u32_at(bytes, E_LFANEW) as usize;
    let optional_at = signature_at + FILE_HEADER_SIZE;
    let optional_size = u16_at(bytes, signature_at + SIZE_OF_OPTIONAL_HEADER) as usize;
    let at = optional_at as u64;
    if size < optional_at + DIRECTORIES || optional_size < DIRECTORIES {
        return Err(ImageErr::Truncated { at });
    }
    let magic = u16_at(bytes, optional_at);
    if magic != IMAGE_NT_OPTIONAL_HDR64_MAGIC {
        let found = magic as u64;
        return Err(ImageErr::Magic { found });
    }
    let directories_at = optional_at + DIRECTORIES;
    let directory_count = u32_at(bytes, optional_at + NUMBER_OF_RVA_AND_SIZES) as usize;
    let directories_size = DIRECTORY_SIZE * directory_count;
    let at = directories_at as u64;
    if optional_size < DIRECTORIES + directories_size || size < directories_at + directories_size {
        return Err(ImageErr::Truncated { at });
    }
    let sections_at = optional_at + optional_size;
    let sections_size = SECTION_HEADER_SIZE
        * u16_at(bytes, signature_at + NUMBER_OF_SECTIONS) as usize;
    let at = sections_at as u64;
    if size < sections_at + sections_size {
        return Err(ImageErr::Truncated { at });
    }
    Ok(())
}

/// Checks the headers up to the section table.
#[tactic(auto, unfolding(crate::specs::Reading::headers))]
pub fn check_headers(bytes: &[u8]) -> Result<(), ImageErr>
    ensures answer { result ≡ spec.headers bytes.now }
    ensures found { OnOk result (spec.HasHeaders bytes.now) }
{
    check_file_header(bytes)?;
    check_optional_header(bytes)
}

/// Where the optional header begins: after the signature and the file header.
pub fn optional_at(bytes: &[u8]) -> usize
    requires { spec.HasHeaders bytes.now }
    ensures { result ≡ spec.optional_at bytes.now }
{
    u32_at(bytes, E_LFANEW) as usize + FILE_HEADER_SIZE
}

/// NumberOfSections.
pub fn section_count(bytes: &[u8]) -> usize
    requires { spec.HasHeaders bytes.now }
    ensures { result ≡ spec.section_count bytes.now }
{
    let signature_at = u32_at(bytes, E_LFANEW) as usize;
    u16_at(bytes, signature_at + NUMBER_OF_SECTIONS) as usize
}

/// Where the section table begins: after the optional header.
pub fn sections_at(bytes: &[u8]) -> usize
    requires { spec.HasHeaders bytes.now }
    ensures { result ≡ spec.sections_at bytes.now }
{
    let signature_at = u32_at(bytes, E_LFANEW) as usize;
    let optional_size = u16_at(bytes, signature_at + SIZE_OF_OPTIONAL_HEADER) as usize;
    signature_at + FILE_HEADER_SIZE + optional_size
}

/// SizeOfImage.
pub fn image_size(bytes: &[u8]) -> u32
    requires { spec.HasHeaders bytes.now }
    ensures { result ≡ spec.image_size bytes.now }
{
    u32_at(bytes, optional_at(bytes) + SIZE_OF_IMAGE)
}

/// Where the image ends: SizeOfImage, rounded up to whole pages.
pub fn image_end(bytes: &[u8]) -> u64
    requires { spec.HasHeaders bytes.now }
    ensures { result ≡ spec.image_end bytes.now }
{
    pages(image_size(bytes) as u64)
}

/// ImageBase.
pub fn image_base(bytes: &[u8]) -> u64
    requires { spec.HasHeaders bytes.now }
    ensures { result ≡ spec.image_base bytes.now }
{
    u64_at(bytes, optional_at(bytes) + IMAGE_BASE)
}

/// AddressOfEntryPoint.
pub fn entry_point(bytes: &[u8]) -> u32
    requires { spec.HasHeaders bytes.now }
    ensures { result ≡ spec.entry_point bytes.now }
{
    u32_at(bytes, optional_at(bytes) + ADDRESS_OF_ENTRY_POINT)
}

/// The directory of an index; one that NumberOfRvaAndSizes doesn't count is empty.
pub fn directory(bytes: &[u8], index: usize) -> DataDirectory
    requires headers { spec.HasHeaders bytes.now }
    requires known { index < IMAGE_NUMBEROF_DIRECTORY_ENTRIES }
    ensures { result ≡ spec.directory bytes.now index }
{
    let optional_at = optional_at(bytes);
    if index < u32_at(bytes, optional_at + NUMBER_OF_RVA_AND_SIZES) as usize {
        let at = optional_at + DIRECTORIES + DIRECTORY_SIZE * index;
        DataDirectory {
            rva: u32_at(bytes, at),
            size: u32_at(bytes, at + SIZE_IN_DIRECTORY),
        }
    } else {
        DataDirectory { rva: 0, size: 0 }
    }
}
