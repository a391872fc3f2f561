//! Images of one section and no tables, field by field, as the PE format has them.

use crate::tables::{put, put_rows};
use std::alloc::{AllocError, Global};

/// Where the signature of [`image`] is.
pub const SIGNATURE: usize = 64;

/// Where its optional header is.
pub const OPTIONAL: usize = SIGNATURE + 24;

/// The table of sections, after an optional header without directories.
pub const TABLE: usize = OPTIONAL + 112;

/// The fields of [`image`] that vary.
#[derive(Clone, Copy)]
pub struct Fields {
    /// ImageBase.
    pub base: u64,
    /// AddressOfEntryPoint.
    pub entry: u32,
    /// SizeOfImage.
    pub size: u32,
    /// Characteristics, of the section.
    pub characteristics: u32,
}

/// An entry point at the start of a section that may be read and executed.
pub const PLAIN: Fields = Fields {
    base: 0x1_4000_0000,
    entry: 0x1000,
    size: 0x2000,
    characteristics: 0x6000_0020,
};

/// The fields of [`image`] that don't vary.
const FIXED: &str = r"
0 4D 5A   | MZ
3C 40     | e_lfanew
40 50 45  | PE
44 64 86  | Machine
46 1      | NumberOfSections
56 23     | Characteristics
58 B 2    | Magic
";

/// The headers of an image whose optional header has this size.
pub fn headers(alloc: Global, fields: Fields, optional: u16) -> Result<Vec<u8>, AllocError> {
    let mut out = vec![in alloc; 0; TABLE - 4]?;
    put_rows(&mut out, FIXED);
    put(&mut out, SIGNATURE + 20, &optional.to_le_bytes()); // SizeOfOptionalHeader
    put(&mut out, OPTIONAL + 16, &fields.entry.to_le_bytes()); // AddressOfEntryPoint
    put(&mut out, OPTIONAL + 24, &fields.base.to_le_bytes()); // ImageBase
    put(&mut out, OPTIONAL + 56, &fields.size.to_le_bytes()); // SizeOfImage
    Ok(out)
}

/// An image of one section, which is at 0x1000 and holds the code.
pub fn image(alloc: Global, fields: Fields, code: &[u8]) -> Result<Vec<u8>, AllocError> {
    let size = u32::try_from(code.len()).unwrap_or(0).to_le_bytes();
    let mut out = headers(alloc, fields, 112)?;
    out.resize(TABLE + 40, 0)?;
    put(&mut out, TABLE, b".text");
    put(&mut out, TABLE + 8, &size); // VirtualSize
    put(&mut out, TABLE + 12, &[0, 0x10]); // VirtualAddress
    put(&mut out, TABLE + 16, &size); // SizeOfRawData
    put(&mut out, TABLE + 20, &[240]); // PointerToRawData
    put(&mut out, TABLE + 36, &fields.characteristics.to_le_bytes());
    out.extend_from_slice(code)?;
    Ok(out)
}

/// Computes 2 + 3 * 4, puts it and returns 7, in 13 turns. The image of it is `fourteen.exe` of the
/// examples.
pub const FOURTEEN: [u8; 49] = [
    0x48, 0x83, 0xEC, 0x28, // sub rsp, 40
    0xB8, 3, 0, 0, 0, // mov eax, 3
    0xB9, 4, 0, 0, 0, // mov ecx, 4
    0x0F, 0xAF, 0xC1, // imul eax, ecx
    0xB9, 2, 0, 0, 0, // mov ecx, 2
    0x01, 0xC8, // add eax, ecx
    0x48, 0x63, 0xC8, // movsxd rcx, eax
    0x48, 0xB8, 0x10, 0, 0xF0, 0x7F, 0, 0, 0, 0, // mov rax, the service put
    0xFF, 0xD0, // call rax
    0xB8, 7, 0, 0, 0, // mov eax, 7
    0x48, 0x83, 0xC4, 0x28, // add rsp, 40
    0xC3, // ret
];

/// A loop without an end. The image of it is `endless.exe` of the examples.
pub const ENDLESS: [u8; 12] = [
    0x48, 0xB8, 0, 0x10, 0, 0x40, 1, 0, 0, 0, // mov rax, the entry point
    0x50, // push rax
    0xC3, // ret
];
