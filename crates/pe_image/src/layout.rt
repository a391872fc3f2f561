//! Where the fields of an image's headers are, and what they hold (PE format).

/// The size of the DOS header (PE format, "MS-DOS Stub").
pub const DOS_HEADER_SIZE: usize = 64;

/// The field e_magic of the DOS header, at its front: the letters `MZ`.
pub const IMAGE_DOS_SIGNATURE: u16 = 0x5A4D;

/// The field e_lfanew of the DOS header: the file offset of the signature.
pub const E_LFANEW: usize = 0x3C;

/// The size of the signature and the file header after it (PE format, "COFF File Header"). The
/// offsets of their fields are from the signature on.
pub const FILE_HEADER_SIZE: usize = 24;

/// The signature, `PE\0\0`.
pub const IMAGE_NT_SIGNATURE: u32 = 0x4550;

/// The field Machine.
pub const MACHINE: usize = 4;

/// The number of x64 in the field Machine (PE format, "Machine Types").
pub const IMAGE_FILE_MACHINE_AMD64: u16 = 0x8664;

/// The field NumberOfSections.
pub const NUMBER_OF_SECTIONS: usize = 6;

/// The field SizeOfOptionalHeader.
pub const SIZE_OF_OPTIONAL_HEADER: usize = 20;

/// The field Magic of PE32+, the first of the optional header (PE format, "Optional Header").
pub const IMAGE_NT_OPTIONAL_HDR64_MAGIC: u16 = 0x20B;

/// The field AddressOfEntryPoint of the optional header.
pub const ADDRESS_OF_ENTRY_POINT: usize = 16;

/// The field ImageBase of the optional header.
pub const IMAGE_BASE: usize = 24;

/// The field SizeOfImage of the optional header.
pub const SIZE_OF_IMAGE: usize = 56;

/// The field NumberOfRvaAndSizes of the optional header: how many data directories there are.
pub const NUMBER_OF_RVA_AND_SIZES: usize = 108;

/// The size of the optional header up to its data directories.
pub const DIRECTORIES: usize = 112;

/// The size of a data directory: an address, and a size after it.
pub const DIRECTORY_SIZE: usize = 8;

/// The field Size of a data directory, after its address.
pub const SIZE_IN_DIRECTORY: usize = 4;

/// The index of the directory that names the import descriptors (PE format, "Optional Header Data
/// Directories").
pub const IMAGE_DIRECTORY_ENTRY_IMPORT: usize = 1;

/// The index of the directory that names the function table.
pub const IMAGE_DIRECTORY_ENTRY_EXCEPTION: usize = 3;

/// How many data directories have a meaning.
pub const IMAGE_NUMBEROF_DIRECTORY_ENTRIES: usize = 16;

/// The size of a section header (PE format, "Section Table").
pub const SECTION_HEADER_SIZE: usize = 40;

/// The size of its field Name, at its front: a name that is shorter has zeros after it.
pub const SECTION_NAME_SIZE: usize = 8;

/// The field VirtualSize of a section header: how many bytes it takes in the image.
pub const VIRTUAL_SIZE: usize = 8;

/// The field VirtualAddress: where it begins in the image.
pub const VIRTUAL_ADDRESS: usize = 12;

/// The field SizeOfRawData: how many bytes the file has of it.
pub const SIZE_OF_RAW_DATA: usize = 16;

/// The field PointerToRawData: where they are in the file.
pub const POINTER_TO_RAW_DATA: usize = 20;

/// The field Characteristics of a section header.
pub const CHARACTERISTICS: usize = 36;

/// The section can be run as code (PE format, "Section Flags").
pub const IMAGE_SCN_MEM_EXECUTE: u32 = 0x2000_0000;

/// The section can be read.
pub const IMAGE_SCN_MEM_READ: u32 = 0x4000_0000;

/// The section can be written.
pub const IMAGE_SCN_MEM_WRITE: u32 = 0x8000_0000;

/// The size of an import descriptor (PE format, "Import Directory Table"): five numbers of 32 bits.
pub const DESCRIPTOR_SIZE: u64 = 20;

/// The first of them: the address of the lookup table.
pub const IMPORT_LOOKUP_TABLE: usize = 0;

/// The time of binding, which isn't read.
pub const TIME_DATE_STAMP: usize = 4;

/// The index of the first forwarder, which isn't read.
pub const FORWARDER_CHAIN: usize = 8;

/// The address of the library's name, which isn't read.
pub const LIBRARY_NAME: usize = 12;

/// The last: the address of the address table, whose slots get the addresses of what is imported.
pub const IMPORT_ADDRESS_TABLE: usize = 16;

/// The size of an entry of a lookup table, and of a slot of an address table (PE format, "Import
/// Lookup Table").
pub const LOOKUP_ENTRY_SIZE: u64 = 8;

/// A lookup entry from here on is an ordinal: its bit 63 is set.
pub const IMAGE_ORDINAL_FLAG64: u64 = 0x8000_0000_0000_0000;

/// The size of the hint in front of a name (PE format, "Hint/Name Table").
pub const HINT_SIZE: usize = 2;

/// How many addresses there are, relative to an image base: no lookup table has more entries, and
/// no image more libraries.
pub const ADDRESS_COUNT: u64 = 0x1_0000_0000;

/// The name of the section that has a table of names (own).
pub const SEHNAME_NAME: [u8; SECTION_NAME_SIZE] = *b".sehname";

/// The size of the count in front of the rows of a table of names (own).
pub const NAME_COUNT_SIZE: usize = 4;

/// The size of a row of that table: four numbers of 32 bits, of which the first is where a range of
/// code begins.
pub const NAME_ROW_SIZE: usize = 16;

/// The second: where that range ends.
pub const NAME_ROW_END: usize = 4;

/// The third: the function's number.
pub const NAME_ROW_NUMBER: usize = 8;

/// The last: the address of the function's name.
pub const NAME_ROW_NAME: usize = 12;
