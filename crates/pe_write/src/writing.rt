//! Images, written.

ghost use Rattle.std.specs.Prelude.{◌≡◌, ℕ, ◌<◌, ◌≤◌, ◌++◌, get_or, OnOk, IfOk};
ghost use Rattle.std.specs.List.{AllByRecursion};
ghost use Rattle.pe_write.specs.Written as spec;

use crate::header::{
    DOS_FIELDS_SIZE, FILE_ALIGNMENT, IMAGE_DIRECTORY_ENTRY_IAT, IMAGE_FILE_EXECUTABLE_IMAGE,
    IMAGE_FILE_LARGE_ADDRESS_AWARE, IMAGE_FILE_RELOCS_STRIPPED, IMAGE_SUBSYSTEM_WINDOWS_CUI,
    OPTIONAL_HEADER_SIZE, SECTION_TABLE_SIZE, SIZE_OF_HEADERS, STACK_FIELDS_SIZE,
    SYMBOL_FIELDS_SIZE, VERSION_FIELDS_SIZE,
};
use crate::layout::{code_base, code_size, data_size, end_of, put_data, put_headers};
use crate::parts::ImageSection;
use crate::put::{put_u16, put_u32, put_u64, put_zeros};
use host_layout::range::{IMAGE_BASE, PAGE};
use pe_image::DataDirectory;
use pe_image::layout::{
    DIRECTORY_SIZE, DOS_HEADER_SIZE, IMAGE_DIRECTORY_ENTRY_EXCEPTION, IMAGE_DIRECTORY_ENTRY_IMPORT,
    IMAGE_DOS_SIGNATURE, IMAGE_FILE_MACHINE_AMD64, IMAGE_NT_OPTIONAL_HDR64_MAGIC,
    IMAGE_NT_SIGNATURE, IMAGE_NUMBEROF_DIRECTORY_ENTRIES, SECTION_HEADER_SIZE,
};
use std::alloc::{AllocError, Global};
use std::marker::Model;

/// What the field Characteristics holds.
const CHARACTERISTICS: u16 = IMAGE_FILE_RELOCS_STRIPPED
    | IMAGE_FILE_EXECUTABLE_IMAGE
    | IMAGE_FILE_LARGE_ADDRESS_AWARE;

/// An image to be written, section by section.
#[derive(Drop)]
pub struct SectionedImage<'a> {
    entry: u32,
    sections: Vec<ImageSection<'a>>,
    imports: DataDirectory,
    exceptions: DataDirectory,
    import_addresses: DataDirectory,
}

impl<'a> Model for SectionedImage<'a> {
    ghost use Rattle.pe_write.specs.Written.{ImageParts, CanBeWritten};

    ghost Value = { ImageParts };

    ghost view = { λ image. record {
      entry = image.entry;
      sections = image.sections.items;
      imports = image.imports;
      exceptions = image.exceptions;
      import_addresses = image.import_addresses;
    } };

    ghost invariant = { λ image. CanBeWritten (record {
      entry = image.entry;
      sections = image.sections.items;
      imports = image.imports;
      exceptions = image.exceptions;
      import_addresses = image.import_addresses;
    }) };
}

impl<'a> SectionedImage<'a> {
    /// An image with that entry point, those sections in their order, and those directories, of
    /// which one of size 0 means none. All addresses are relative to the image base. The first
    /// section is on the page after that of the headers, and each other one on the next page after
    /// the one before. There are at most 17, so that the headers take 1,024 bytes, and all
    /// addresses are below 2^32.
    pub fn new(
        entry: u32,
        sections: Vec<ImageSection<'a>>,
        imports: DataDirectory,
        exceptions: DataDirectory,
        import_addresses: DataDirectory,
    ) -> SectionedImage<'a>
        requires { spec.CanBeWritten (record {
          entry = entry;
          sections = sections.items;
          imports = imports;
          exceptions = exceptions;
          import_addresses = import_addresses;
        }) }
        ensures { result ≡ record {
          entry = entry;
          sections = sections.entry.items;
          imports = imports;
          exceptions = exceptions;
          import_addresses = import_addresses;
        } }
    {
        SectionedImage {
            entry,
            sections,
            imports,
            exceptions,
            import_addresses,
        }
    }

    #[tactic(auto, unfolding(crate::specs::Written::file_header), using(crate::proofs::Pieces::pieces))]
    fn put_file_header(&self, out: &mut Vec<u8>) -> Result<(), AllocError>
        ensures { OnOk result (out.new.items ≡ out.old.items ++ spec.file_header self.now) }
    {
        put_u32(out, IMAGE_NT_SIGNATURE)?;
        put_u16(out, IMAGE_FILE_MACHINE_AMD64)?;
        put_u16(out, self.sections.len() as u16)?;
        put_zeros(out, SYMBOL_FIELDS_SIZE)?;
        put_u16(out, OPTIONAL_HEADER_SIZE as u16)?;
        put_u16(out, CHARACTERISTICS)
    }

    #[tactic(auto, unfolding(crate::specs::Written::standard_fields), using(crate::proofs::Pieces::pieces, crate::proofs::Below::code_fits, crate::proofs::Below::data_fits))]
    fn put_standard_fields(&self, out: &mut Vec<u8>) -> Result<(), AllocError>
        ensures { OnOk result (out.new.items ≡ out.old.items ++ spec.standard_fields self.now) }
    {
        put_u16(out, IMAGE_NT_OPTIONAL_HDR64_MAGIC)?;
        put_u16(out, 0)?;
        put_u32(out, code_size(&self.sections) as u32)?;
        put_u32(out, data_size(&self.sections) as u32)?;
        put_u32(out, 0)?;
        put_u32(out, self.entry)?;
        put_u32(out, code_base(&self.sections) as u32)
    }

    #[tactic(auto, unfolding(crate::specs::Written::windows_fields), using(crate::proofs::Pieces::pieces))]
    fn put_windows_fields(&self, out: &mut Vec<u8>) -> Result<(), AllocError>
        ensures { OnOk result (out.new.items ≡ out.old.items ++ spec.windows_fields self.now) }
    {
        put_u64(out, IMAGE_BASE)?;
        put_u32(out, PAGE as u32)?;
        put_u32(out, FILE_ALIGNMENT as u32)?;
        put_zeros(out, VERSION_FIELDS_SIZE)?;
        put_u32(out, end_of(&self.sections) as u32)?;
        put_u32(out, SIZE_OF_HEADERS as u32)?;
        put_u32(out, 0)?;
        put_u16(out, IMAGE_SUBSYSTEM_WINDOWS_CUI)?;
        put_zeros(out, STACK_FIELDS_SIZE)?;
        put_u32(out, IMAGE_NUMBEROF_DIRECTORY_ENTRIES as u32)
    }

    #[tactic(auto, unfolding(crate::specs::Written::directories), using(crate::proofs::Pieces::pieces))]
    fn put_directories(&self, out: &mut Vec<u8>) -> Result<(), AllocError>
        ensures { OnOk result (out.new.items ≡ out.old.items ++ spec.directories self.now) }
    {
        put_empty(out, IMAGE_DIRECTORY_ENTRY_IMPORT)?;
        put_directory(out, self.imports)?;
        put_empty(
            out,
            IMAGE_DIRECTORY_ENTRY_EXCEPTION - IMAGE_DIRECTORY_ENTRY_IMPORT - 1,
        )?;
        put_directory(out, self.exceptions)?;
        put_empty(
            out,
            IMAGE_DIRECTORY_ENTRY_IAT - IMAGE_DIRECTORY_ENTRY_EXCEPTION - 1,
        )?;
        put_directory(out, self.import_addresses)?;
        put_empty(
            out,
            IMAGE_NUMBEROF_DIRECTORY_ENTRIES - IMAGE_DIRECTORY_ENTRY_IAT - 1,
        )
    }

    #[tactic(auto, using(crate::proofs::Pieces::pieces))]
    fn put_table(&self, out: &mut Vec<u8>) -> Result<(), AllocError>
        ensures { OnOk result (out.new.items ≡ out.old.items ++ spec.table_of self.now) }
    {
        put_headers(out, &self.sections)?;
        put_zeros(
            out,
            SECTION_TABLE_SIZE - SECTION_HEADER_SIZE * self.sections.len(),
        )
    }
}

#[tactic(auto, unfolding(crate::specs::Written::dos_header), using(crate::proofs::Pieces::pieces))]
fn put_dos_header(out: &mut Vec<u8>) -> Result<(), AllocError>
    ensures { OnOk result (out.new.items ≡ out.old.items ++ spec.dos_header) }
{
    put_u16(out, IMAGE_DOS_SIGNATURE)?;
    put_zeros(out, DOS_FIELDS_SIZE)?;
    put_u32(out, DOS_HEADER_SIZE as u32)
}

#[tactic(auto, unfolding(crate::specs::Written::directory_entry), using(crate::proofs::Pieces::pieces))]
fn put_directory(out: &mut Vec<u8>, directory: DataDirectory) -> Result<(), AllocError>
    ensures { OnOk result (out.new.items ≡ out.old.items ++ spec.directory_entry directory) }
{
    put_u32(out, directory.rva)?;
    put_u32(out, directory.size)
}

/// So many directories that are empty.
fn put_empty(out: &mut Vec<u8>, count: usize) -> Result<(), AllocError>
    requires { count ≤ IMAGE_NUMBEROF_DIRECTORY_ENTRIES }
    ensures { OnOk result (out.new.items ≡ out.old.items ++ spec.empty_directories count) }
{
    put_zeros(out, DIRECTORY_SIZE * count)
}

/// The bytes of a vector are octets.
fn are_octets(bytes: &Vec<u8>)
    ensures { (i : ℕ) → get_or bytes.now.items i 0 < 256 }
{
    let _all = &bytes[..];
}

/// The bytes of an image: 1,024 bytes of headers, and the raw data of each section, filled up with
/// zeros to a multiple of 512.
#[tactic(auto, unfolding(crate::specs::Written::written), using(crate::proofs::Pieces::pieces))]
pub fn write_sections(alloc: Global, image: &SectionedImage<'_>) -> Result<Vec<u8>, AllocError>
    ensures written { IfOk result (λ bytes. bytes.items ≡ spec.written image.now) }
    ensures octets { IfOk result (λ bytes. AllByRecursion (λ (b : ℕ). b < 256) bytes.items) }
    ensures fits { OnOk result (spec.CanBeWritten image.now) }
{
    let mut out = Vec::new(alloc);
    put_dos_header(&mut out)?;
    image.put_file_header(&mut out)?;
    image.put_standard_fields(&mut out)?;
    image.put_windows_fields(&mut out)?;
    image.put_directories(&mut out)?;
    image.put_table(&mut out)?;
    put_data(&mut out, &image.sections)?;
    are_octets(&out);
    Ok(out)
}
