//! Images of programs, written.

ghost use Rattle.std.specs.Prelude.{◌≡◌, ℕ, ◌^◌, ◌<◌, ◌≤◌, length, OnOk, IfOk, Ok};
ghost use Rattle.std.specs.List.{AllByRecursion};
ghost use Rattle.pe_write.specs.ImportTables.{import_tables};
ghost use Rattle.pe_write.specs.NameTable.{name_table_bytes};
ghost use Rattle.pe_image.specs.Imports.{imports};
ghost use Rattle.pe_write.specs.Program as spec;
ghost use Rattle.pe_image.specs.Reading.{IsImage};
ghost use Rattle.pe_write.specs.Written.{written};

use crate::header::{
    DATA_NAME, IMAGE_SCN_CNT_CODE, IMAGE_SCN_CNT_INITIALIZED_DATA, PDATA_NAME, RDATA_NAME,
    TEXT_NAME, XDATA_NAME,
};
use crate::import_tables::{
    DESCRIPTORS_SIZE, addresses_size, import_tables, slots_offset, tables_size,
};
use crate::name_table::{NamedRange, name_table, name_table_size};
use crate::parts::ImageSection;
use crate::sizes::Sizes;
use crate::writing::{SectionedImage, write_sections};
use host_layout::imported::ImportedService;
use pe_image::DataDirectory;
use pe_image::layout::{
    IMAGE_SCN_MEM_EXECUTE, IMAGE_SCN_MEM_READ, IMAGE_SCN_MEM_WRITE, SEHNAME_NAME,
};
use std::alloc::{AllocError, Global};
use std::marker::Model;

/// Data, read and written.
const DATA_FLAGS: u32 = IMAGE_SCN_CNT_INITIALIZED_DATA | IMAGE_SCN_MEM_READ | IMAGE_SCN_MEM_WRITE;

/// Code, read and executed.
const TEXT_FLAGS: u32 = IMAGE_SCN_CNT_CODE | IMAGE_SCN_MEM_EXECUTE | IMAGE_SCN_MEM_READ;

/// Data, read.
const CONST_FLAGS: u32 = IMAGE_SCN_CNT_INITIALIZED_DATA | IMAGE_SCN_MEM_READ;

/// The image of a program for x64, at the base 0x140000000.
#[derive(Drop)]
pub struct Image<'a> {
    imports: Vec<ImportedService>,
    data_size: u32,
    data_bytes: Vec<u8>,
    text: Vec<u8>,
    entry: u32,
    xdata: Vec<u8>,
    pdata: Vec<u8>,
    names: Vec<NamedRange<'a>>,
}

impl<'a> Model for Image<'a> {
    ghost use Rattle.pe_write.specs.Program.{ImageContents, CanBeImage};

    ghost Value = { ImageContents };

    ghost view = { λ p. record {
      imports = p.imports.items;
      data_size = p.data_size;
      data_bytes = p.data_bytes.items;
      text = p.text.items;
      entry = p.entry;
      xdata = p.xdata.items;
      pdata = p.pdata.items;
      names = p.names.items;
    } };

    ghost invariant = { λ p. CanBeImage (record {
      imports = p.imports.items;
      data_size = p.data_size;
      data_bytes = p.data_bytes.items;
      text = p.text.items;
      entry = p.entry;
      xdata = p.xdata.items;
      pdata = p.pdata.items;
      names = p.names.items;
    }) };
}

impl<'a> Image<'a> {
    /// The image of a program that imports the services `imports`, fewer than 65,536, in the order
    /// of their slots; whose data takes `data_size` bytes, whole pages and at least one, of which
    /// `data_bytes` are stored and the others are 0; whose code `text` it begins `entry` bytes
    /// after its front; whose unwind infos are `xdata` and its function table `pdata`; and whose
    /// table of names has the rows `names`. All addresses in it are below 2^32.
    pub fn new(
        imports: Vec<ImportedService>,
        data_size: u32,
        data_bytes: Vec<u8>,
        text: Vec<u8>,
        entry: u32,
        xdata: Vec<u8>,
        pdata: Vec<u8>,
        names: Vec<NamedRange<'a>>,
    ) -> Image<'a>
        requires { spec.CanBeImage (record {
          imports = imports.items;
          data_size = data_size;
          data_bytes = data_bytes.items;
          text = text.items;
          entry = entry;
          xdata = xdata.items;
          pdata = pdata.items;
          names = names.items;
        }) }
        ensures { result ≡ record {
          imports = imports.items;
          data_size = data_size;
          data_bytes = data_bytes.items;
          text = text.items;
          entry = entry;
          xdata = xdata.items;
          pdata = pdata.items;
          names = names.entry.items;
        } }
    {
        Image {
            imports,
            data_size,
            data_bytes,
            text,
            entry,
            xdata,
            pdata,
            names,
        }
    }

    /// The sizes of its sections, which say where they lie.
    pub fn sizes(&self) -> Sizes
        ensures value { result ≡ spec.sizes_of self.now }
        ensures program { spec.CanBeImage self.now }
    {
        Sizes {
            data_size: self.data_size,
            text_size: self.text.len() as u32,
            rdata_size: tables_size(&self.imports),
            xdata_size: self.xdata.len() as u32,
            pdata_size: self.pdata.len() as u32,
            names_size: name_table_size(&self.names),
        }
    }

    fn sections<'b>(
        &'b self,
        alloc: Global,
        tables: &'b [u8],
        names: &'b [u8],
    ) -> Result<Vec<ImageSection<'b>>, AllocError>
        requires tables { tables.now
            ≡ import_tables (self.now).imports (spec.rdata_at (spec.sizes_of self.now)) }
        requires names { names.now
            ≡ name_table_bytes (self.now).names (spec.names_at (spec.sizes_of self.now)) }
        ensures { IfOk result (λ v. v.items ≡ (spec.parts_of self.now).sections) }
    {
        let sizes = self.sizes();
        let mut sections = Vec::new(alloc);
        sections.push(ImageSection::new(DATA_NAME, DATA_FLAGS, sizes.data_size, &self.data_bytes))?;
        sections.push(ImageSection::new(TEXT_NAME, TEXT_FLAGS, sizes.text_size, &self.text))?;
        sections.push(ImageSection::new(RDATA_NAME, CONST_FLAGS, sizes.rdata_size, tables))?;
        sections.push(ImageSection::new(XDATA_NAME, CONST_FLAGS, sizes.xdata_size, &self.xdata))?;
        sections.push(ImageSection::new(PDATA_NAME, CONST_FLAGS, sizes.pdata_size, &self.pdata))?;
        if self.names.len() != 0 {
            sections.push(ImageSection::new(SEHNAME_NAME, CONST_FLAGS, sizes.names_size, names))?;
        }
        Ok(sections)
    }

    fn with_sections<'b>(&self, sections: Vec<ImageSection<'b>>) -> SectionedImage<'b>
        requires { sections.items ≡ (spec.parts_of self.now).sections }
        ensures { result ≡ spec.parts_of self.now }
    {
        let sizes = self.sizes();
        let rdata = sizes.rdata_at() as u32;
        SectionedImage::new(
            sizes.text_at() as u32 + self.entry,
            sections,
            DataDirectory {
                rva: rdata,
                size: DESCRIPTORS_SIZE,
            },
            DataDirectory {
                rva: sizes.pdata_at() as u32,
                size: sizes.pdata_size,
            },
            DataDirectory {
                rva: rdata + slots_offset(&self.imports),
                size: addresses_size(&self.imports),
            },
        )
    }
}

/// The bytes of an image, in the one form in which an image is written: 1,024 bytes of headers, and
/// the raw data of `.data`, `.text`, `.rdata`, `.xdata` and `.pdata`, each filled up with zeros to
/// a multiple of 512. `.rdata` has the tables by which it imports services of its host. Where its
/// functions have names, `.sehname` with their table comes last. They are read again as the same
/// image, with each service at its slot, and are no more than the image takes in memory.
pub fn write(alloc: Global, image: &Image<'_>) -> Result<Vec<u8>, AllocError>
    ensures written { IfOk result (λ bytes. bytes.items ≡ written (spec.parts_of image.now)) }
    ensures octets { IfOk result (λ bytes. AllByRecursion (λ (b : ℕ). b < 256) bytes.items) }
    ensures read_again { IfOk result (λ bytes. IsImage bytes.items (spec.image_of image.now)) }
    ensures small { IfOk result
        (λ bytes. length bytes.items ≤ spec.end_at (spec.sizes_of image.now)) }
    ensures imported { OnOk result
        (imports (spec.image_of image.now) ≡ Ok (spec.imports_of image.now)) }
{
    let sizes = image.sizes();
    let tables = import_tables(alloc, &image.imports, sizes.rdata_at() as u32)?;
    let names = name_table(alloc, &image.names, sizes.names_at() as u32)?;
    let sections = image.sections(alloc, &tables, &names)?;
    write_sections(alloc, &image.with_sections(sections))
}
