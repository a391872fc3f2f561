//! An image that was read.

ghost use Rattle.std.specs.Prelude.{◌≡◌, ◌<◌, ◌^◌, Ok, Err, length, option_map, IfOk, IfErr};
ghost use Rattle.pe_image.specs.Image.{AreAscending, section_at, stored, stored_in};
ghost use Rattle.pe_image.specs.Bound.{bound_name};
ghost use Rattle.pe_image.specs.Imports.{imports, imports_of};
ghost use Rattle.pe_image.specs.NameRows.{names_of};
ghost use Rattle.pe_image.specs.Answer.{Refuses};
ghost use Rattle.pe_image.specs.Reading.{HasHeaders, IsImage, ImageIsRefused};
ghost use Rattle.pe_image.specs.Reading.{sectioned_importing, reading_in, outline_alone};

use crate::directory::{DataDirectory, NO_TABLE};
use crate::image_layout::ImageLayout;
use crate::import::stored;
use crate::import_check::check_imports;
use crate::imports::{Imports, bound_names};
use crate::layout::{IMAGE_DIRECTORY_ENTRY_EXCEPTION, IMAGE_DIRECTORY_ENTRY_IMPORT};
use crate::name_table::{NameErr, NameTable, first_rows};
use crate::reading::{
    check_headers, directory, entry_point, image_base, image_end, image_size, section_count,
    sections_at,
};
use crate::refusal::ImageErr;
use crate::section::{SectionView, stored_from};
use crate::table::sections;
use std::alloc::{AllocError, Global};
use std::collections::BTreeMap;
use std::marker::Model;

/// An image in bytes, with its sections found. A clause sees the image as it is read.
#[derive(Drop)]
pub struct ImageView<'a> {
    base: u64,
    entry: u32,
    size: u32,
    sections: Vec<SectionView<'a>>,
    import_directory: DataDirectory,
    exceptions: DataDirectory,
    name_ends: BTreeMap<u64, u64>,
    names: BTreeMap<u64, &'a [u8]>,
    /// The first row of each number in the table of names, if they were found.
    first_rows: Option<BTreeMap<u32, u32>>,
}

impl<'a> Model for ImageView<'a> {
    ghost use Rattle.std.specs.Prelude.{◌≡◌, ℕ, IsOk, IfSome, option_map};
    ghost use Rattle.std.specs.Ordering.{nat_cmp};
    ghost use Rattle.std.specs.BTreeMap.{get};
    ghost use Rattle.pe_image.specs.Bound.{bound_name};
    ghost use Rattle.pe_image.specs.Image.{Image, AreAscending, section_named};
    ghost use Rattle.pe_image.specs.Imports.{imports_in, or_none};
    ghost use Rattle.pe_image.specs.NameRows.{AreFirstRows, names_in, rows_read};
    ghost use Rattle.pe_image.specs.Names.{AreEnds};
    ghost use Rattle.pe_image.specs.declared.layout.TheConstants.{SEHNAME_NAME};

    ghost Value = { Image };

    ghost view = { λ v. record {
      base = v.base;
      entry = v.entry;
      size = v.size;
      sections = v.sections.items;
      imports = v.import_directory;
      exceptions = v.exceptions;
    } };

    ghost invariant = { λ v. (AreAscending 0 v.sections.items)
        × (IsOk (imports_in v.sections.items v.import_directory))
        × (AreEnds v.sections.items v.name_ends)
        × ((slot : ℕ) → option_map (λ b. b.now) (get nat_cmp v.names slot)
        ≡ bound_name slot (or_none (imports_in v.sections.items v.import_directory)))
        × (IfSome v.first_rows (λ m. AreFirstRows m
        (rows_read (names_in (section_named SEHNAME_NAME v.sections.items))))) };
}

impl<'a> ImageView<'a> {
    /// Reads the bytes of a file. The checks of the headers come first, from the front, and then
    /// those of each section: its raw data lies in the file, and it begins on a page, at or above
    /// the end of the section before, and ends within SizeOfImage rounded up to whole pages. Last
    /// come the imports, library by library: none is by ordinal, and its descriptor, its entry in
    /// the lookup table, its name and its slot are each stored whole in one section.
    pub fn read(alloc: Global, bytes: &'a [u8]) -> Result<ImageView<'a>, ImageErr>
        ensures image { IfOk result (λ view. IsImage bytes.now view) }
        ensures refusal { IfErr result (λ e. ImageIsRefused bytes.now e) }
    {
        let view = ImageView::read_in(alloc, bytes, ImageLayout::File)?;
        Ok(view.with_first_rows(alloc)?)
    }

    /// Reads an image in a layout, with the checks of [`ImageView::read`]. Of a mapped image all of
    /// a section's size lies in the bytes, and the slots of imports may be bound.
    pub fn read_in(
        alloc: Global,
        bytes: &'a [u8],
        layout: ImageLayout,
    ) -> Result<ImageView<'a>, ImageErr>
        ensures image { IfOk result (λ view. reading_in layout bytes.now ≡ Ok view) }
        ensures refusal { IfErr result (λ e. Refuses e (reading_in layout bytes.now)) }
    {
        check_headers(bytes)?;
        let imports = directory(bytes, IMAGE_DIRECTORY_ENTRY_IMPORT);
        ImageView::importing(alloc, bytes, layout, imports)
    }

    /// Reads an image without what it imports: the view imports nothing. The checks are those of
    /// [`ImageView::read_in`] up to the last section, so that no import is refused.
    pub fn read_outline(
        alloc: Global,
        bytes: &'a [u8],
        layout: ImageLayout,
    ) -> Result<ImageView<'a>, ImageErr>
        ensures image { IfOk result (λ view. outline_alone layout bytes.now ≡ Ok view) }
        ensures refusal { IfErr result (λ e. Refuses e (outline_alone layout bytes.now)) }
    {
        check_headers(bytes)?;
        ImageView::importing(alloc, bytes, layout, NO_TABLE)
    }

    /// The image of bytes whose headers were checked, which imports what a directory names.
    fn importing(
        alloc: Global,
        bytes: &'a [u8],
        layout: ImageLayout,
        import_directory: DataDirectory,
    ) -> Result<ImageView<'a>, ImageErr>
        requires { HasHeaders bytes.now }
        ensures image { IfOk result (λ view.
            sectioned_importing import_directory layout bytes.now ≡ Ok view) }
        ensures refusal { IfErr result (λ e.
            Refuses e (sectioned_importing import_directory layout bytes.now)) }
    {
        let at = sections_at(bytes);
        let count = section_count(bytes);
        let sections = sections(alloc, bytes, layout, at, count, image_end(bytes))?;
        let name_ends = check_imports(alloc, &sections, import_directory)?;
        let imports = Imports::new(&sections, &name_ends, import_directory);
        let names = bound_names(alloc, imports)?;
        Ok(ImageView {
            base: image_base(bytes),
            entry: entry_point(bytes),
            size: image_size(bytes),
            sections,
            import_directory,
            exceptions: directory(bytes, IMAGE_DIRECTORY_ENTRY_EXCEPTION),
            name_ends,
            names,
            first_rows: None,
        })
    }

    /// The same, which has found the first row of each number in the table of names.
    fn with_first_rows(mut self, alloc: Global) -> Result<ImageView<'a>, AllocError>
        ensures { IfOk result (λ view. view ≡ self.entry) }
    {
        self.first_rows = Some(first_rows(alloc, &self.sections)?);
        Ok(self)
    }

    /// The image base, at which the image lies in memory.
    pub fn base(&self) -> u64
        ensures { result ≡ self.now.base }
    {
        self.base
    }

    /// The entry point, relative to the image base.
    pub fn entry(&self) -> u64
        ensures value { result ≡ self.now.entry }
        ensures fits { result < 2 ^ 32 }
    {
        self.entry as u64
    }

    /// How many bytes it takes in memory, its headers counted: the field SizeOfImage.
    pub fn size(&self) -> u64
        ensures value { result ≡ self.now.size }
        ensures fits { result < 2 ^ 32 }
    {
        self.size as u64
    }

    /// Where the import descriptors lie.
    pub fn import_directory(&self) -> DataDirectory
        ensures { result ≡ self.now.imports }
    {
        self.import_directory
    }

    /// The names that it imports with their slots, library by library. The names of libraries
    /// aren't looked at.
    pub fn imports(&self) -> Imports<'_, 'a>
        ensures value { result ≡ imports_of self.now }
        ensures read { imports self.now ≡ Ok result }
        ensures fits { length result < 2 ^ 64 }
    {
        Imports::new(&self.sections, &self.name_ends, self.import_directory)
    }

    /// The name that a slot is bound to: that of the last import that has the slot.
    pub fn bound_name(&self, slot: u64) -> Option<&'a [u8]>
        ensures { option_map (λ b. b.now) result ≡ bound_name slot (imports_of self.now) }
    {
        self.names.get(&slot).copied()
    }

    /// The names of its functions: the table in its first section that is called `.sehname`. An
    /// image without such a section has none. Of a mapped image all of the section's size is read,
    /// as of each of its sections.
    #[tactic(auto, unfolding(crate::specs::NameRows::names_of))]
    pub fn names(&self) -> Result<NameTable<'_>, NameErr>
        ensures rows { IfOk result (λ t. names_of self.now ≡ Ok t) }
        ensures refusal { IfErr result (λ e. names_of self.now ≡ Err e) }
    {
        NameTable::in_sections(&self.sections, self.first_rows.as_ref())
    }

    /// Where the function table lies.
    pub fn exception_directory(&self) -> DataDirectory
        ensures { result ≡ self.now.exceptions }
    {
        self.exceptions
    }

    /// The sections in their order, which is that of their addresses.
    pub fn sections(&self) -> &[SectionView<'a>]
        ensures value { result.now ≡ self.now.sections }
        ensures ascending { AreAscending 0 self.now.sections }
    {
        &self.sections
    }

    /// The bytes of a range, where all of them are stored in one section, below its size. A range
    /// of no bytes is stored everywhere.
    pub fn bytes(&self, rva: u64, len: u64) -> Option<&'a [u8]>
        ensures { option_map (λ b. b.now) result ≡ stored self.now.sections rva len }
    {
        stored(&self.sections, rva, len)
    }

    /// The bytes from an address on that one section stores, below its size.
    pub fn bytes_from(&self, rva: u64) -> &'a [u8]
        ensures value { result.now ≡ stored_in rva (section_at rva self.now.sections) }
        ensures ascending { AreAscending 0 self.now.sections }
    {
        stored_from(&self.sections, rva)
    }
}
