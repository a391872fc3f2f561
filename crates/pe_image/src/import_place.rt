//! Places in the list of imports.

ghost use Rattle.std.specs.Prelude.{◌≡◌, ◌≤◌, ◌<◌, ◌+◌, ◌++◌, ◌∷◌, [], IfSome, IfNone};
ghost use Rattle.pe_image.specs.Image.{AreAscending};
ghost use Rattle.pe_image.specs.Imports.{or_none};
ghost use Rattle.pe_image.specs.ImportsLeft.{entries, others, table_left, left};
ghost use Rattle.pe_image.specs.ImportsLeft.{CanReadTable, CanReadOthers, CanRead};
ghost use Rattle.pe_image.specs.Names.{AreEnds};

use crate::descriptor::{is_zero, lookups, slots};
use crate::directory::DataDirectory;
use crate::fields::u64_at;
use crate::import::{Import, read_import, stored};
use crate::layout::{ADDRESS_COUNT, DESCRIPTOR_SIZE, LOOKUP_ENTRY_SIZE};
use crate::section::SectionView;
use std::collections::BTreeMap;

/// A lookup table and the address table of its slots (PE format, "Import Lookup Table"), and how
/// many of its entries were read.
#[derive(Clone, Copy)]
pub struct LookupTable {
    pub lookups: u64,
    pub slots: u64,
    pub read: u64,
}

/// A place in the list of imports: in a lookup table, if one is begun, before the library with that
/// number in a directory.
#[derive(Clone, Copy)]
pub struct ImportPlace {
    pub directory: DataDirectory,
    pub library: u64,
    pub table: Option<LookupTable>,
}

impl LookupTable {
    /// The import of its next entry, and the table after it, if the entry isn't the last.
    fn next_import<'a>(
        self,
        ends: &BTreeMap<u64, u64>,
        sections: &[SectionView<'a>],
    ) -> Option<(Import<'a>, LookupTable)>
        requires ascending { AreAscending 0 sections.now }
        requires ends { AreEnds sections.now ends.now }
        requires table { CanReadTable sections.now self }
        ensures none { IfNone result (or_none (entries sections.now self) ≡ []) }
        ensures first { IfSome result (λ r. or_none (entries sections.now self)
            ≡ r.0 ∷ or_none (entries sections.now r.1)) }
        ensures table { IfSome result (λ r. CanReadTable sections.now r.1) }
    {
        let at = self.lookups + LOOKUP_ENTRY_SIZE * self.read;
        let entry = u64_at(stored(sections, at, LOOKUP_ENTRY_SIZE)?, 0);
        if entry == 0 {
            return None;
        }
        let slot = self.slots + LOOKUP_ENTRY_SIZE * self.read;
        let import = read_import(ends, sections, slot, entry)?;
        Some((
            import,
            LookupTable {
                read: self.read + 1,
                ..self
            },
        ))
    }
}

/// The next import of a table, if there is a table and it isn't at its end.
fn next_in_table<'a>(
    ends: &BTreeMap<u64, u64>,
    sections: &[SectionView<'a>],
    table: Option<LookupTable>,
) -> Option<(Import<'a>, LookupTable)>
    requires ascending { AreAscending 0 sections.now }
    requires ends { AreEnds sections.now ends.now }
    requires table { IfSome table (CanReadTable sections.now) }
    ensures none { IfNone result (table_left sections.now table ≡ []) }
    ensures first { IfSome result (λ r. table_left sections.now table
        ≡ r.0 ∷ or_none (entries sections.now r.1)) }
    ensures table { IfSome result (λ r. CanReadTable sections.now r.1) }
{
    table?.next_import(ends, sections)
}

/// The lookup table of a library by its number, if there is one.
fn library_table(
    sections: &[SectionView<'_>],
    directory: DataDirectory,
    library: u64,
) -> Option<LookupTable>
    requires ascending { AreAscending 0 sections.now }
    requires read { CanReadOthers sections.now directory library }
    ensures none { IfNone result (or_none (others sections.now directory library) ≡ []) }
    ensures first { IfSome result (λ t. or_none (others sections.now directory library)
        ≡ or_none (entries sections.now t)
        ++ or_none (others sections.now directory (library + 1))) }
    ensures table { IfSome result (λ t. CanReadTable sections.now t) }
    ensures others { IfSome result (λ t. CanReadOthers sections.now directory (library + 1)) }
{
    if directory.size == 0 {
        return None;
    }
    let at = directory.rva as u64 + DESCRIPTOR_SIZE * library;
    let descriptor = stored(sections, at, DESCRIPTOR_SIZE)?;
    if is_zero(descriptor) {
        return None;
    }
    Some(LookupTable {
        lookups: lookups(descriptor),
        slots: slots(descriptor),
        read: 0,
    })
}

/// The first import of the libraries from a number on, and the place after it.
fn next_in_libraries<'a>(
    ends: &BTreeMap<u64, u64>,
    sections: &[SectionView<'a>],
    directory: DataDirectory,
    first: u64,
) -> Option<(Import<'a>, ImportPlace)>
    requires ascending { AreAscending 0 sections.now }
    requires ends { AreEnds sections.now ends.now }
    requires read { CanReadOthers sections.now directory first }
    ensures none { IfNone result (or_none (others sections.now directory first) ≡ []) }
    ensures first { IfSome result (λ r. or_none (others sections.now directory first)
        ≡ r.0 ∷ left sections.now r.1) }
    ensures place { IfSome result (λ r. CanRead sections.now r.1) }
{
    for library in first..ADDRESS_COUNT {
        let table = library_table(sections, directory, library)?;
        if let Some((import, table)) = table.next_import(ends, sections) {
            let place = ImportPlace {
                directory,
                library: library + 1,
                table: Some(table),
            };
            return Some((import, place));
        }
    }
    None
}

/// The import at a place, and the place after it.
pub fn next_import<'a>(
    ends: &BTreeMap<u64, u64>,
    sections: &[SectionView<'a>],
    place: ImportPlace,
) -> Option<(Import<'a>, ImportPlace)>
    requires ascending { AreAscending 0 sections.now }
    requires ends { AreEnds sections.now ends.now }
    requires place { CanRead sections.now place }
    ensures none { IfNone result (left sections.now place ≡ []) }
    ensures first { IfSome result (λ r. left sections.now place ≡ r.0 ∷ left sections.now r.1) }
    ensures place { IfSome result (λ r. CanRead sections.now r.1) }
{
    if let Some((import, table)) = next_in_table(ends, sections, place.table) {
        let table = Some(table);
        return Some((import, ImportPlace { table, ..place }));
    }
    next_in_libraries(ends, sections, place.directory, place.library)
}
