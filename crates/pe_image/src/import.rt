//! One import of an image.

ghost use Rattle.std.specs.Prelude.{◌≡◌, ◌≤◌, ◌<◌, ◌+◌, ◌^◌, length, option_map, IfSome};
ghost use Rattle.pe_image.specs.Image.{AreAscending, stored};
ghost use Rattle.pe_image.specs.Imports as spec;
ghost use Rattle.pe_image.specs.Names.{EndsAt, AreEnds};

use crate::layout::{HINT_SIZE, IMAGE_ORDINAL_FLAG64, LOOKUP_ENTRY_SIZE};
use crate::names::read_name;
use crate::section::{SectionView, stored_from};
use std::collections::BTreeMap;
use std::marker::Model;

/// A name that an image imports, and the address of its slot in the import address table, relative
/// to the image base.
#[derive(Drop)]
pub struct Import<'a> {
    name: &'a [u8],
    slot: u64,
}

impl<'a> Model for Import<'a> {
    ghost use Rattle.pe_image.specs.Imports.{Import};

    ghost Value = { Import };

    ghost view = { λ i. record { name = i.name.now; slot = i.slot } };
}

impl<'a> Import<'a> {
    /// The name, without the 0 that ends it.
    pub fn name(&self) -> &'a [u8]
        ensures { result.now ≡ self.now.name }
    {
        self.name
    }

    /// Where the address of what it names is to be put.
    pub fn slot(&self) -> u64
        ensures { result ≡ self.now.slot }
    {
        self.slot
    }
}

/// The bytes of a range that one of ascending sections stores whole.
pub fn stored<'a>(sections: &[SectionView<'a>], rva: u64, len: u64) -> Option<&'a [u8]>
    requires { AreAscending 0 sections.now }
    ensures { option_map (λ b. b.now) result ≡ stored sections.now rva len }
{
    let stored = stored_from(sections, rva);
    if len <= stored.len() as u64 {
        Some(&stored[..len as usize])
    } else {
        None
    }
}

/// The import of a lookup entry, for that slot.
pub fn read_import<'a>(
    ends: &BTreeMap<u64, u64>,
    sections: &[SectionView<'a>],
    slot: u64,
    entry: u64,
) -> Option<Import<'a>>
    requires ascending { AreAscending 0 sections.now }
    requires ends { AreEnds sections.now ends.now }
    ensures import { result ≡ spec.import_at sections.now slot entry }
    ensures end { IfSome result (λ i. EndsAt sections.now (entry + HINT_SIZE)
        (entry + HINT_SIZE + length i.name)) }
    ensures fits { IfSome result (λ i. entry + HINT_SIZE + length i.name < 2 ^ 64) }
{
    if IMAGE_ORDINAL_FLAG64 <= entry {
        return None;
    }
    let name = read_name(ends, sections, entry)?;
    stored(sections, slot, LOOKUP_ENTRY_SIZE)?;
    Some(Import { name, slot })
}
