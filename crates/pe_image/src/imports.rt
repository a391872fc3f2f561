//! What an image imports.

ghost use Rattle.std.specs.Prelude.{◌≡◌, ℕ, option_map, IsOk, IfOk};
ghost use Rattle.std.specs.Ordering.{nat_cmp};
ghost use Rattle.std.specs.BTreeMap.{get};
ghost use Rattle.pe_image.specs.Image.{AreAscending};
ghost use Rattle.pe_image.specs.Bound.{bound_name};
ghost use Rattle.pe_image.specs.Imports.{imports_in, or_none};
ghost use Rattle.pe_image.specs.Names.{AreEnds};

use crate::directory::DataDirectory;
use crate::import::Import;
use crate::import_place::{ImportPlace, next_import};
use crate::section::SectionView;
use std::alloc::{AllocError, Global};
use std::collections::BTreeMap;
use std::marker::Model;

/// The names that an image imports with their slots, library by library. Each is read when it is
/// asked for, so that the list takes no memory, however many libraries share a lookup table. A
/// clause sees the list of those that are left.
#[derive(Drop)]
pub struct Imports<'v, 'a> {
    sections: &'v [SectionView<'a>],
    ends: &'v BTreeMap<u64, u64>,
    place: ImportPlace,
}

impl<'v, 'a> Model for Imports<'v, 'a> {
    ghost use Rattle.std.specs.Prelude.{List};
    ghost use Rattle.pe_image.specs.Image.{AreAscending};
    ghost use Rattle.pe_image.specs.Imports.{Import};
    ghost use Rattle.pe_image.specs.ImportsLeft.{left, CanRead};
    ghost use Rattle.pe_image.specs.Names.{AreEnds};

    ghost Value = { List Import };

    ghost view = { λ i. left i.sections.now i.place };

    ghost invariant = { λ i. (AreAscending 0 i.sections.now)
        × (AreEnds i.sections.now i.ends.now)
        × (CanRead i.sections.now i.place) };
}

impl<'v, 'a> Imports<'v, 'a> {
    /// Those of the libraries that a directory names; `ends` tells where their names end.
    pub(crate) fn new(
        sections: &'v [SectionView<'a>],
        ends: &'v BTreeMap<u64, u64>,
        directory: DataDirectory,
    ) -> Imports<'v, 'a>
        requires ascending { AreAscending 0 sections.now }
        requires ends { AreEnds sections.now ends.now }
        requires read { IsOk (imports_in sections.now directory) }
        ensures { result ≡ or_none (imports_in sections.now directory) }
    {
        Imports {
            sections,
            ends,
            place: ImportPlace {
                directory,
                library: 0,
                table: None,
            },
        }
    }
}

impl<'v, 'a> Iterator for Imports<'v, 'a> {
    type Item = Import<'a>;

    ghost use Rattle.std.specs.Iterator.{YieldsFirst, item_count};

    ghost next_gives = { YieldsFirst (λ i. i) };

    ghost remaining = { item_count (λ i. i) };

    fn next(&mut self) -> Option<Import<'a>> {
        let (import, place) = next_import(self.ends, self.sections, self.place)?;
        self.place = place;
        Some(import)
    }
}

/// Each slot with the name of the last import that has it.
pub fn bound_names<'a>(
    alloc: Global,
    imports: Imports<'_, 'a>,
) -> Result<BTreeMap<u64, &'a [u8]>, AllocError>
    ensures { IfOk result (λ names. (slot : ℕ)
        → option_map (λ b. b.now) (get nat_cmp names slot) ≡ bound_name slot imports.entry) }
{
    let mut names = BTreeMap::new(alloc);
    for import in imports {
        names.insert(import.slot(), import.name())?;
    }
    Ok(names)
}
