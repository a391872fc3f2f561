//! The check that the imports of an image can be read.

ghost use Rattle.std.specs.Prelude.{◌≡◌, ◌≤◌, ◌<◌, ◌+◌, ◌^◌, IsOk, IfOk, IfErr, OnOk};
ghost use Rattle.pe_image.specs.Answer.{Gives, Refuses};
ghost use Rattle.pe_image.specs.Image.{AreAscending};
ghost use Rattle.pe_image.specs.Imports as spec;
ghost use Rattle.pe_image.specs.Names.{AreEnds};

use crate::descriptor::{is_zero, lookups, slots};
use crate::directory::DataDirectory;
use crate::fields::u64_at;
use crate::import::{read_import, stored};
use crate::layout::{ADDRESS_COUNT, DESCRIPTOR_SIZE, HINT_SIZE, LOOKUP_ENTRY_SIZE};
use crate::names::keep_end;
use crate::refusal::ImageErr;
use crate::section::SectionView;
use std::alloc::Global;
use std::collections::BTreeMap;

/// Checks the imports of a library, whose lookup table and slots begin there, after so many of
/// others, and counts them too. The ends of their names are kept.
fn check_library(
    ends: &mut BTreeMap<u64, u64>,
    sections: &[SectionView<'_>],
    index: u64,
    lookups: u64,
    slots: u64,
) -> Result<u64, ImageErr>
    requires ascending { AreAscending 0 sections.now }
    requires lookups { lookups < 2 ^ 32 }
    requires slots { slots < 2 ^ 32 }
    requires room { index + ADDRESS_COUNT < 2 ^ 64 }
    requires ends { AreEnds sections.now ends.old }
    ensures count { Gives (λ n. n) result
        (spec.counted index (spec.library spec.max_count sections.now index lookups slots)) }
    ensures few { IfOk result (λ n. n < index + ADDRESS_COUNT) }
    ensures ends { OnOk result (AreEnds sections.now ends.new) }
{
    for n in 0..ADDRESS_COUNT {
        let index = index + n;
        let Some(entry) = stored(sections, lookups + LOOKUP_ENTRY_SIZE * n, LOOKUP_ENTRY_SIZE)
        else {
            return Err(ImageErr::ImportBad { index });
        };
        let entry = u64_at(entry, 0);
        if entry == 0 {
            return Ok(index);
        }
        let slot = slots + LOOKUP_ENTRY_SIZE * n;
        let Some(import) = read_import(ends, sections, slot, entry) else {
            return Err(ImageErr::ImportBad { index });
        };
        let from = entry + HINT_SIZE as u64;
        let name = import.name();
        keep_end(ends, from, from + name.len() as u64)?;
    }
    Err(ImageErr::ImportBad {
        index: index + ADDRESS_COUNT,
    })
}

/// Checks the imports of all libraries, whose descriptors a directory names. Answers where their
/// names end.
pub fn check_imports(
    alloc: Global,
    sections: &[SectionView<'_>],
    directory: DataDirectory,
) -> Result<BTreeMap<u64, u64>, ImageErr>
    requires { AreAscending 0 sections.now }
    ensures read { OnOk result (IsOk (spec.imports_in sections.now directory)) }
    ensures refused { IfErr result (λ e. Refuses e (spec.imports_in sections.now directory)) }
    ensures ends { IfOk result (λ ends. AreEnds sections.now ends) }
{
    let mut ends = BTreeMap::new(alloc);
    if directory.size == 0 {
        return Ok(ends);
    }
    let mut index = 0;
    for n in 0..ADDRESS_COUNT {
        let at = directory.rva as u64 + DESCRIPTOR_SIZE * n;
        let Some(descriptor) = stored(sections, at, DESCRIPTOR_SIZE) else {
            return Err(ImageErr::ImportBad { index });
        };
        if is_zero(descriptor) {
            return Ok(ends);
        }
        let lookups = lookups(descriptor);
        index = check_library(&mut ends, sections, index, lookups, slots(descriptor))?;
    }
    Err(ImageErr::ImportBad { index })
}
