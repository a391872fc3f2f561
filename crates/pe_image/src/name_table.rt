//! The table of names: where the code of each function lies, and what the function is called.

ghost use Rattle.std.specs.Prelude.{◌≡◌, ◌<◌, ◌≤◌, ◌^◌, ◌+◌, ℕ, [], nat_lt, drop, length, is_some, option_map, slice_index_or, Some, IfOk, IfErr, IfSome, Ok, Err};
ghost use Rattle.pe_image.specs.Image.{section_named};
ghost use Rattle.pe_image.specs.Imports.{terminated};
ghost use Rattle.pe_image.specs.NameRows as spec;
ghost use Rattle.pe_image.specs.declared.layout.TheConstants.{SEHNAME_NAME};

use crate::fields::u32_at;
use crate::layout::{
    NAME_COUNT_SIZE, NAME_ROW_END, NAME_ROW_NAME, NAME_ROW_NUMBER, NAME_ROW_SIZE, SEHNAME_NAME,
};
use crate::names::first_zero;
use crate::section::{SectionView, section_named};
use std::alloc::{AllocError, Global};
use std::collections::BTreeMap;
use std::marker::Model;

/// The first row of a table of names that isn't right, by its index.
#[derive(Clone, Copy, Debug, PartialEq, Eq)]
pub struct NameErr {
    pub row: u64,
}

/// The range of a part of a function's code, and the function's number.
#[derive(Clone, Copy)]
struct NamedRange {
    begin: u32,
    end: u32,
    number: u32,
}

/// What a section with a table of names stores, and where it lies.
#[derive(Drop)]
struct NameSection<'a> {
    address: u64,
    raw: &'a [u8],
}

impl<'a> Model for NameSection<'a> {
    ghost use Rattle.pe_image.specs.NameRows.{NameSection};

    ghost Value = { NameSection };

    ghost view = { λ s. record { address = s.address; raw = s.raw.now } };
}

/// The rows of a table that were read. A clause sees them, and they ascend.
#[derive(Drop)]
struct NameRows<'a> {
    section: NameSection<'a>,
    count: u32,
}

impl<'a> Model for NameRows<'a> {
    ghost use Rattle.std.specs.Prelude.{◌≡◌, List, Ok};
    ghost use Rattle.pe_image.specs.NameRows.{NameRow, rows_from, rows_read};

    ghost Value = { List NameRow };

    ghost view = { λ t. rows_read (rows_from t.section t.count 0 0) };

    ghost invariant = { λ t. rows_from t.section t.count 0 0
        ≡ Ok (rows_read (rows_from t.section t.count 0 0)) };
}

/// Where bytes end whose last is the last 0: from each place before it on there is a 0, and from
/// no other.
fn zero_end(bytes: &[u8]) -> usize
    ensures within { result ≤ length bytes.now }
    ensures zeros { (k : ℕ) → is_some (terminated (drop k bytes.now)) ≡ nat_lt k result }
{
    let mut end = bytes.len();
    while end > 0 {
        if bytes[end - 1] == 0 {
            return end;
        }
        end -= 1;
    }
    0
}

impl<'a> NameSection<'a> {
    /// The range and the number of a row.
    fn range(&self, index: u32) -> NamedRange
        requires { spec.place_of index + NAME_ROW_SIZE ≤ length self.now.raw }
        ensures begin { result.begin ≡ spec.begin_in self.now (spec.place_of index) }
        ensures end { result.end ≡ spec.end_in self.now (spec.place_of index) }
        ensures number { result.number ≡ spec.number_in self.now (spec.place_of index) }
    {
        let at = NAME_COUNT_SIZE + NAME_ROW_SIZE * index as usize;
        NamedRange {
            begin: u32_at(self.raw, at),
            end: u32_at(self.raw, at + NAME_ROW_END),
            number: u32_at(self.raw, at + NAME_ROW_NUMBER),
        }
    }

    /// The name of a row, if it is ended in the section.
    fn name(&self, index: u32) -> Option<&'a [u8]>
        requires { spec.place_of index + NAME_ROW_SIZE ≤ length self.now.raw }
        ensures { option_map (λ b. b.now) result
            ≡ spec.name_in self.now (spec.place_of index) }
    {
        let at = NAME_COUNT_SIZE + NAME_ROW_SIZE * index as usize;
        let name = u32_at(self.raw, at + NAME_ROW_NAME) as u64;
        if name < self.address {
            return None;
        }
        let passed = name - self.address;
        if self.raw.len() as u64 <= passed {
            return None;
        }
        let stored = &self.raw[passed as usize..];
        match first_zero(stored) {
            Some(len) => Some(&stored[..len]),
            None => None,
        }
    }

    /// Where the range of a row ends, if the row is right after a range that ends at `last`. From
    /// the places below `zero_end` on there is a 0.
    fn checked_end(&self, zero_end: usize, index: u32, last: u32) -> Option<u32>
        requires zeros { (k : ℕ) → is_some (terminated (drop k self.now.raw)) ≡ nat_lt k zero_end }
        ensures { result ≡ option_map (λ r. r.end) (spec.row_at self.now index last) }
    {
        let at = NAME_COUNT_SIZE + NAME_ROW_SIZE * index as usize;
        if self.raw.len() < at + NAME_ROW_SIZE {
            return None;
        }
        let name = u32_at(self.raw, at + NAME_ROW_NAME) as u64;
        if name < self.address {
            return None;
        }
        if zero_end as u64 <= name - self.address {
            return None;
        }
        let range = self.range(index);
        if range.begin < last {
            return None;
        }
        if range.end <= range.begin {
            return None;
        }
        Some(range.end)
    }
}

impl<'a> NameRows<'a> {
    /// The same rows.
    fn copied(&self) -> NameRows<'a>
        ensures { result ≡ self.now }
    {
        NameRows {
            section: NameSection {
                address: self.section.address,
                raw: self.section.raw,
            },
            count: self.count,
        }
    }

    /// None.
    fn empty() -> NameRows<'a>
        ensures { result ≡ [] }
    {
        NameRows {
            section: NameSection {
                address: 0,
                raw: &[],
            },
            count: 0,
        }
    }

    /// Those of the table in a section, or the first that isn't right.
    fn read(section: &SectionView<'a>) -> Result<NameRows<'a>, NameErr>
        ensures rows { IfOk result (λ t. spec.rows_of (spec.name_section section.now) ≡ Ok t) }
        ensures refusal { IfErr result
            (λ e. spec.rows_of (spec.name_section section.now) ≡ Err e) }
    {
        let raw = section.raw();
        if raw.len() < NAME_COUNT_SIZE {
            return Err(NameErr { row: 0 });
        }
        let stored = NameSection {
            address: section.address(),
            raw,
        };
        let count = u32_at(raw, 0);
        let zeros = zero_end(raw);
        let mut last = 0;
        for index in 0..count {
            let Some(end) = stored.checked_end(zeros, index, last) else {
                return Err(NameErr { row: index as u64 });
            };
            last = end;
        }
        Ok(NameRows {
            section: stored,
            count,
        })
    }

    /// The range and the number of a row.
    fn range(&self, index: u32) -> NamedRange
        requires { index < length self.now }
        ensures begin { result.begin ≡ (slice_index_or self.now index spec.no_row).begin }
        ensures end { result.end ≡ (slice_index_or self.now index spec.no_row).end }
        ensures number { result.number ≡ (slice_index_or self.now index spec.no_row).number }
    {
        self.section.range(index)
    }

    /// The index of the row whose range holds an address.
    fn place(&self, rva: u64) -> Option<u32>
        ensures within { IfSome result (λ k. k < length self.now) }
        ensures row { option_map (λ k. slice_index_or self.now k spec.no_row) result
            ≡ spec.row_holding rva self.now }
    {
        let mut low = 0;
        let mut high = self.count;
        while low < high {
            let middle = low + (high - low) / 2;
            let range = self.range(middle);
            if range.end as u64 <= rva {
                low = middle + 1;
            } else if rva < range.begin as u64 {
                high = middle;
            } else {
                return Some(middle);
            }
        }
        None
    }

    /// The row whose range holds an address: where the range begins, and the function's number.
    fn row(&self, rva: u64) -> Option<(u64, u32)>
        ensures { result ≡ option_map (λ r. (r.begin, r.number)) (spec.row_holding rva self.now) }
    {
        let index = self.place(rva)?;
        let range = self.range(index);
        Some((range.begin as u64, range.number))
    }

    /// The name of a row.
    fn name(&self, index: u32) -> Option<&'a [u8]>
        requires { index < length self.now }
        ensures { option_map (λ b. b.now) result
            ≡ Some (slice_index_or self.now index spec.no_row).name }
    {
        self.section.name(index)
    }

    /// The name in the first row with a number.
    fn first_name(&self, number: u32) -> Option<&'a [u8]>
        ensures { option_map (λ b. b.now) result ≡ spec.name_of number self.now }
    {
        for index in 0..self.count {
            if self.range(index).number == number {
                return self.name(index);
            }
        }
        None
    }

    /// The first row of each number.
    fn first_rows(&self, alloc: Global) -> Result<BTreeMap<u32, u32>, AllocError>
        ensures { IfOk result (λ m. spec.AreFirstRows m self.now) }
    {
        let mut first_rows = BTreeMap::new(alloc);
        let mut index = self.count;
        while index > 0 {
            index -= 1;
            first_rows.insert(self.range(index).number, index)?;
        }
        Ok(first_rows)
    }

    /// Those of the table of names in some sections, or the first that isn't right.
    fn in_sections(sections: &[SectionView<'a>]) -> Result<NameRows<'a>, NameErr>
        ensures rows { IfOk result
            (λ t. spec.names_in (section_named SEHNAME_NAME sections.now) ≡ Ok t) }
        ensures refusal { IfErr result
            (λ e. spec.names_in (section_named SEHNAME_NAME sections.now) ≡ Err e) }
    {
        match section_named(sections, SEHNAME_NAME) {
            Some(section) => NameRows::read(section),
            None => Ok(NameRows::empty()),
        }
    }
}

/// The first row of each number in the table of names in some sections; none where the table is
/// refused.
pub fn first_rows(
    alloc: Global,
    sections: &[SectionView<'_>],
) -> Result<BTreeMap<u32, u32>, AllocError>
    ensures { IfOk result (λ m. spec.AreFirstRows m
        (spec.rows_read (spec.names_in (section_named SEHNAME_NAME sections.now)))) }
{
    match NameRows::in_sections(sections) {
        Ok(rows) => rows.first_rows(alloc),
        Err(_) => Ok(BTreeMap::new(alloc)),
    }
}

/// The names of an image's functions, with the ranges of their code. A clause sees the rows of the
/// table, which ascend.
#[derive(Drop)]
pub struct NameTable<'a> {
    rows: NameRows<'a>,
    /// The first row of each number, if they were found.
    first_rows: Option<&'a BTreeMap<u32, u32>>,
}

impl<'a> Model for NameTable<'a> {
    ghost use Rattle.std.specs.Prelude.{List, IfSome};
    ghost use Rattle.pe_image.specs.NameRows.{NameRow, AreFirstRows};

    ghost Value = { List NameRow };

    ghost view = { λ t. t.rows };

    ghost invariant = { λ t. IfSome t.first_rows (λ m. AreFirstRows m.now t.rows) };
}

impl<'a> NameTable<'a> {
    /// A table without a row.
    pub fn empty() -> NameTable<'a>
        ensures { result ≡ [] }
    {
        NameTable {
            rows: NameRows::empty(),
            first_rows: None,
        }
    }

    /// The table in a section. It is refused by its first row that isn't stored whole, or whose
    /// name isn't, or whose range is empty or begins before the one of the row before it ends. A
    /// section without a count has no row 0.
    pub fn read(section: &SectionView<'a>) -> Result<NameTable<'a>, NameErr>
        ensures rows { IfOk result (λ t. spec.rows_of (spec.name_section section.now) ≡ Ok t) }
        ensures refusal { IfErr result
            (λ e. spec.rows_of (spec.name_section section.now) ≡ Err e) }
    {
        match NameRows::read(section) {
            Ok(rows) => Ok(NameTable {
                rows,
                first_rows: None,
            }),
            Err(e) => Err(e),
        }
    }

    /// The table in an image's sections, with the first row of each number if they were found.
    pub(crate) fn in_sections(
        sections: &[SectionView<'a>],
        first_rows: Option<&'a BTreeMap<u32, u32>>,
    ) -> Result<NameTable<'a>, NameErr>
        requires { IfSome first_rows (λ m. spec.AreFirstRows m.now
            (spec.rows_read (spec.names_in (section_named SEHNAME_NAME sections.now)))) }
        ensures rows { IfOk result
            (λ t. spec.names_in (section_named SEHNAME_NAME sections.now) ≡ Ok t) }
        ensures refusal { IfErr result
            (λ e. spec.names_in (section_named SEHNAME_NAME sections.now) ≡ Err e) }
    {
        match NameRows::in_sections(sections) {
            Ok(rows) => Ok(NameTable { rows, first_rows }),
            Err(e) => Err(e),
        }
    }

    /// The same table: it borrows what the image stores, and takes no memory.
    pub fn copied(&self) -> NameTable<'a>
        ensures { result ≡ self.now }
    {
        NameTable {
            rows: self.rows.copied(),
            first_rows: self.first_rows,
        }
    }

    /// The row whose range holds an address: where the range begins, and the function's number. The
    /// rows are searched by halves.
    pub fn row(&self, rva: u64) -> Option<(u64, u32)>
        ensures { result ≡ option_map (λ r. (r.begin, r.number)) (spec.row_holding rva self.now) }
    {
        self.rows.row(rva)
    }

    /// The name of the function of a number: that of the first row with the number. An image in a
    /// file has a map of these rows. In another table the rows are looked through.
    pub fn name(&self, number: u32) -> Option<&'a [u8]>
        ensures { option_map (λ b. b.now) result ≡ spec.name_of number self.now }
    {
        let Some(first_rows) = self.first_rows else {
            return self.rows.first_name(number);
        };
        let index = first_rows.get(&number)?;
        self.rows.name(*index)
    }
}
