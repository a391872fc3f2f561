use crate::checks::{are, are_bytes, are_imports, is_refused};
use crate::rows::{number, place_of, put_at, put_fields};
use pe_image::{ImageView, SectionView};
use std::alloc::Global;
use std::process::Abort;
use test_tables::rows::columns_of;

/// An image of two sections, field by field: `.data` of one page with nothing stored, and `.text`
/// with six bytes in 512 of raw data, whose others are `int3`.
const IMAGE: &str = r"
0            | 'MZ'
3C           | 40             | e_lfanew
signature    | 50 45 00 00
signature+4  | 64 86          | Machine
signature+6  | 02             | NumberOfSections
signature+14 | F0             | SizeOfOptionalHeader
signature+16 | 23             | Characteristics
optional     | 0B 02          | Magic
optional+10  | 00 20          | AddressOfEntryPoint
optional+18  | 00 00 00 40 01 | ImageBase
optional+20  | 00 10          | SectionAlignment
optional+24  | 00 02          | FileAlignment
optional+38  | 00 30          | SizeOfImage
optional+3C  | 00 04          | SizeOfHeaders
optional+6C  | 10             | NumberOfRvaAndSizes
optional+78  | 01 10          | imports
optional+88  | 03 20 00 00 0C | exceptions
table        | '.data'
table+8      | 00 10          | VirtualSize
table+C      | 00 10          | VirtualAddress
table+14     | FF FF FF FF    | PointerToRawData
table+24     | 40 00 00 C0    | Characteristics
table+28     | '.text'
table+30     | 06
table+34     | 00 20
table+38     | 00 02
table+3C     | 00 04
table+4C     | 20 00 00 60
400          | B8 07 00 00 00 C3 | mov eax, 7; ret
";

fn image(rt: &impl Abort, alloc: Global) -> Vec<u8> {
    let mut out = vec![in alloc; 0u8; 0x400].expect(rt, "memory");
    out.extend_from_slice(&[0xCC; 512]).expect(rt, "memory");
    put_fields(rt, alloc, &mut out, IMAGE);
    out
}

/// The same with bytes put at a place.
fn edited(rt: &impl Abort, alloc: Global, place: &str, bytes: &str) -> Vec<u8> {
    let mut out = image(rt, alloc);
    put_at(rt, alloc, &mut out, place, bytes);
    out
}

/// What is read of [`image`]: its base, entry point and size; address and size of its imports and
/// of its exceptions; how many imports and sections it has.
const FIELDS: &str = "140000000 2000 3000 1001 0 2003 C 0 2";

/// Its sections: address, size, flags, and whether they may be read, written and executed; their
/// bytes.
const SECTIONS: &str = r"
1000 1000 C0000040 1 1 0 |
2000 6 60000020 1 0 1    | B8 07 00 00 00 C3
";

fn has_fields(rt: &impl Abort, view: &ImageView<'_>) {
    let imports = view.import_directory();
    let exceptions = view.exception_directory();
    let numbers = [
        view.base(),
        view.entry(),
        view.size(),
        imports.rva as u64,
        imports.size as u64,
        exceptions.rva as u64,
        exceptions.size as u64,
        view.imports().count() as u64,
        view.sections().len() as u64,
    ];
    are(rt, &numbers, FIELDS);
}

fn is_section(rt: &impl Abort, alloc: Global, section: &SectionView<'_>, row: &str) {
    let columns = columns_of(row);
    let numbers = [
        section.address(),
        section.size(),
        section.flags() as u64,
        section.is_readable() as u64,
        section.is_writable() as u64,
        section.is_executable() as u64,
    ];
    are(rt, &numbers, columns[0]);
    are_bytes(rt, alloc, section.raw(), columns[1]);
}

#[test]
fn reads_fields(rt: HostRuntime) {
    let bytes = image(&rt, rt.alloc());
    let view = ImageView::read(rt.alloc(), &bytes).expect(&rt, "an image");
    has_fields(&rt, &view);
    let mut rows = SECTIONS.lines().skip(1);
    for section in view.sections() {
        is_section(&rt, rt.alloc(), section, rows.next().unwrap_or("no row"));
    }
}

/// Compares what an image is refused for with a text.
fn answers(rt: &impl Abort, alloc: Global, bytes: &[u8], wanted: &str, row: &str) {
    let answer = ImageView::read(alloc, bytes).err();
    is_refused(rt, alloc, &answer, wanted, row);
}

/// Places at which the file ends, and the refusals: the last place is past the section table.
const SHORT: &str = r"
0            | Truncated { at: 0 }
3F           | Truncated { at: 0 }
40           | Truncated { at: 64 }
signature+17 | Truncated { at: 64 }
optional+6F  | Truncated { at: 88 }
optional+EF  | Truncated { at: 200 }
table+4F     | Truncated { at: 328 }
table+50     | Layout { section: 1 }
";

#[test]
fn refuses_short_files(rt: HostRuntime) {
    for row in SHORT.lines().skip(1) {
        let columns = columns_of(row);
        let mut bytes = image(&rt, rt.alloc());
        bytes.truncate(place_of(&rt, columns[0]));
        answers(&rt, rt.alloc(), &bytes, columns[1], row);
    }
    answers(&rt, rt.alloc(), &[0; 64], "NotPe { at: 0 }", "zeros");
}

/// Edits of the image and their refusals, `NAME | PLACE | BYTES | REFUSAL`.
const REFUSED: &str = r"
MZ                    | 1            | 7A          | NotPe { at: 0 }
e_lfanew              | 3C           | E9 05 00 00 | Truncated { at: 1513 }
e_lfanew past it      | 3C           | FF FF FF FF | Truncated { at: 4294967295 }
signature             | signature+3  | 01          | NotPe { at: 64 }
Machine               | signature+4  | 4C 01       | Machine { found: 332 }
optional size         | signature+14 | 6F          | Truncated { at: 88 }
Magic                 | optional     | 0B 01       | Magic { found: 267 }
17 directories        | optional+6C  | 11          | Truncated { at: 200 }
all directories       | optional+6C  | FF FF FF FF | Truncated { at: 200 }
section count         | signature+6  | 1F          | Truncated { at: 328 }
optional size past it | signature+14 | FF FF       | Truncated { at: 65623 }
raw data              | table+38     | 01          | Layout { section: 1 }
raw pointer           | table+3C     | 01          | Layout { section: 1 }
raw data of the first | table+10     | 01          | Layout { section: 0 }
half a page           | table+35     | 28          | Layout { section: 1 }
same address          | table+35     | 10          | Layout { section: 1 }
one byte above        | table+8      | 01          | Layout { section: 1 }
image ends before     | optional+38  | 00 20       | Layout { section: 1 }
past the image        | table+30     | 01 10       | Layout { section: 1 }
";

#[test]
fn refuses_by_the_first_check(rt: HostRuntime) {
    for row in REFUSED.lines().skip(1) {
        let columns = columns_of(row);
        let bytes = edited(&rt, rt.alloc(), columns[1], columns[2]);
        answers(&rt, rt.alloc(), &bytes, columns[3], row);
    }
}

/// Edits of the image, a range, whether it is stored, and how many bytes are found there:
/// `NAME | PLACE | BYTES | RVA SIZE | STORED COUNT`.
const RANGES: &str = r"
whole                  | 0           |       | 2000 6                            | 1 6
part                   | 0           |       | 2001 4                            | 1 4
last                   | 0           |       | 2005 1                            | 1 1
one past               | 0           |       | 2005 2                            | 0 0
following              | 0           |       | 2006 1                            | 0 0
before                 | 0           |       | 1FFF 1                            | 0 0
nothing stored         | 0           |       | 1000 1                            | 0 0
below all              | 0           |       | FFF 1                             | 0 0
headers                | 0           |       | 0 1                               | 0 0
empty                  | 0           |       | 2003 0                            | 1 0
empty outside          | 0           |       | FFFFFFFFFFFFFFFF 0                | 1 0
far                    | 0           |       | FFFFFFFFFFFFFFFF FFFFFFFFFFFFFFFF | 0 0
long                   | 0           |       | 2000 FFFFFFFFFFFFFFFF             | 0 0
raw shorter            | table+38    | 04 00 | 2000 4                            | 1 4
past shorter raw       | table+38    | 04 00 | 2000 5                            | 0 0
VirtualSize 0          | table+30    | 00    | 2000 200                          | 1 200
past it                | table+30    | 00    | 2000 201                          | 0 0
image ends in the page | optional+38 | 01 20 | 2000 6                            | 1 6
";

/// Compares whether a range is stored, and how many bytes are found there.
fn finds(rt: &impl Abort, view: &ImageView<'_>, range: &str, counts: &str) {
    let (rva, size) = range.split_once(' ').unwrap_or((range, "0"));
    let found = view.bytes(number(rt, rva), number(rt, size));
    let is_stored = found.is_some() as u64;
    let count = found.unwrap_or(&[]).len() as u64;
    are(rt, &[is_stored, count], counts);
}

#[test]
fn finds_what_is_stored(rt: HostRuntime) {
    for row in RANGES.lines().skip(1) {
        let columns = columns_of(row);
        let bytes = edited(&rt, rt.alloc(), columns[1], columns[2]);
        let view = ImageView::read(rt.alloc(), &bytes).expect(&rt, "an image");
        finds(&rt, &view, columns[3], columns[4]);
    }
}

#[test]
fn finds_the_bytes_themselves(rt: HostRuntime) {
    let bytes = image(&rt, rt.alloc());
    let view = ImageView::read(rt.alloc(), &bytes).expect(&rt, "an image");
    let found = view.bytes(0x2000, 2).unwrap_or(&[]);
    are_bytes(&rt, rt.alloc(), found, "B8 07");
}

/// The byte of NumberOfRvaAndSizes, and the address of the imports and the size of the exceptions
/// that are read.
const COUNTS: &str = r"
00 | 0 0
01 | 0 0
02 | 1001 0
03 | 1001 0
04 | 1001 C
";

#[test]
fn counts_missing_directories_as_empty(rt: HostRuntime) {
    for row in COUNTS.lines().skip(1) {
        let columns = columns_of(row);
        let bytes = edited(&rt, rt.alloc(), "optional+6C", columns[0]);
        let view = ImageView::read(rt.alloc(), &bytes).expect(&rt, "an image");
        let imports = view.import_directory().rva as u64;
        let exceptions = view.exception_directory().size as u64;
        are(&rt, &[imports, exceptions], columns[1]);
    }
}

/// A third section, at 0x3000, with two names of one library.
const IMPORTS: &str = r"
0  | 28 30         | lookup table
C  | 68 30         | name
10 | 40 30         | address table
28 | 58 30
30 | 5E 30
40 | 58 30
48 | 5E 30
5A | 'put'
60 | 'protect'
68 | 'sehhost.dll'
";

/// What the headers say of it.
const THIRD: &str = r"
signature+6 | 03
optional+38 | 00 40
optional+78 | 00 30 00 00 28
table+50    | '.rdata'
table+58    | 74000000 00300000 74000000 0006
";

/// Where the import directory lies in that section, an edit of the section, and the refusal:
/// `NAME | DIRECTORY | AT | BYTES | REFUSAL`.
const IMPORTING: &str = r"
as it is                 | 00 | 0  |                         | -
address table alone      | 00 | 0  | 00 00                   | -
first by ordinal         | 00 | 2F | 80                      | ImportBad { index: 0 }
second by ordinal        | 00 | 37 | 80                      | ImportBad { index: 1 }
entry past all           | 00 | 34 | 01                      | ImportBad { index: 1 }
hint past the end        | 00 | 30 | 73                      | ImportBad { index: 1 }
name past the end        | 00 | 73 | 78                      | -
no end of the name       | 00 | 30 | 70 30 00 00 00 00 00 00 | -
slots that aren't stored | 00 | 10 | 00 10                   | ImportBad { index: 0 }
second slot past the end | 00 | 10 | 6C 30                   | ImportBad { index: 1 }
descriptor past the end  | 61 | 0  |                         | ImportBad { index: 0 }
";

/// Its imports with their slots.
const NAMES: &str = r"
put     | 1 3040
protect | 1 3048
";

/// An image with that section, with bytes put at a place of it, and its import directory at an
/// offset of it.
fn importing(rt: &impl Abort, alloc: Global, directory: &str, place: &str, bytes: &str) -> Vec<u8> {
    let mut tables = vec![in alloc; 0u8; 0x74].expect(rt, "memory");
    put_fields(rt, alloc, &mut tables, IMPORTS);
    put_at(rt, alloc, &mut tables, place, bytes);
    let mut out = image(rt, alloc);
    put_fields(rt, alloc, &mut out, THIRD);
    put_at(rt, alloc, &mut out, "optional+78", directory);
    out.extend_from_slice(&tables).expect(rt, "memory");
    out
}

#[test]
fn refuses_imports(rt: HostRuntime) {
    for row in IMPORTING.lines().skip(1) {
        let columns = columns_of(row);
        let bytes = importing(&rt, rt.alloc(), columns[1], columns[2], columns[3]);
        answers(&rt, rt.alloc(), &bytes, columns[4], row);
    }
}

#[test]
fn reads_imports(rt: HostRuntime) {
    let bytes = importing(&rt, rt.alloc(), "00", "0", "");
    let view = ImageView::read(rt.alloc(), &bytes).expect(&rt, "an image");
    are_imports(&rt, view.imports(), 0, NAMES);
}
