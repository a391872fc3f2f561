//! Tables of names: which row is refused, the row that holds an address, the name of a number; and
//! the table of an image.

use crate::checks::{is_refused, shows};
use crate::rows::{bytes_of, number};
use pe_image::{ImageView, NameErr, NameTable, SectionView};
use std::alloc::Global;
use std::process::Abort;
use test_tables::one_section::{PLAIN, image};
use test_tables::rows::columns_of;
use test_tables::tables::put;

/// What a section at 0x1000 stores of a table, and the first row that isn't right.
const REFUSED: &str = r"
02 00                                                  | NameErr { row: 0 } | half a count
00 00 00 00                                            | -                  | no rows
01 00 00 00 | NameErr { row: 0 } | a row that isn't there
01 00 00 00 10 00 00 00 20 00 00 00 01 00 00 00 14 10 00 00 66 00 | - | one row
01 00 00 00 10 00 00 00 20 00 00 00 01 00 00 00 14 10 00 00 66    | NameErr { row: 0 } | no end
01 00 00 00 10 00 00 00 20 00 00 00 01 00 00 00 16 10 00 00 66 00 | NameErr { row: 0 } | past it
01 00 00 00 10 00 00 00 20 00 00 00 01 00 00 00 FF 0F 00 00 66 00 | NameErr { row: 0 } | before it
01 00 00 00 10 00 00 00 20 00 00 00 01 00 00 00 15 10 00 00 66 00 | - | a name of no bytes
01 00 00 00 10 00 00 00 10 00 00 00 01 00 00 00 14 10 00 00 66 00 | NameErr { row: 0 } | no range
02 00 00 00 10 00 00 00 20 00 00 00 01 00 00 00 14 10 00 00 66 00 | NameErr { row: 1 } | one of two
";

/// Two rows, the second of which begins where the first ends, or one byte before.
const FIRST: &str = "02 00 00 00 10 00 00 00 20 00 00 00 01 00 00 00 24 10 00 00";

const SECOND: &str = "20 00 00 00 28 00 00 00 02 00 00 00 26 10 00 00";

const OVERLAPPING: &str = "1F 00 00 00 28 00 00 00 02 00 00 00 26 10 00 00";

const SAME_NUMBER: &str = "20 00 00 00 28 00 00 00 01 00 00 00 26 10 00 00";

const NAMES: &str = "66 00 67 00";

/// Addresses, and the row that holds each of them.
const HELD: &str = r"
0F | None
10 | Some((16, 1))
1F | Some((16, 1))
20 | Some((32, 2))
27 | Some((32, 2))
28 | None
";

/// Numbers, and their names in two rows of two functions, and in two rows of one.
const NAMED: &str = r"
0 | None        | None
1 | Some([102]) | Some([102])
2 | Some([103]) | None
3 | None        | None
";

fn refusal(section: &SectionView<'_>) -> Option<NameErr> {
    NameTable::read(section).err()
}

fn only_section<'v, 'a>(rt: &impl Abort, view: &'v ImageView<'a>) -> &'v SectionView<'a> {
    view.sections().first().expect(rt, "a section")
}

/// The image of one section with these bytes, as a file.
fn file_of(rt: &impl Abort, alloc: Global, parts: &[&str]) -> Vec<u8> {
    let mut bytes = Vec::new(alloc);
    for part in parts {
        let piece = bytes_of(rt, alloc, part);
        bytes.extend_from_slice(&piece).expect(rt, "memory");
    }
    image(alloc, PLAIN, &bytes).expect(rt, "memory")
}

#[test]
fn first_refused_row(rt: HostRuntime) {
    for row in REFUSED.lines().skip(1) {
        let columns = columns_of(row);
        let file = file_of(&rt, rt.alloc(), &[columns[0]]);
        let view = ImageView::read(rt.alloc(), &file).expect(&rt, "an image");
        let found = refusal(only_section(&rt, &view));
        is_refused(&rt, rt.alloc(), &found, columns[1], row);
    }
}

#[test]
fn ranges_ascend(rt: HostRuntime) {
    let file = file_of(&rt, rt.alloc(), &[FIRST, OVERLAPPING, NAMES]);
    let view = ImageView::read(rt.alloc(), &file).expect(&rt, "an image");
    let found = refusal(only_section(&rt, &view));
    is_refused(&rt, rt.alloc(), &found, "NameErr { row: 1 }", OVERLAPPING);
}

fn has_names(rt: &impl Abort, alloc: Global, rows: &str, table: &NameTable<'_>, named: usize) {
    for row in rows.lines().skip(1) {
        let columns = columns_of(row);
        let of = u32::try_from(number(rt, columns[0])).expect(rt, "a number of 32 bits");
        let name = columns.get(named).expect(rt, "a column of names");
        shows(rt, alloc, &table.name(of), name, row);
    }
}

#[test]
fn rows_and_names(rt: HostRuntime) {
    let file = file_of(&rt, rt.alloc(), &[FIRST, SECOND, NAMES]);
    let view = ImageView::read(rt.alloc(), &file).expect(&rt, "an image");
    let table = NameTable::read(only_section(&rt, &view)).expect(&rt, "a table");
    for row in HELD.lines().skip(1) {
        let columns = columns_of(row);
        let held = table.row(number(&rt, columns[0]));
        shows(&rt, rt.alloc(), &held, columns[1], row);
    }
    has_names(&rt, rt.alloc(), NAMED, &table, 1);
}

#[test]
fn first_name_of_a_number(rt: HostRuntime) {
    let file = file_of(&rt, rt.alloc(), &[FIRST, SAME_NUMBER, NAMES]);
    let view = ImageView::read(rt.alloc(), &file).expect(&rt, "an image");
    let table = NameTable::read(only_section(&rt, &view)).expect(&rt, "a table");
    has_names(&rt, rt.alloc(), NAMED, &table, 2);
    let none = NameTable::empty();
    shows(&rt, rt.alloc(), &none.row(16), "None", "no rows");
    shows(&rt, rt.alloc(), &none.name(1), "None", "no rows");
}

/// Where the header of the only section is, with its name in front.
const SECTION_HEADER: usize = 200;

/// Numbers, and their names in three rows, the first of which has the number of the last.
const FIRST_NAMED: &str = r"
0 | None
1 | Some([102])
2 | Some([])
3 | None
";

const THREE_ROWS: &str = "03 00 00 00 10 00 00 00 20 00 00 00 01 00 00 00 34 10 00 00";

const EMPTY_NAME: &str = "20 00 00 00 28 00 00 00 02 00 00 00 35 10 00 00";

const LAST: &str = "28 00 00 00 30 00 00 00 01 00 00 00 36 10 00 00";

#[test]
fn names_of_an_image(rt: HostRuntime) {
    let mut file = file_of(&rt, rt.alloc(), &[FIRST, SECOND, NAMES]);
    put(&mut file, SECTION_HEADER, b".sehname");
    let view = ImageView::read(rt.alloc(), &file).expect(&rt, "an image");
    let table = view.names().expect(&rt, "a table");
    has_names(&rt, rt.alloc(), NAMED, &table, 1);
}

#[test]
fn names_of_an_image_by_first_rows(rt: HostRuntime) {
    let mut file = file_of(&rt, rt.alloc(), &[THREE_ROWS, EMPTY_NAME, LAST, NAMES]);
    put(&mut file, SECTION_HEADER, b".sehname");
    let view = ImageView::read(rt.alloc(), &file).expect(&rt, "an image");
    let table = view.names().expect(&rt, "a table");
    has_names(&rt, rt.alloc(), FIRST_NAMED, &table, 1);
    has_names(&rt, rt.alloc(), FIRST_NAMED, &table.copied(), 1);
}

#[test]
fn image_without_names(rt: HostRuntime) {
    let mut file = file_of(&rt, rt.alloc(), &[FIRST, OVERLAPPING, NAMES]);
    let view = ImageView::read(rt.alloc(), &file).expect(&rt, "an image");
    let none = view.names().expect(&rt, "no table");
    shows(&rt, rt.alloc(), &none.row(16), "None", "no rows");
    drop(none);
    drop(view);
    put(&mut file, SECTION_HEADER, b".sehname");
    let named = ImageView::read(rt.alloc(), &file).expect(&rt, "an image");
    let found = named.names().err();
    is_refused(&rt, rt.alloc(), &found, "NameErr { row: 1 }", OVERLAPPING);
}
