use crate::checks::{are, are_bytes, are_imports, are_same};
use crate::rows::{bytes_of, number, put_fields};
use host_layout::imported::IMPORTED;
use pe_image::ImageView;
use pe_write::{Image, Sizes, slot_of, write};
use std::alloc::Global;
use std::process::Abort;
use test_tables::every_service;
use test_tables::rows::columns_of;

/// All bytes that aren't 0 in the headers and `.data` of the image of [`writes_five_sections`].
const HEADERS: &str = r"
0              | 'MZ'
3C             | 40
40             | 50 45 00 00
44             | 64 86 05
54             | F0 00 23
optional       | 0B 02
optional+4     | 00 02
optional+8     | 00 08
optional+10    | 01 20
optional+14    | 00 20
optional+18    | 00 00 00 40 01
optional+20    | 00 10
optional+24    | 00 02
optional+38    | 00 60
optional+3C    | 00 04
optional+44    | 03
optional+6C    | 10
directories+8  | 00 30 00 00 28
directories+18 | 00 50 00 00 0C
directories+60 | 58 30 00 00 30
table          | '.data'
table+28       | '.text'
table+50       | '.rdata'
table+78       | '.xdata'
table+A0       | '.pdata'
400            | 01 02 03 04
";

/// Its sections: VirtualSize, VirtualAddress, SizeOfRawData, PointerToRawData; Characteristics.
const SECTIONS: &str = r"
table+8  | 00100000 00100000 00020000 0004
table+24 | 40 00 00 C0
table+30 | 07000000 00200000 00020000 0006
table+4C | 20 00 00 60
table+58 | DE000000 00300000 00020000 0008
table+74 | 40 00 00 40
table+80 | 04000000 00400000 00020000 000A
table+9C | 40 00 00 40
table+A8 | 0C000000 00500000 00020000 000C
table+C4 | 40 00 00 40
";

/// All bytes that aren't 0 in its other sections.
const CONTENTS: &str = r"
600      | 90 B8 07 00 00 00 C3
rdata    | 28 30
rdata+C  | D2 30
rdata+10 | 58 30
rdata+28 | 88 30
rdata+30 | 9A 30
rdata+38 | B2 30
rdata+40 | C2 30
rdata+48 | CC 30
rdata+58 | 88 30
rdata+60 | 9A 30
rdata+68 | B2 30
rdata+70 | C2 30
rdata+78 | CC 30
rdata+8A | 'RaiseException'
rdata+9C | '__C_specific_handler'
rdata+B4 | '_local_unwind'
rdata+C4 | 'protect'
rdata+CE | 'put'
rdata+D2 | 'sehhost.dll'
A00      | 01
C00      | 00 20 00 00 07 20 00 00 00 40
";

/// The bytes of the image that these tables describe.
fn image_bytes(rt: &impl Abort, alloc: Global) -> Vec<u8> {
    let mut out = vec![in alloc; 0u8; 3584].expect(rt, "memory");
    put_fields(rt, alloc, &mut out, HEADERS);
    put_fields(rt, alloc, &mut out, SECTIONS);
    put_fields(rt, alloc, &mut out, CONTENTS);
    out
}

/// The image of a row, `SIZE | DATA | TEXT | XDATA | PDATA`, of parts that take a page each at
/// most, which begins so many bytes after the front of its code.
fn image_of_row(rt: &impl Abort, alloc: Global, row: &str, entry: u32) -> Image<'static> {
    let columns = columns_of(row);
    let size = (number(rt, columns[0]) % 65536) as u32;
    if size % 4096 != 0 || size < 4096 || size > 8192 {
        panic!(rt; "no size of data");
    }
    let data = bytes_of(rt, alloc, columns[1]);
    let text = bytes_of(rt, alloc, columns[2]);
    let xdata = bytes_of(rt, alloc, columns[3]);
    let pdata = bytes_of(rt, alloc, columns[4]);
    if data.len() > 4096 || text.len() > 4096 || xdata.len() > 4096 || pdata.len() > 4096 {
        panic!(rt; "more than a page");
    }
    if entry as usize >= text.len() {
        panic!(rt; "no code");
    }
    let imports = every_service(alloc).expect(rt, "memory");
    Image::new(
        imports,
        size,
        data,
        text,
        entry,
        xdata,
        pdata,
        Vec::new(alloc),
    )
}

/// Its bytes as they are written.
fn written(rt: &impl Abort, alloc: Global, row: &str, entry: u32) -> Vec<u8> {
    let image = image_of_row(rt, alloc, row, entry);
    write(alloc, &image).expect(rt, "memory")
}

#[test]
fn writes_five_sections(rt: HostRuntime) {
    let row = "1000 | 01020304 | 90 B8 07 00 00 00 C3 | 01000000 | 00200000 07200000 00400000";
    let bytes = written(&rt, rt.alloc(), row, 1);
    let wanted = image_bytes(&rt, rt.alloc());
    are_same(&rt, &bytes, &wanted, row);
}

/// The names of the services, in their order, and where their slots lie in `.rdata`.
const SERVICES: &str = r"
RaiseException       | 1 58
__C_specific_handler | 1 60
_local_unwind        | 1 68
protect              | 1 70
put                  | 1 78
";

#[test]
fn reads_it_again(rt: HostRuntime) {
    let bytes = written(&rt, rt.alloc(), "2000 | | B8 07 00 00 00 C3", 0);
    let view = ImageView::read(rt.alloc(), &bytes).expect(&rt, "an image");
    let numbers = [
        view.base(),
        view.entry(),
        view.size(),
        view.exception_directory().size as u64,
        view.sections().len() as u64,
    ];
    are(&rt, &numbers, "140000000 3000 5000 0 5");
    let code = view.bytes(0x3000, 6).unwrap_or(&[]);
    are_bytes(&rt, rt.alloc(), code, "B8 07 00 00 00 C3");
    are_imports(&rt, view.imports(), 0x4000, SERVICES);
}

#[test]
fn lays_sections(rt: HostRuntime) {
    let sizes = Sizes {
        data_size: 0x1001,
        text_size: 0x1000,
        rdata_size: 222,
        xdata_size: 0,
        pdata_size: 12,
        names_size: 25,
    };
    let numbers = [
        sizes.text_at(),
        sizes.rdata_at(),
        sizes.xdata_at(),
        sizes.pdata_at(),
        sizes.names_at(),
        sizes.end_at(),
    ];
    are(&rt, &numbers, "3000 4000 5000 5000 6000 7000");
    let image = image_of_row(&rt, rt.alloc(), "1000 | | C3", 0);
    are(&rt, &[image.sizes().rdata_at()], "3000");
}

#[test]
fn names_services(rt: HostRuntime) {
    let mut rows = SERVICES.lines().skip(1);
    for service in IMPORTED.iter() {
        let columns = columns_of(rows.next().unwrap_or("no row"));
        let is_named = service.name() == columns[0].as_bytes();
        are(
            &rt,
            &[is_named as u64, slot_of(&IMPORTED, *service) as u64],
            columns[1],
        );
    }
}
