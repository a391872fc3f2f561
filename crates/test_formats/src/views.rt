use crate::checks::{are, are_same};
use crate::rows::{number, place_of, push_bytes};
use pe_image::ImageView;
use seh_io::plain::VecSink;
use seh_io::planned::{MemSink, Plan};
use std::alloc::Global;
use std::process::Abort;
use table_view::view;
use test_tables::rows::columns_of;
use test_tables::tables::{ENTRY, put, table_image};

/// The info of a function that begins with `push rbx; sub rsp, 32`.
const INFO: [u8; 8] = [1, 5, 2, 0, 5, 0x32, 1, 0x30];

/// What is shown of images. A part begins with a line `# NAME`; lines `info` have the bytes of the
/// unwind infos, lines `table` those of the function table, and lines `names`, where there are any,
/// those of a section `.sehname` at 0x5000. After a line `shows` comes what is shown. Of the part
/// `codes` llvm-readobj prints these codes; in `refused entry` the second of three entries is
/// refused.
const VIEWS: &str = r"
# example
info 01 05 02 00 05 32 01 30
table 00200000 20200000 00300000
shows
entry 0 00002000 00002020 00003000
 bytes 0105020005320130
 info prolog 5 flags 0 frame - 0
 code 5 alloc 32
 code 1 push rbx
entries 1
# codes
info 01190985 19680800 15341300 11030901 16000260 0150
table 00200000 20200000 00300000
shows
entry 0 00002000 00002020 00003000
 bytes 011909851968080015341300110309011600026001500000
 info prolog 25 flags 0 frame rbp 128
 code 25 xmm 6 128
 code 21 save rbx 152
 code 17 frame
 code 9 alloc 176
 code 2 push rsi
 code 1 push rbp
entries 1
# scopes
info 19000000 00360000 03000000 00200000 10200000 18200000
info 00000000 00200000 10200000 01000000 14200000 00200000
info 20 20 00 00 1C 20 00 00 16 20
table 00200000 20200000 00300000
shows
entry 0 00002000 00002020 00003000
 bytes 19000000
 info prolog 0 flags 3 frame - 0
 handler 00003600 c
 scope 0 00002000 00002010 finally 00002018
 scope 1 00002000 00002010 always jump 00002014
 scope 2 00002000 00002020 filter 0000201C jump 00002016
entries 1
# chain
info 21000000 00200000 10200000 10300000 01
table 00200000 20200000 00300000
shows
entry 0 00002000 00002020 00003000
 bytes 21000000
 info prolog 0 flags 4 frame - 0
 chain 00002000 00002010 00003010
entries 1
# machine frame
info 09 04 02 00 04 42 00 1A 0A 36
table 00200000 20200000 00300000
shows
entry 0 00002000 00002020 00003000
 bytes 090402000442001a
 info prolog 4 flags 1 frame - 0
 code 4 alloc 40
 code 0 machine 1
 handler 0000360A other
entries 1
# refused entry
info 01 00 00 00 02
table 00 20 00 00 20 20 00 00 00 30 00 00
table 20 20 00 00 30 20 00 00 04 30 00 00
table 30 20 00 00 40 20 00 00 00 30 00 00
shows
entry 0 00002000 00002020 00003000
 bytes 01000000
 info prolog 0 flags 0 frame - 0
refused 1 Version 2
entry 2 00002030 00002040 00003000
 bytes 01000000
 info prolog 0 flags 0 frame - 0
entries 3
# named entries
info 01
table 00200000 20200000 00300000
table 20200000 30200000 00300000
table 38200000 40200000 00300000
names 02000000
names 00200000 20200000 01000000 24500000
names 20200000 40200000 02000000 29500000
names 6D61696E 00 67 00
shows
entry 0 00002000 00002020 00003000
 bytes 01000000
 info prolog 0 flags 0 frame - 0
 name main
entry 1 00002020 00002030 00003000
 bytes 01000000
 info prolog 0 flags 0 frame - 0
 name g
entry 2 00002038 00002040 00003000
 bytes 01000000
 info prolog 0 flags 0 frame - 0
entries 3
# part with the name of its function
info 01
table 00200000 20200000 00300000
table 20200000 30200000 00300000
names 02000000
names 00200000 20200000 01000000 24500000
names 20200000 30200000 01000000 28500000
names 6D61696E 00
shows
entry 0 00002000 00002020 00003000
 bytes 01000000
 info prolog 0 flags 0 frame - 0
 name main
entry 1 00002020 00002030 00003000
 bytes 01000000
 info prolog 0 flags 0 frame - 0
 name main
entries 2
# refused entry with a name
info 02
table 00200000 20200000 00300000
names 01000000
names 00200000 20200000 01000000 14500000
names 67 00
shows
refused 0 Version 2
entries 1
# overlapping names
info 01
table 00200000 20200000 00300000
names 02000000
names 00200000 20200000 01000000 24500000
names 1F200000 40200000 02000000 29500000
names 6D61696E 00 67 00
shows
entry 0 00002000 00002020 00003000
 bytes 01000000
 info prolog 0 flags 0 frame - 0
entries 1
# half a count of names
info 01
table 00200000 20200000 00300000
names 0000
shows
entry 0 00002000 00002020 00003000
 bytes 01000000
 info prolog 0 flags 0 frame - 0
entries 1
# operand past the count
info 01 07 01 00 07 01
table 00200000 20200000 00300000
shows
refused 0 Op 0
entries 1
# chained to itself
info 21000000 00200000 20200000 00300000
table 00200000 20200000 00300000
shows
refused 0 ChainLong
entries 1
# misaligned
info 01
table 00 20 00 00 20 20 00 00 02 30 00 00
shows
refused 0 Misaligned 12290
entries 1
# empty range
info 01
table 00 20 00 00 00 20 00 00 00 30 00 00
shows
refused 0 EmptyRange
entries 1
# short directory
info 01
table 00 20 00 00 20 20 00 00 00 30 00
shows
refused table Truncated 00004000
entries 0
# no directory
info 01
table
shows
entries 0
";

/// The bytes of the lines that begin with a word.
fn bytes_after(rt: &impl Abort, alloc: Global, lines: &str, word: &str) -> Vec<u8> {
    let mut bytes = Vec::new(alloc);
    for line in lines.lines() {
        if let Some(digits) = line.strip_prefix(word) {
            push_bytes(rt, &mut bytes, digits);
        }
    }
    bytes
}

/// An image of a part with a third section, `.sehname`, at 0x5000: its header follows those of the
/// other two, and its bytes are the last of the file.
fn with_names(rt: &impl Abort, mut image: Vec<u8>, names: &[u8]) -> Vec<u8> {
    let size = ((names.len() % 65536) as u32).to_le_bytes();
    put(&mut image, 0x46, &[3]); // NumberOfSections
    put(&mut image, 0x90, &[0, 0x60]); // SizeOfImage
    put(&mut image, 0x198, b".sehname");
    put(&mut image, 0x1A0, &size); // VirtualSize
    put(&mut image, 0x1A4, &[0, 0x50]); // VirtualAddress
    put(&mut image, 0x1A8, &size); // SizeOfRawData
    put(&mut image, 0x1AC, &[0, 0x14]); // PointerToRawData
    put(&mut image, 0x1BC, &[0x40, 0, 0, 0x40]); // Characteristics
    image.extend_from_slice(names).expect(rt, "memory");
    image
}

/// Compares what is shown of an image's table with lines, of which the last has no end here.
fn shows_lines(rt: &impl Abort, alloc: Global, bytes: &[u8], lines: &str, head: &str) {
    let image = ImageView::read(alloc, bytes).expect(rt, "an image");
    let mut out = VecSink::new(alloc);
    let is_shown = view(&image, &mut out).is_ok();
    are(rt, &[is_shown as u64], "1");
    let wanted = format!(in alloc; "{lines}\n").expect(rt, "memory");
    are_same(rt, &out.bytes, wanted.as_bytes(), head);
}

/// The same of the image of a part of a table.
fn shows_part(rt: &impl Abort, alloc: Global, part: &str) {
    let (head, lines) = part.split_once("\nshows\n").unwrap_or((part, ""));
    let infos = bytes_after(rt, alloc, head, "info");
    let entries = bytes_after(rt, alloc, head, "table");
    let names = bytes_after(rt, alloc, head, "names");
    let mut bytes = table_image(alloc, &infos, &entries).expect(rt, "memory");
    if !names.is_empty() {
        bytes = with_names(rt, bytes, &names);
    }
    shows_lines(rt, alloc, &bytes, lines.trim_end(), head);
}

#[test]
fn shows(rt: HostRuntime) {
    for part in VIEWS.split("\n# ").skip(1) {
        shows_part(&rt, rt.alloc(), part);
    }
}

/// Which call of the sink fails, how many bytes the others take at most, and how many bytes were
/// taken then, by the fault and by the sink: the second piece is refused, or the first after its
/// first 10 bytes.
const FAULTS: &str = r"
2 | 1000 | 23 23
2 | A    | A A
1 | 1    | 0 0
";

/// Compares how much of an image's view a sink has taken when it fails with what a row says.
fn stops(rt: &impl Abort, alloc: Global, image: &ImageView<'_>, row: &str) {
    let columns = columns_of(row);
    let failing = [number(rt, columns[0])].to_vec(alloc).expect(rt, "memory");
    let most = place_of(rt, columns[1]);
    if most == 0 {
        panic!(rt; "no bytes at a call");
    }
    let mut out = MemSink::new(Vec::new(alloc), Plan::new(failing, most));
    let taken = match view(image, &mut out) {
        Ok(()) => u64::MAX,
        Err(fault) => fault.taken,
    };
    are(rt, &[taken, out.bytes.len() as u64], columns[2]);
}

#[test]
fn stops_at_a_fault(rt: HostRuntime) {
    let bytes = table_image(rt.alloc(), &INFO, &ENTRY).expect(&rt, "memory");
    let image = ImageView::read(rt.alloc(), &bytes).expect(&rt, "an image");
    for row in FAULTS.lines().skip(1) {
        stops(&rt, rt.alloc(), &image, row);
    }
}
