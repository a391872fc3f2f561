//! What `exec` answers for images with imports and function tables, and with one change.

use crate::inputs::all_answer;

/// An empty file, one of zeros, and an image without its last byte. Then one field is wrong, and
/// the others are right: the base of `load Place` is no multiple of 65,536, below 4 GiB, and at
/// 2^47; an image is a page more than 256 MiB; an entry point is in no section, and in one that
/// isn't executable. In the second row of fields the headers end a byte after the file.
const FIELDS: &str = r"
exec | bytes | 3 ! image Truncated 0
exec | bytes 64*00 | 3 ! image NotPe 0
exec | fourteen @ cut 288 | 3 ! image Layout 0
exec | fourteen @ file+1 7A | 3 ! image NotPe 0
exec | fourteen @ file+60 0A 01 | 3 ! image Truncated 266
exec | fourteen @ signature+3 01 | 3 ! image NotPe 64
exec | fourteen @ signature+4 4C 01 | 3 ! image Machine 332
exec | fourteen @ signature+20 6F | 3 ! image Truncated 88
exec | fourteen @ optional+0 0B 01 | 3 ! image Magic 267
exec | fourteen @ optional+108 01 | 3 ! image Truncated 200
exec | fourteen @ signature+6 03 | 3 ! image Truncated 200
exec | fourteen @ sections+20 F1 | 3 ! image Layout 0
exec | fourteen @ sections+13 08 | 3 ! image Layout 0
exec | fourteen @ sections+8 01 10 | 3 ! image Layout 0
exec | fourteen @ optional+57 10 | 3 ! image Layout 0
exec | fourteen @ optional+25 10 | 3 ! load Place 5368713216
exec | fourteen @ optional+24 00 00 FF FF 00 | 3 ! load Place 4294901760
exec | fourteen @ optional+24 00 00 00 00 00 80 | 3 ! load Place 140737488355328
exec | fourteen @ optional+56 00 10 00 10 | 3 ! load Place 5368709120
exec | fourteen @ optional+17 20 | 3 ! load Entry 8192
exec | fourteen @ sections+36 40 00 00 40 | 3 ! load Entry 4096
";

#[test]
fn each_check_refuses(rt: HostRuntime) {
    all_answer(&rt, rt.alloc(), FIELDS);
}

/// A library more has its slot over the first one, or over halves of the first two. Then one byte
/// of the names, which begin at 448 with 24 bytes for each, is changed; and the first entry of the
/// lookup table, which is at 336, is an ordinal.
const IMPORTS: &str = r"
exec | importing | 0 2146435120 / 2146435136 / 2146435152 / 2146435104 / 2146435088 / exit 7
exec | importing @ file+292 60 10 14*00 80 10 | 0 2146435088 / 2146435136 / 2146435152 / 2146435104 / 2146435088 / exit 7
exec | importing @ file+292 60 10 14*00 84 10 | 0 9218868508093317168 / 0 / 2146435152 / 2146435104 / 2146435088 / exit 7
exec | importing @ file+548 78 | 3 ! load Import 4
exec | importing @ file+549 63 | 3 ! load Import 4
exec | importing @ file+548 00 | 3 ! load Import 4
exec | importing @ file+450 72 | 3 ! load Import 0
exec | importing @ file+498 2D | 3 ! load Import 2
exec | importing @ file+343 80 | 3 ! image ImportBad 0
";

#[test]
fn imports_are_bound_or_refused(rt: HostRuntime) {
    all_answer(&rt, rt.alloc(), IMPORTS);
}

/// The only section is called `.sehname`: it has two bytes, which are no count of rows; or its code
/// is a count of more rows than are stored, and another reason goes before. In the last row its
/// name has seven of the letters.
const NAMES: &str = r"
exec | fourteen @ sections+0 2E 73 65 68 6E 61 6D 65 @ sections+8 02 00 | 3 ! load Names 0
exec | fourteen @ sections+0 2E 73 65 68 6E 61 6D 65 | 3 ! load Names 0
exec | fourteen @ sections+0 2E 73 65 68 6E 61 6D 65 @ optional+17 20 | 3 ! load Entry 8192
exec | fourteen @ sections+0 2E 73 65 68 6E 61 6D 00 | 0 14 / exit 7
";

#[test]
fn short_name_section(rt: HostRuntime) {
    all_answer(&rt, rt.alloc(), NAMES);
}

/// Of an image that is refused for four reasons one is mended after another. Then the infos, which
/// begin at 272 of the file: the first info is replaced, or the second, from 280 on; the entries
/// begin at 296: a byte of the first two is changed; the directory counts 25 bytes, and in the last
/// row the table is read.
const TABLES: &str = r"
exec | importing @ optional+17 20 | 3 ! load Entry 8232
exec | importing @ optional+17 20 @ file+522 50 | 3 ! load Import 3
exec | importing @ optional+17 20 @ file+522 50 @ optional+24 00 10 00 00 00 | 3 ! load Place 4096
exec | importing @ optional+17 20 @ file+522 50 @ optional+24 00 10 00 00 00 @ optional+136 02 10 00 00 0C | 3 ! table Misaligned 4098
exec | tables @ file+272 01 07 01 00 07 01 00 00 | 3 ! table Op 0 0
exec | tables @ file+272 21 00 00 00 00 20 00 00 1F 20 00 00 00 30 00 00 | 3 ! table ChainLong 0
exec | tables @ file+280 02 00 00 00 | 3 ! table Version 1 2
exec | tables @ file+304 3C | 3 ! table Truncated 12348
exec | tables @ optional+140 19 | 3 ! table Truncated 12312
exec | tables @ file+272 01 | 3 ! load Entry 0
";

#[test]
fn tables_are_refused_in_order(rt: HostRuntime) {
    all_answer(&rt, rt.alloc(), TABLES);
}

/// One field of the headers or of `.rdata`, which begins at 1536, is changed.
const COMPILED: &str = r"
exec | compiled int main(void){ put(2+3*4); return 7; } | 0 14 / exit 7
exec | compiled int main(void){ put(2+3*4); return 7; } @ signature+4 4C 01 | 3 ! image Machine 332
exec | compiled int main(void){ put(2+3*4); return 7; } @ optional+0 0B 01 | 3 ! image Magic 267
exec | compiled int main(void){ put(2+3*4); return 7; } @ file+1583 80 | 3 ! image ImportBad 0
exec | compiled int main(void){ put(2+3*4); return 7; } @ file+1744 78 | 3 ! load Import 4
exec | compiled int main(void){ put(2+3*4); return 7; } @ optional+24 00 10 00 00 00 | 3 ! load Place 4096
exec | compiled int main(void){ put(2+3*4); return 7; } @ optional+16 00 10 | 3 ! load Entry 4096
";

#[test]
fn compiled_images_are_refused(rt: HostRuntime) {
    all_answer(&rt, rt.alloc(), COMPILED);
}
