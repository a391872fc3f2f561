//! Damaged images and forged records of the dispatcher, each case by its name.

use crate::calls::{answers, compiled};
use crate::inputs::row_answers;
use std::alloc::Global;
use std::process::Abort;

/// A row is `NAME | WORDS | INPUT | WANTED`, where what comes after the name is as in other tables.
/// Entries and infos: of an image whose infos begin at 272 of the file and whose entries at 296, a
/// field is changed; `load Entry` is what follows where the table is read whole. Records: one has
/// the byte of its mark or its kind changed, and its RSP that of its own address; the frame to
/// which is unwound is at address 8; a jump target is in `.data`.
const DAMAGED: &str = r"
equal_begins | exec | tables @ file+308 00 | 3 ! table Unsorted 1
empty_range | exec | tables @ file+300 00 | 3 ! table EmptyRange 0
misaligned_info | exec | tables @ file+304 02 | 3 ! table Misaligned 12290
flags_five | exec | tables @ file+272 29 00 00 00 | 3 ! table Flags 0
rising_code_offset | exec | tables @ file+272 01 05 02 00 02 32 05 32 | 3 ! table CodeOrder 0 1
frame_code_without_register_and_unlisted_op | exec | tables @ file+272 01 04 01 00 04 03 00 00 | 3 ! table Op 0 0
frame_code_without_register_and_unlisted_op | exec | tables @ file+272 01 04 01 00 04 06 00 00 | 3 ! table Op 0 0
chains_of_32_and_33 | exec | chain 32 | 3 ! load Entry 0
chains_of_32_and_33 | exec | chain 33 | 3 ! table ChainLong 0
huge_scope_count | exec | infos 09 00 00 00 00 36 00 00 FF FF FF FF | 3 ! table Truncated 12288
bad_scope_row | exec | infos 09 00 00 00 00 36 00 00 01 00 00 00 00 20 00 00 00 20 00 00 01 00 00 00 01 20 00 00 | 3 ! table ScopeRange 0 0
bad_scope_row | exec | infos 09 00 00 00 00 36 00 00 01 00 00 00 00 20 00 00 01 20 00 00 00 50 00 00 01 20 00 00 | 3 ! table ScopeRange 0 0
landing_in_data | exec | compiled void g(void){ RaiseException(0xE0000001,0,0,0); } int main(void){ __try{ g(); } __except(1){ put(1); } return 0; } | 0 1 / exit 0
landing_in_data | exec | compiled void g(void){ RaiseException(0xE0000001,0,0,0); } int main(void){ __try{ g(); } __except(1){ put(1); } return 0; } @ file+2084 00 10 00 00 | 13 stopped Illegal 0000000140001000
push_at_address_8 | exec | pushes_alone | 11 stack limit FFFFFFFFFFFFF9D8
damaged_mark_and_kind | exec | harms_mark | 13 stopped BadRecord 00000000707FF990
damaged_mark_and_kind | exec | harms_kind @ file+1046 00 | 13 stopped BadRecord 00000000707FF990
saved_state_at_the_record | exec | harms_saved_state | 13 stopped Backward 00000000707FF990
target_frame_below | exec | unwinds_to_no_frame @ file+1028 B9 08 00 00 00 FF 15 59 10 00 00 | 13 stopped LostFrame 0000000000000008
";

#[test]
fn damaged_images_are_refused_or_stop(rt: HostRuntime) {
    for row in DAMAGED.lines().skip(1) {
        let (_name, rest) = row.split_once(" | ").expect(&rt, row);
        row_answers(&rt, rt.alloc(), rest);
    }
}

/// To which lengths the image is cut, from the first to the last one, and the refusal. The headers
/// end at 528, those of five sections counted; `.data` has no bytes in the file, and the others
/// have theirs from 1024 on.
const CUT: &str = r"
headers_cut | 0 63 | 3 ! image Truncated 0
headers_cut | 64 87 | 3 ! image Truncated 64
headers_cut | 88 199 | 3 ! image Truncated 88
headers_cut | 200 327 | 3 ! image Truncated 200
headers_cut | 328 527 | 3 ! image Truncated 328
raw_bytes_cut | 528 1535 | 3 ! image Layout 1
raw_bytes_cut | 1536 2047 | 3 ! image Layout 2
raw_bytes_cut | 2048 2559 | 3 ! image Layout 3
raw_bytes_cut | 2560 3071 | 3 ! image Layout 4
raw_bytes_cut | 3072 3072 | 0 14 / exit 7
";

/// Compares what `exec` answers for the image cut to each of the lengths that a row names.
fn cuts_answer(rt: &impl Abort, alloc: Global, image: &[u8], row: &str) {
    let (lengths, wanted) = row.rsplit_once(" | ").expect(rt, row);
    let (_name, lengths) = lengths.split_once(" | ").expect(rt, row);
    let (first, last) = lengths.split_once(' ').expect(rt, row);
    let first = first.parse::<usize>().unwrap_or(0);
    let last = last.parse::<usize>().unwrap_or(usize::MAX);
    for length in first..last.saturating_add(1).min(image.len().saturating_add(1)) {
        answers(rt, alloc, "exec", &image[..length], wanted);
    }
}

#[test]
fn cut_images_are_refused(rt: HostRuntime) {
    let text = "int main(void){ put(2+3*4); return 7; }";
    let image = compiled(&rt, rt.alloc(), text);
    assert!(rt; image.len() == 3072);
    for row in CUT.lines().skip(1) {
        cuts_answer(&rt, rt.alloc(), &image, row);
    }
}
