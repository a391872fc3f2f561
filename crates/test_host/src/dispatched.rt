//! Images with handlers, run turn by turn: exceptions that are handled where they are raised or
//! pass from function to function, and the ends of searches, unwindings and returns. `main` begins
//! with RSP 0x707FFFD8, where its return address 0 is.
//!
//! A table is one text. Each line after its first is a row, `IMAGE | LINES`: the image that words
//! name, and the lines that its run shows, joined by ` / `.

use crate::images::{image_named, many_funclets};
use crate::shown::{Run, shows};
use std::alloc::Global;
use std::process::Abort;
use test_tables::calls::hundred_frames;

/// A run without an argument, of ten thousand turns, with its trace.
const TRACED: Run = Run {
    argument: 0,
    turns: 10_000,
    trace: true,
};

/// Compares what a row's image shows with its lines.
fn row_shows(rt: &impl Abort, alloc: Global, row: &str) {
    let (words, lines) = row.split_once(" | ").unwrap_or((row, ""));
    let bytes = image_named(alloc, words).expect(rt, "memory");
    shows(rt, alloc, &bytes, TRACED, lines);
}

/// The same of each row of a table.
fn all_show(rt: &impl Abort, alloc: Global, table: &str) {
    for row in table.lines().skip(1) {
        row_shows(rt, alloc, row);
    }
}

/// A filter accepts, and a `__finally` block runs; unwindings collide; a raise is continued; one
/// that can't be isn't; an access is made again; a local unwind runs `__finally` blocks; a filter
/// raises; a handler accepts a fault at once; nobody handles an exception; and a landing is no
/// code.
const HANDLED: &str = r"
filter_and_finally | raise E0000001 0 / filter 2 / answer 2 / finally 1 1 / 1 / except E0000001 / 3 / exit 0
raise_in_finally | raise E0000001 0 / filter 2 / answer 1 / finally 1 1 / 1 / raise E0000002 0 / filter 2 / answer 1 / except E0000002 / 5 / exit 7
scoped CONTINUED_RAISE, 2004 2024 2033 202E 202E 2033 2041 | raise E0000001 0 / filter 1 / answer -1 / 1 / exit 7
scoped CONTINUED_IN_VAIN, 2004 2019 2023 2019 2023 2023 203B, FF FF FF FF FF FF FF FF | raise E0000001 1 / filter 1 / answer -1 / raise C0000025 1 / filter 1 / answer 0 / unhandled C0000025
continued_access | raise C0000005 0 write 0000000020000000 / filter 1 / answer -1 / 5 / exit 7
scoped LOCAL_UNWIND, 2004 2019 202E 0 202E 202E 2042 | finally 1 1 / 1 / 5 / exit 7
scoped RAISE_IN_FILTER, 2004 2019 202E 2019 202E 202E 2074, 0 0 0 0 0 0 0 0 0 0 0 0 0 0 0 0 4B 20 0 40 1 0 0 0 6A 20 0 40 1 0 0 0 | raise E0000001 0 / filter 1 / raise E0000002 0 / filter 1 / answer 1 / except E0000002 / 5 / exit 7
scoped ACCEPTED_FAULT, 2004 2011 1 2011 2026 2026 2026 | raise C0000005 0 read 0000000000000010 / except C0000005 / 5 / exit 7
plain RAISES | raise E0000001 0 / unhandled E0000001
scoped ACCEPTED_FAULT, 2004 2011 1 1000 2026 2026 2026 | raise C0000005 0 read 0000000000000010 / except C0000005 / stopped Illegal 0000000140001000
";

/// RSP in the callee's body is 0x707FFF30, but its frame register says where it was after the
/// prologue: 0x707FFFD8 less 40, a return address, two pushes and 40 is 0x707FFF70, 1887436656. The
/// blocks run in the order of the rows, with RBX of the body, 5. The landing has EAX of the
/// exception, 3758096385, and RBX and RBP that the callee pushed, 9 and 4.
///
/// The second search of the second image continues after the block that raised: at the callee's
/// next row, which isn't a filter's, and then asks both filters of `main` anew. The second
/// unwinding runs that next row and the block of `main`; the block that raised isn't run again.
const PASSED: &str = r"
caller_and_callee | raise E0000001 0 / filter 1 / answer 0 / filter 2 / answer 1 / finally 3 1 / 1887436656 / finally 4 1 / 5 / except E0000001 / 3758096385 / 9 / 4 / exit 7
store_and_collision | raise C0000005 0 write 0000000020000000 / filter 1 / answer -1 / 5 / raise E0000001 0 / filter 2 / answer 0 / filter 3 / answer 1 / finally 5 1 / 1 / raise E0000002 0 / filter 2 / answer 0 / filter 3 / answer 1 / finally 6 1 / 2 / finally 4 1 / 4 / except E0000002 / 3 / exit 7
";

/// No record is at the returns, or placed past the stack, or where it ends below address 0. A
/// return address would be at 0x707FFFE0 + 40, above the stack's end. A service's return address
/// can't be read in the guard: `put`, `protect`, `RaiseException`, `_local_unwind`, and those that
/// add and remove vectored handlers, by the last byte of their addresses; none does anything else.
const STACK: &str = r"
plain RETURNS_AS_FILTER | stopped BadRecord 00000000707FFFD8
plain RETURNS_AS_FINALLY | stopped BadRecord 00000000707FFFD8
plain RETURNS_AS_VECTORED | stopped BadRecord 00000000707FFFD8
plain RAISES_AT_THE_GUARD | raise E0000001 0 / stack limit 000000006FFFFFD8
plain PUSHES_AT_ADDRESS_8 | raise C0000005 0 write 0000000000000000 / stack limit FFFFFFFFFFFFF9D8
plain RAISES_AT_THE_TOP | raise E0000001 0 / stopped Unreadable 0000000070800008
plain UNWINDS_AT_THE_TOP | stopped Unreadable 0000000070800008
service 10 | stopped Unreadable 000000006FFFFF00
service 20 | stopped Unreadable 000000006FFFFF00
service 30 | stopped Unreadable 000000006FFFFF00
service 50 | stopped Unreadable 000000006FFFFF00
service 80 | stopped Unreadable 000000006FFFFF00
service 90 | stopped Unreadable 000000006FFFFF00
";

/// An unwinding loses its frame. The walk from `main` reaches RIP 0 below the target frame, which
/// LostFrame names. A frame register says that the prologue ended at 0x70400000: the caller's RSP
/// would be 64 above it, and not above the RSP in hand, 0x707FFFD8 less two pushes and 40, which
/// Backward names. A walk doesn't go back.
const FRAMES: &str = r"
plain UNWINDS_TO_NO_FRAME | stopped LostFrame 0000000000000000
plain UNWINDS_PAST_MAIN | stopped LostFrame 00000000FFFFFFFF
framed LOWERS_ITS_FRAME | raise E0000001 0 / stopped Backward 00000000707FFFA0
raising HARMS_SAVED_STATE | raise E0000001 0 / filter 1 / raise E0000002 0 / stopped Backward 00000000707FF990
";

/// The record is at 0x707FF990. The search from the funclet that raises comes to the return address
/// of the funclet, and the record after it has no mark, or not the kind of that return; kind 1 is
/// not that of a `__finally` block's return, and kind 4 that of neither. The row before index 2 is
/// that of a `__finally` block; before index 2 of one row there is none; the answer's event is made
/// before the row is looked at.
const HARMED: &str = r"
raising HARMS_KIND | raise E0000001 0 / filter 1 / stopped BadRecord 00000000707FF990
raising HARMS_KIND_BY_4 | raise E0000001 0 / filter 1 / stopped BadRecord 00000000707FF990
raising HARMS_MARK | raise E0000001 0 / filter 1 / stopped BadRecord 00000000707FF990
raising HARMS_ROW | raise E0000001 0 / filter 1 / answer 1 / stopped BadRecord 00000000707FF990
raising HARMS_KIND_AND_RAISES | raise E0000001 0 / filter 1 / raise E0000002 0 / stopped BadRecord 00000000707FF990
raising HARMS_MARK_AND_RAISES | raise E0000001 0 / filter 1 / raise E0000002 0 / stopped BadRecord 00000000707FF990
unwinding BLOCK_HARMS_KIND_AND_RAISES | raise E0000001 0 / finally 1 1 / raise E0000002 0 / stopped BadRecord 00000000707FF990
unwinding BLOCK_HARMS_KIND | raise E0000001 0 / finally 1 1 / stopped BadRecord 00000000707FF990
unwinding BLOCK_HARMS_KIND_BY_4 | raise E0000001 0 / finally 1 1 / stopped BadRecord 00000000707FF990
unwinding BLOCK_HARMS_MARK | raise E0000001 0 / finally 1 1 / stopped BadRecord 00000000707FF990
both HARMS_ROW_BEFORE | raise E0000001 0 / filter 1 / answer 1 / stopped BadRecord 00000000707FF990
raising HARMS_ROW_BEFORE | raise E0000001 0 / filter 1 / answer 1 / stopped BadRecord 00000000707FF990
";

/// A record is rewritten where it was fetched. The least address of it and of its return address, 8
/// below it, that may not be written is that of the code's page, 0x140002000, for the record from
/// 0x140001F00 on; and 0x1400020F8 for the one at 0x140002100.
const IN_CODE: &str = r"
record_into_code | answer -1 / raise C0000025 1 / stack limit 0000000140002000
record_in_code | answer 1 / stack limit 00000001400020F8
";

#[test]
fn images_show_their_lines(rt: HostRuntime) {
    for table in [HANDLED, PASSED, STACK, FRAMES, HARMED, IN_CODE] {
        all_show(&rt, rt.alloc(), table);
    }
}

/// Adds the lines of a hundred `__finally` blocks, the innermost first. `main` has its frame at
/// 0x707FFFD8 - 40, 1887436720; each of the functions takes 8 bytes for its return address and 40
/// more.
fn add_frames(rt: &impl Abort, alloc: Global, lines: &mut String) {
    for k in 0..100_u64 {
        let frame = 1_887_436_720 - 48 * (100 - k);
        let block = format!(in alloc; " / finally 2 1 / {frame}").expect(rt, "memory");
        lines.push_str(&block).expect(rt, "memory");
    }
}

/// The lines of the run that passes those blocks.
fn hundred_lines(rt: &impl Abort, alloc: Global) -> String {
    let first = "raise E0000001 0 / filter 1 / answer 1";
    let mut lines = String::from_str(alloc, first).expect(rt, "memory");
    add_frames(rt, alloc, &mut lines);
    lines
        .push_str(" / except E0000001 / exit 7")
        .expect(rt, "memory");
    lines
}

#[test]
fn an_exception_passes_a_hundred_frames(rt: HostRuntime) {
    let lines = hundred_lines(&rt, rt.alloc());
    let bytes = hundred_frames(rt.alloc()).expect(&rt, "memory");
    shows(&rt, rt.alloc(), &bytes, TRACED, &lines);
}

// What is gathered at a row costs the logarithm of their number. The kind of a funclet is that of
// its first row.
#[test]
fn many_funclets_are_gathered(rt: HostRuntime) {
    let bytes = many_funclets(&rt, rt.alloc());
    let lines = "raise E0000001 0 / filter 21 / answer 1 / except E0000001 / exit 0";
    shows(&rt, rt.alloc(), &bytes, TRACED, lines);
}
