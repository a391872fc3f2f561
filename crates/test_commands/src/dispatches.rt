//! What `exec` shows of images with filters and `__finally` blocks.

use crate::inputs::all_answer;

/// In the last row one run has all that a trace shows: an access that its filter lets be made
/// again; a search in which one filter answers 0 and the next accepts, from the callee up to
/// `main`; a `__finally` block that raises: that search asks both filters anew, and its unwinding
/// continues at the callee's next block and at that of `main`; and the `__except` block of `main`.
const TRACES: &str = r"
exec --trace | filter_and_finally | 0 raise E0000001 0 / filter 2 / answer 2 / finally 1 1 / 1 / except E0000001 / 3 / exit 0
exec --trace | raise_in_finally | 0 raise E0000001 0 / filter 2 / answer 1 / finally 1 1 / 1 / raise E0000002 0 / filter 2 / answer 1 / except E0000002 / 5 / exit 7
exec --trace | continued_access | 0 raise C0000005 0 write 0000000020000000 / filter 1 / answer -1 / 5 / exit 7
exec --trace | store_and_collision | 0 raise C0000005 0 write 0000000020000000 / filter 1 / answer -1 / 5 / raise E0000001 0 / filter 2 / answer 0 / filter 3 / answer 1 / finally 5 1 / 1 / raise E0000002 0 / filter 2 / answer 0 / filter 3 / answer 1 / finally 6 1 / 2 / finally 4 1 / 4 / except E0000002 / 3 / exit 7
";

#[test]
fn dispatches_are_shown(rt: HostRuntime) {
    all_answer(&rt, rt.alloc(), TRACES);
}

/// The record of the raise is at 0x707FF990, and the walk that meets it can't continue; no record
/// is where the code says that one is; one has no room above the stack's end, in an image with a
/// function table and in one without; and the one scope record's jump target, which in a `main`
/// that is the second function comes after 8 bytes of the first info, 12 of the second and the
/// table's count, is in `.data`.
const HARMED: &str = r"
exec | harms_kind | 13 stopped BadRecord 00000000707FF990
exec | harms_row | 13 stopped BadRecord 00000000707FF990
exec | returns_as_filter | 13 stopped BadRecord 00000000707FFFD8
exec | returns_as_finally | 13 stopped BadRecord 00000000707FFFD8
exec | unwinds_to_no_frame | 13 stopped LostFrame 0000000000000000
exec | raises_at_the_guard | 11 stack limit 000000006FFFFFD8
exec | pushes_at_address_8 | 11 stack limit FFFFFFFFFFFFF9D8
";

#[test]
fn harmed_records_stop_a_run(rt: HostRuntime) {
    all_answer(&rt, rt.alloc(), HARMED);
}
