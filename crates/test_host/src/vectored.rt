//! Vectored handlers: in which order they are asked, what their answers do, and the list of them.
//!
//! The table is one text. Each line after its first is a row, `IMAGE | LINES`: the image that words
//! name, and the lines that its run shows, joined by ` / `. A vectored handler has no event.

use crate::shown::{Run, shows};
use std::alloc::{AllocError, Global};
use std::process::Abort;
use test_tables::one_section::{PLAIN, image};
use test_tables::vectored::{
    ADDED_BY_ECX, ADDS_AND_REMOVES, ADDS_SEVENTEEN, ASKED_IN_ORDER, CONTINUES_ACCESS, PUTS_CODE,
    REMOVES_ITSELF, SHOWS_RECORD, VECTORED_HARMS_KIND, VECTORED_HARMS_MARK, VECTORED_HARMS_PLACE,
    VECTORED_HARMS_WALK, VECTORED_IN_VAIN, adds_while_asked, asked_first, asked_once,
    raises_while_asked,
};

/// A run without an argument, of ten thousand turns, with its trace.
const TRACED: Run = Run {
    argument: 0,
    turns: 10_000,
    trace: true,
};

/// The code of an image of one section.
fn code_of(name: &str) -> &'static [u8] {
    match name {
        "ASKED_IN_ORDER" => ASKED_IN_ORDER,
        "ADDED_BY_ECX" => ADDED_BY_ECX,
        "CONTINUES_ACCESS" => CONTINUES_ACCESS,
        "REMOVES_ITSELF" => REMOVES_ITSELF,
        "ADDS_SEVENTEEN" => ADDS_SEVENTEEN,
        "ADDS_AND_REMOVES" => ADDS_AND_REMOVES,
        "VECTORED_IN_VAIN" => VECTORED_IN_VAIN,
        _ => SHOWS_RECORD,
    }
}

/// The image that words name.
fn vectored_image(alloc: Global, words: &str) -> Result<Vec<u8>, AllocError> {
    match words {
        "PUTS_CODE" => asked_first(alloc, PUTS_CODE),
        "VECTORED_HARMS_WALK" => asked_first(alloc, VECTORED_HARMS_WALK),
        "adds_while_asked 0" => adds_while_asked(alloc, 0),
        "adds_while_asked 1" => adds_while_asked(alloc, 1),
        "raises_while_asked 1" => raises_while_asked(alloc, 1),
        "raises_while_asked 4" => raises_while_asked(alloc, 4),
        "VECTORED_HARMS_KIND" => asked_once(alloc, VECTORED_HARMS_KIND),
        "VECTORED_HARMS_MARK" => asked_once(alloc, VECTORED_HARMS_MARK),
        "VECTORED_HARMS_PLACE" => asked_once(alloc, VECTORED_HARMS_PLACE),
        _ => image(alloc, PLAIN, code_of(words)),
    }
}

/// A handler is asked before the filter, for which the record's kind is 1 again, and with the code,
/// 3758096385. One that is added in front is asked before the others, one for which ECX is 0 after
/// them; one that continues an access is the last. What can't be continued is raised anew, and the
/// first one is asked again.
///
/// The place rises in the list as it then is: of three, the one after one that takes itself out
/// isn't asked; one that is added behind is asked, and one that adds another in front is asked
/// twice, where it adds nothing. A 17th isn't added, nor one that is there; one that isn't there
/// isn't taken out.
///
/// The record has kind 4, the place 1, no frame, and RDX is 0. It is at 0x707FF9B0, 1,568 below RSP
/// of the raise, 0x707FFFD8, or at 0x707FF990 of the function with a frame of 40. The return wants
/// its mark and its kind; past the list's end is every place from there on. The search begins from
/// the saved state, whatever the handler left of the walk. A search from within a handler passes
/// the return, where it wants the kind too.
const VECTORED: &str = r"
PUTS_CODE | raise E0000001 0 / 3758096385 / filter 1 / 1 / answer 2 / except E0000001 / 3 / exit 0
ASKED_IN_ORDER | raise E0000001 0 / 1 / 2 / unhandled E0000001
ADDED_BY_ECX | raise E0000001 0 / 1 / 2 / unhandled E0000001
CONTINUES_ACCESS | raise C0000005 0 read 0000000020000000 / 0 / exit 0
VECTORED_IN_VAIN | raise E0000001 1 / 5 / raise C0000025 1 / 5 / unhandled C0000025
REMOVES_ITSELF | raise E0000001 0 / 1 / 3 / raise E0000001 0 / 2 / 3 / exit 0
adds_while_asked 0 | raise E0000001 0 / 1 / 2 / unhandled E0000001
adds_while_asked 1 | raise E0000001 0 / 1 / 0 / unhandled E0000001
ADDS_SEVENTEEN | 1 / 1 / 1 / 1 / 1 / 1 / 1 / 1 / 1 / 1 / 1 / 1 / 1 / 1 / 1 / 1 / 0 / exit 0
ADDS_AND_REMOVES | 1 / 0 / 0 / 1 / 0 / 1 / exit 0
SHOWS_RECORD | raise E0000001 1 / 4 / 1 / 0 / 0 / unhandled E0000001
VECTORED_HARMS_KIND | raise E0000001 0 / stopped BadRecord 00000000707FF9B0
VECTORED_HARMS_MARK | raise E0000001 0 / stopped BadRecord 00000000707FF9B0
VECTORED_HARMS_PLACE | raise E0000001 0 / unhandled E0000001
VECTORED_HARMS_WALK | raise E0000001 0 / filter 1 / 1 / answer 2 / except E0000001 / 3 / exit 0
raises_while_asked 4 | raise E0000001 0 / raise E0000002 0 / filter 1 / 1 / answer 2 / except E0000002 / 3 / exit 0
raises_while_asked 1 | raise E0000001 0 / raise E0000002 0 / stopped BadRecord 00000000707FF990
";

#[test]
fn vectored_handlers_are_asked(rt: HostRuntime) {
    for row in VECTORED.lines().skip(1) {
        let (words, lines) = row.split_once(" | ").unwrap_or((row, ""));
        let bytes = vectored_image(rt.alloc(), words).expect(&rt, "memory");
        shows(&rt, rt.alloc(), &bytes, TRACED, lines);
    }
}
