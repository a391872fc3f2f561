ghost use Rattle.std.specs.Prelude.{◌≡◌, ℕ, All, IfOk};
ghost use Rattle.seh_num.specs.declared.width.Width.TheVariants.{W64};
ghost use Rattle.flat_memory.specs.Memory.{loaded, after_store};
ghost use Rattle.x64_memory.specs.PageMaps.{holds};
ghost use Rattle.x64_memory.specs.Regions.{AreAscending, IsWholeRegion, HoldsArena, in_regions, mapped};

use crate::rows::{number, number_at, same, width_of};
use flat_memory::access::RefusedAccess;
use seh_num::width::Width;
use std::alloc::{AllocError, Global};
use std::process::Abort;
use test_tables::rows::{column, word, word_if};
use test_tables::words::are_spelled;
use x64_memory::page_map::PageMap;
use x64_memory::region::Region;
use x64_memory::space::AddressSpace;

/// The arena, two pages of code, two of data and one of constants after them, and a page on either
/// side of the stack's guard.
const REGIONS: [Region; 6] = [
    Region {
        start: 0x2000_0000,
        end: 0x2010_0000,
        read: false,
        write: false,
        execute: false,
    },
    Region {
        start: 0x4000_0000,
        end: 0x4000_2000,
        read: true,
        write: false,
        execute: true,
    },
    Region {
        start: 0x4000_2000,
        end: 0x4000_4000,
        read: true,
        write: true,
        execute: false,
    },
    Region {
        start: 0x4000_4000,
        end: 0x4000_5000,
        read: true,
        write: false,
        execute: false,
    },
    Region {
        start: 0x6FFE_F000,
        end: 0x6FFF_0000,
        read: true,
        write: true,
        execute: false,
    },
    Region {
        start: 0x7000_0000,
        end: 0x7000_1000,
        read: true,
        write: true,
        execute: false,
    },
];

fn space(alloc: Global) -> Result<PageMap, AllocError>
    ensures { IfOk result (λ s. (a : ℕ) → holds s a ≡ in_regions REGIONS a) }
{
    PageMap::new(alloc, &REGIONS)
}

/// The bytes 1 to 16 over the end of the first page of code, and 7s over the end of the data.
fn filled_space(rt: &impl Abort, alloc: Global) -> PageMap {
    let mut space = space(alloc).expect(rt, "memory");
    space.fill(
        0x4000_0FF8,
        &[1, 2, 3, 4, 5, 6, 7, 8, 9, 10, 11, 12, 13, 14, 15, 16],
    );
    space.fill(0x4000_2FFE, &[7; 4100]);
    space
}

/// What is asked of memory at an address.
#[derive(Clone, Copy)]
enum Access {
    Load(Width),
    MayStore(Width),
    Store(Width, u64),
    Protect(i32),
}

/// The number that is loaded, 1 and 0 for yes and no, 0 where a store is made; or the refusal.
type Answer = Result<u64, RefusedAccess>;

fn answer_of<S: AddressSpace>(space: &mut S, at: u64, access: Access) -> Answer {
    match access {
        Access::Load(width) => space.load(at, width),
        Access::MayStore(width) => space.may_store(at, width).map(|()| 0),
        Access::Store(width, value) => space.store(at, width, value).map(|()| 0),
        Access::Protect(mode) => Ok(u64::from(space.protect(at, mode))),
    }
}

/// A row `AT WIDTH`, which is a load, `AT WIDTH NUMBER`, a store, or `AT mode NUMBER`, with its
/// answer after a bar.
#[derive(Clone, Copy)]
struct Row {
    at: u64,
    access: Access,
    want: Answer,
}

/// The rights of a page, by their number.
fn mode_of(rt: &impl Abort, word: &str) -> i32 {
    match word.parse() {
        Ok(mode) => mode,
        Err(_) => panic!(rt; "no number: {word}"),
    }
}

/// The access that the words of a row say.
fn access_of(rt: &impl Abort, words: &str) -> Access {
    let first = word(words, 1);
    match word_if(words, 2) {
        None => Access::Load(width_of(rt, first)),
        Some(mode) if first == "mode" => Access::Protect(mode_of(rt, mode)),
        Some(value) => Access::Store(width_of(rt, first), number(rt, value)),
    }
}

/// The answer that words say: one, or for a refusal one and the address after it.
fn answer_in(rt: &impl Abort, words: &str, write: bool) -> Answer {
    let first = word(words, 0);
    if first == "guard" {
        let address = number_at(rt, words, 1);
        return Err(RefusedAccess::Guard { address });
    }
    if first == "fault" {
        let address = number_at(rt, words, 1);
        return Err(RefusedAccess::Fault { address, write });
    }
    Ok(match first {
        "done" | "no" => 0,
        "yes" => 1,
        _ => number(rt, first),
    })
}

/// What a row has.
fn row_of(rt: &impl Abort, row: &str) -> Row {
    let words = column(row, 0);
    let access = access_of(rt, words);
    let write = matches!(access, Access::Store(..));
    Row {
        at: number_at(rt, words, 0),
        access,
        want: answer_in(rt, column(row, 1), write),
    }
}

/// Compares the answers of a table's rows, one after another.
fn all_answer<S: AddressSpace>(rt: &impl Abort, space: &mut S, table: &str) {
    for text in table.lines().skip(1) {
        let row = row_of(rt, text);
        let answer = answer_of(space, row.at, row.access);
        same(rt, answer, row.want, text);
    }
}

/// Loads of [`filled_space`].
const LOADS: &str = r"
40000FF7 8  | 0
40000FF8 8  | 1
40000FF8 16 | 0201
40000FFC 32 | 08070605
40000FF8 64 | 0807060504030201
40000FFF 16 | 0908             | over the end of a page
40000FFD 32 | 09080706
40000FFC 64 | 0C0B0A0908070605
40001007 16 | 0010
40002FFC 32 | 07070000         | over all of a page, and from the data to the constants
40003800 8  | 7
40003FFC 64 | 0000070707070707
40004002 64 | 0
20000000 8  | fault 20000000   | nothing may be read in the arena, and nothing else is mapped
3FFFFFFC 64 | fault 3FFFFFFC
40004FFE 32 | fault 40005000
FFFFFFFFFFFFFFFF 16 | fault FFFFFFFFFFFFFFFF
6FFEFFFF 8  | 0                | the guard, by the first byte that lies in it
6FFEFFFC 64 | guard 6FFF0000
6FFF0000 8  | guard 6FFF0000
6FFFFFFC 64 | guard 6FFFFFFC
70000000 8  | 0
70000FFA 64 | fault 70001000
";

#[test]
fn loads_what_was_filled(rt: HostRuntime) {
    let mut space = filled_space(&rt, rt.alloc());
    all_answer(&rt, &mut space, LOADS);
}

/// What is loaded again where 1122334455667788h was stored; the last three are over the end of a
/// page.
const STORED: &str = r"
40002002 8  | 88
40002102 16 | 7788
40002202 32 | 55667788
40002302 64 | 1122334455667788
40002FFF 16 | 7788
40002FFD 32 | 55667788
40002FF9 64 | 1122334455667788
";

/// What lies beside it.
const BESIDE: &str = r"
40002000 64 | 00880000
40002100 64 | 77880000
40002200 64 | 556677880000
40002308 64 | 1122
40002FF1 64 | 0
40003000 64 | 11
";

/// Puts a number where a row loads, which then answers as the row says.
fn stores<S: AddressSpace>(rt: &impl Abort, space: &mut S, text: &str) {
    let row = row_of(rt, text);
    if let Access::Load(width) = row.access {
        let made = Access::Store(width, 0x1122_3344_5566_7788);
        let may = answer_of(space, row.at, Access::MayStore(width));
        same(rt, may, Ok(0), text);
        same(rt, answer_of(space, row.at, made), Ok(0), text);
    }
    same(rt, answer_of(space, row.at, row.access), row.want, text);
}

#[test]
fn loads_what_was_stored(rt: HostRuntime) {
    let mut space = space(rt.alloc()).expect(&rt, "memory");
    for text in STORED.lines().skip(1) {
        stores(&rt, &mut space, text);
    }
    all_answer(&rt, &mut space, BESIDE);
}

/// Stores that are refused, by the first byte that may not be written.
const REFUSED: &str = r"
40000FF8 8 0  | fault 40000FF8
40003FFF 16 0 | fault 40004000
40003FFD 32 0 | fault 40004000
40003FF9 64 0 | fault 40004000
40001FFC 64 0 | fault 40001FFC
20000000 64 0 | fault 20000000
70000FFF 32 0 | fault 70001000
FFFFFFFFFFFFFFFF 64 0 | fault FFFFFFFFFFFFFFFF
";

/// The same by the guard. What lies below it stays.
const GUARDED: &str = r"
6FFEFFFC 64 FFFFFFFFFFFFFFFF | guard 6FFF0000
6FFEFFFC 32                  | 0
6FFFFFFF 8 1                 | guard 6FFFFFFF
";

/// A refused store leaves what is loaded there.
fn is_refused<S: AddressSpace>(rt: &impl Abort, space: &mut S, text: &str) {
    let row = row_of(rt, text);
    let before = space.load(row.at, Width::W8);
    if let Access::Store(width, _) = row.access {
        let may = answer_of(space, row.at, Access::MayStore(width));
        same(rt, may, row.want, text);
    }
    same(rt, answer_of(space, row.at, row.access), row.want, text);
    same(rt, space.load(row.at, Width::W8), before, text);
}

#[test]
fn refused_stores_change_nothing(rt: HostRuntime) {
    let mut space = filled_space(&rt, rt.alloc());
    for text in REFUSED.lines().skip(1) {
        is_refused(&rt, &mut space, text);
    }
    all_answer(&rt, &mut space, GUARDED);
}

/// The bytes that are fetched of 15. The fourth row's next page isn't executable; nor are the
/// arena and what isn't mapped.
const FETCHED: &str = r"
40000FF8 | 1 2 3 4 5 6 7 8 9 A B C D E F
40000FFF | 8 9 A B C D E F 10 0 0 0 0 0 0
40001FF1 | 0 0 0 0 0 0 0 0 0 0 0 0 0 0 0
40001FF2 | 0 0 0 0 0 0 0 0 0 0 0 0 0 0
40001FFF | 0
40003000 |
20000000 |
3FFFFFFF |
FFFFFFFFFFFFFFFF |
";

/// Compares what is fetched at a row's address with its bytes.
fn fetches<S: AddressSpace>(rt: &impl Abort, space: &S, row: &str) {
    let words = column(row, 1);
    let mut into = [255; 15];
    let count = space.fetch(number(rt, column(row, 0)), &mut into);
    assert!(rt;
        are_spelled(&into[..count], words),
        "{row}: {count} of {into:?}"
    );
}

#[test]
fn fetches_executable_bytes(rt: HostRuntime) {
    let space = filled_space(&rt, rt.alloc());
    for row in FETCHED.lines().skip(1) {
        fetches(&rt, &space, row);
    }
}

/// Rights of pages that are asked for, and accesses after it.
const MODES: &str = r"
20005FF0 mode 3  | no
20005FF0 mode -1 | no
1FFFFFFF mode 2  | no
20100000 mode 2  | no
40000000 mode 2  | no
20000000 mode 2  | yes
200FFFFF mode 1  | yes
20005FF0 mode 2  | yes
40000000 8 1     | fault 40000000
200FF000 8       | 0
20005FF0 64 4D   | done
20004FFF 8       | fault 20004FFF | the page that was asked for alone
20005FFC 64 1    | fault 20006000
20005000 mode 0  | yes            | the bytes outlive each mode
20005FF0 64      | fault 20005FF0
20005FFF mode 1  | yes
20005FF0 64      | 4D
20005FF0 64 4E   | fault 20005FF0
20005FF0 mode 4  | no
20005FF0 64      | 4D
";

#[test]
fn protects_pages_of_the_arena(rt: HostRuntime) {
    let mut space = space(rt.alloc()).expect(&rt, "memory");
    all_answer(&rt, &mut space, MODES);
    // Nothing of the arena is executable.
    fetches(&rt, &space, "20005FF0 |");
}

fn stored_then_loaded<S: AddressSpace>(
    space: &mut S,
    at: u64,
    value: u64,
) -> Result<u64, RefusedAccess>
    ensures { result ≡ loaded (after_store (S.memory space.old) at W64 value) at W64 }
{
    let _ = space.store(at, Width::W64, value);
    space.load(at, Width::W64)
}

/// What is generic over the trait speaks of the memory that `new` made.
fn in_new_memory(
    alloc: Global,
    regions: &[Region],
    at: u64,
    value: u64,
) -> Result<Result<u64, RefusedAccess>, AllocError>
    requires whole { All IsWholeRegion regions.now }
    requires ascending { AreAscending 0 regions.now }
    requires arena { HoldsArena regions.now }
    ensures { IfOk result (λ r. r ≡ loaded (after_store (mapped regions.now) at W64 value) at W64) }
{
    let mut space = PageMap::new(alloc, regions)?;
    Ok(stored_then_loaded(&mut space, at, value))
}

#[test]
fn a_generic_caller_sees_what_was_made(rt: HostRuntime) {
    let found = in_new_memory(rt.alloc(), &REGIONS, 0x4000_2000, 5).expect(&rt, "memory");
    same(&rt, found, Ok(5), "a number");
}
