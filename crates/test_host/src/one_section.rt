//! Images of one section, loaded and run turn by turn.

use crate::shown::{Run, half_of, says, shows};
use pe_image::ImageView;
use seh_host::host::{Host, Turn};
use seh_host::loading::load;
use seh_host::mapping::{has_entry, has_place, regions};
use seh_host::run::{RunErr, run, turn};
use seh_host::{LoadErr, RunEnd};
use seh_io::plain::VecSink;
use seh_io::planned::{MemSink, Plan};
use seh_io::receiver::EventList;
use seh_num::event::Event;
use std::alloc::Global;
use std::process::Abort;
use test_tables::one_section::{FOURTEEN, Fields, PLAIN, image};
use test_tables::rows::{column, word};
use test_tables::words::{bytes_of, number_of};
use x64_memory::region::Region;

/// A run without an argument, of a hundred turns, with its trace.
const TRACED: Run = Run {
    argument: 0,
    turns: 100,
    trace: true,
};

/// The argument of a row `ARGUMENT | BYTES | INSTRUCTIONS | LINES`.
fn argument_of(rt: &impl Abort, row: &str) -> i64 {
    match column(row, 0).parse() {
        Ok(argument) => argument,
        Err(_) => panic!(rt; "no argument: {row}"),
    }
}

/// The image of code that words spell.
fn spelled(rt: &impl Abort, alloc: Global, words: &str) -> Vec<u8> {
    let code = bytes_of(alloc, words).expect(rt, "memory");
    image(alloc, PLAIN, &code).expect(rt, "memory")
}

/// Compares what a row's image shows with its lines.
fn row_shows(rt: &impl Abort, alloc: Global, row: &str) {
    let argument = argument_of(rt, row);
    let bytes = spelled(rt, alloc, column(row, 1));
    let how = Run { argument, ..TRACED };
    shows(rt, alloc, &bytes, how, column(row, 3));
}

/// Arguments, and statuses: the low 32 bits of RAX as a signed number.
const STATUSES: &str = r"
-5 | 89 C8 C3 | mov eax,ecx; ret | exit -5
32212254720 | 89 C8 C3 | mov eax,ecx; ret | exit -2147483648
7 | 48 B8 FF FF FF FF 01 00 00 00 C3 | mov rax,0x1FFFFFFFF; ret | exit -1
-9223372036854775808 | B8 10 00 F0 7F FF D0 C3 | mov eax,put; call rax; ret | -9223372036854775808 / exit 2146435088
0 | 89 E0 C3 | mov eax,esp; ret | exit 1887436760
";

/// Accesses of memory that isn't mapped, a page of the arena, a page of code, below the stack, and
/// of the return addresses of `put` and `walk` above it.
const ACCESSES: &str = r"
0 | 48 8B 0C 25 10 00 00 00 | mov rcx,[0x10] | raise C0000005 0 read 0000000000000010 / unhandled C0000005
0 | 89 04 25 00 00 00 20 | mov [0x20000000],eax | raise C0000005 0 write 0000000020000000 / unhandled C0000005
0 | 89 05 00 00 00 00 | mov [rip],eax | raise C0000005 0 write 0000000140001006 / unhandled C0000005
0 | BC 00 00 00 70 50 | mov esp,0x70000000; push rax | stack limit 000000006FFFFFF8
0 | BC 00 00 80 70 B8 10 00 F0 7F 50 C3 | mov esp,0x70800000; mov eax,put; push rax; ret | stopped Unreadable 0000000070800000
0 | BC 00 00 80 70 B8 B0 00 F0 7F 50 C3 | mov esp,0x70800000; mov eax,walk; push rax; ret | stopped Unreadable 0000000070800000
";

/// No instruction is there: a byte that begins none in 64-bit mode, the stack, which isn't
/// executable, the language handler, which is no code, and no service.
const PLACES: &str = r"
0 | B8 07 00 00 00 06 | mov eax,7 | stopped Illegal 0000000140001005
0 | B8 D0 FF 7F 70 50 C3 | mov eax,0x707FFFD0; push rax; ret | stopped Illegal 00000000707FFFD0
0 | B8 40 00 F0 7F FF D0 | mov eax,__C_specific_handler; call rax | stopped Illegal 000000007FF00040
0 | B8 11 00 F0 7F FF D0 | mov eax,0x7FF00011; call rax | stopped Illegal 000000007FF00011
";

#[test]
fn code_is_run(rt: HostRuntime) {
    for table in [STATUSES, ACCESSES, PLACES] {
        for row in table.lines().skip(1) {
            row_shows(&rt, rt.alloc(), row);
        }
    }
}

/// An image of a section of these instructions: push rax.
fn pushes(rt: &impl Abort, alloc: Global, fields: Fields, count: usize) -> Vec<u8> {
    let code = vec![in alloc; 0x50; count].expect(rt, "memory");
    image(alloc, fields, &code).expect(rt, "memory")
}

// The entry point is the section's last byte.
#[test]
fn code_ends_with_its_section(rt: HostRuntime) {
    let fields = Fields {
        entry: 0x1FFF,
        ..PLAIN
    };
    let bytes = pushes(&rt, rt.alloc(), fields, 4096);
    let lines = "stopped Illegal 0000000140002000";
    shows(&rt, rt.alloc(), &bytes, TRACED, lines);
}

/// An image that ends after 13 turns, by how many turns it has.
const TURNS: &str = r"
0 traced => out of turns 0
9 traced => out of turns 9
10 plain => 14 / out of turns 10
12 plain => 14 / out of turns 12
13 plain => 14 / exit 7
10000000 traced => 14 / exit 7
";

/// The run and the lines that a row says.
fn run_of(row: &str) -> Option<(Run, &str)> {
    let (words, lines) = row.split_once(" => ")?;
    let (turns, how) = words.split_once(' ')?;
    let how = Run {
        argument: 0,
        turns: turns.parse().ok()?,
        trace: how == "traced",
    };
    Some((how, lines))
}

/// Compares what a row's run shows with its lines.
fn run_shows(rt: &impl Abort, alloc: Global, bytes: &[u8], row: &str) {
    match run_of(row) {
        None => panic!(rt; "no run: {row}"),
        Some((how, lines)) => shows(rt, alloc, bytes, how, lines),
    }
}

#[test]
fn an_image_puts_and_exits(rt: HostRuntime) {
    let bytes = image(rt.alloc(), PLAIN, &FOURTEEN).expect(&rt, "memory");
    for row in TURNS.lines().skip(1) {
        run_shows(&rt, rt.alloc(), &bytes, row);
    }
}

/// A run begins where the one before it ended, and a run that has ended shows its end alone.
fn continues(rt: &impl Abort, alloc: Global, host: &mut Host<'_, '_>) {
    let mut out = VecSink::new(alloc);
    let first = RunEnd::OutOfTurns { turns: 10 };
    assert!(rt; run(host, 10, true, &mut out) == Ok(first));
    for _i in 0..2 {
        assert!(rt; run(host, 3, true, &mut out) == Ok(RunEnd::Exit(7)));
    }
    assert!(rt; out.bytes.as_slice() == b"14\nout of turns 10\nexit 7\nexit 7\n".as_slice());
}

/// No turn is made after the end.
fn ends(rt: &impl Abort, alloc: Global, host: &mut Host<'_, '_>) {
    let mut seen = EventList::new(alloc);
    for made in 1..=15 {
        let is_made = turn(host, &mut seen) == Turn::Made;
        assert!(rt; is_made == (made < 14), "turn {made}");
        assert!(rt; (seen.events.len() == 1) == (made >= 10), "turn {made}");
        assert!(rt; seen.events.len() < 2, "turn {made}");
    }
    assert!(rt; seen.events.as_slice() == [Event::Put(14)].as_slice());
    assert!(rt; !seen.lacks);
}

/// The number that a word of a row is.
fn count_of(rt: &impl Abort, word: &str) -> u64 {
    match word.parse() {
        Ok(count) => count,
        Err(_) => panic!(rt; "no number: {word}"),
    }
}

/// A sink of at most two bytes a call, of which one call fails.
fn sink(rt: &impl Abort, alloc: Global, call: u64) -> MemSink {
    let failing = [call].to_vec(alloc).expect(rt, "memory");
    MemSink::new(Vec::new(alloc), Plan::new(failing, 2))
}

/// The ends of a run whose sink fails and of one of three turns after it, and what was taken.
fn failed(
    rt: &impl Abort,
    alloc: Global,
    host: &mut Host<'_, '_>,
    call: u64,
    taken: u64,
) -> Vec<u8> {
    let mut out = sink(rt, alloc, call);
    assert!(rt;
        run(host, 100, false, &mut out) == Err(RunErr::Write { taken }),
        "call {call}"
    );
    assert!(rt;
        run(host, 3, false, &mut out) == Ok(RunEnd::Exit(7)),
        "call {call}"
    );
    out.bytes
}

/// No turn is made after the one whose line failed, and a later run continues from there: three
/// turns are left after the one that puts 14.
const FAILURES: &str = r"
1 0 | exit 7
2 2 | 14exit 7
3 3 | 14 / exit 7
";

/// Compares what a sink that fails takes with a row `CALL TAKEN | LINES`.
fn fails(rt: &impl Abort, alloc: Global, view: &ImageView<'_>, row: &str) {
    let words = column(row, 0);
    let call = count_of(rt, word(words, 0));
    let taken = count_of(rt, word(words, 1));
    let mut host = load(alloc, view, 0).expect(rt, "a host");
    let found = failed(rt, alloc, &mut host, call, taken);
    drop(host);
    says(rt, alloc, &found, column(row, 1));
}

#[test]
fn runs_go_on(rt: HostRuntime) {
    let bytes = image(rt.alloc(), PLAIN, &FOURTEEN).expect(&rt, "memory");
    let view = ImageView::read(rt.alloc(), &bytes).expect(&rt, "an image");
    for row in FAILURES.lines().skip(1) {
        fails(&rt, rt.alloc(), &view, row);
    }
    let mut host = load(rt.alloc(), &view, 0).expect(&rt, "a host");
    continues(&rt, rt.alloc(), &mut host);
}

#[test]
fn runs_end(rt: HostRuntime) {
    let bytes = image(rt.alloc(), PLAIN, &FOURTEEN).expect(&rt, "memory");
    let view = ImageView::read(rt.alloc(), &bytes).expect(&rt, "an image");
    let mut host = load(rt.alloc(), &view, 0).expect(&rt, "a host");
    ends(&rt, rt.alloc(), &mut host);
}

/// Images by base, size, entry point and characteristics of their section, in hexadecimal, and
/// whether they are loaded.
const LOADED: &str = r"
100000000 2000 1000 60000020 => loaded
140000000 10000000 1fff 20000020 => loaded
7fffffff0000 10000 1000 e0000020 => loaded
140010001 2000 1000 60000020 => Place 140010001
140008000 2000 1000 60000020 => Place 140008000
ffff0000 2000 1000 60000020 => Place ffff0000
140000000 10000001 1000 60000020 => Place 140000000
7fffffff0000 10001 1000 60000020 => Place 7fffffff0000
ffffffffffff0000 2000 1000 40000040 => Place ffffffffffff0000
140000000 2000 1000 c0000040 => Entry 1000
140000000 2000 fff 60000020 => Entry fff
140000000 2000 2000 60000020 => Entry 2000
";

/// The fields that words spell.
fn fields_of(words: &str) -> Option<Fields> {
    let mut words = words.split(' ');
    let base = number_of(words.next()?)?;
    let size = half_of(words.next()?)?;
    let entry = half_of(words.next()?)?;
    let characteristics = half_of(words.next()?)?;
    Some(Fields {
        base,
        entry,
        size,
        characteristics,
    })
}

/// The words of the answer of loading.
fn answer_of(rt: &impl Abort, alloc: Global, answer: Option<LoadErr>) -> String {
    let words = match answer {
        None => String::from_str(alloc, "loaded"),
        Some(LoadErr::Place { base }) => { format!(in alloc; "Place {base:x}") }
        Some(LoadErr::Entry { rva }) => { format!(in alloc; "Entry {rva:x}") }
        Some(other) => { format!(in alloc; "{other:?}") }
    };
    words.expect(rt, "memory")
}

/// Compares what loading answers for an image's bytes with words.
fn loads(rt: &impl Abort, alloc: Global, bytes: &[u8], wanted: &str) {
    let view = ImageView::read(alloc, bytes).expect(rt, "an image");
    assert!(rt; has_place(&view) != wanted.starts_with("Place"), "{wanted}");
    assert!(rt; wanted != "loaded" || has_entry(&view), "{wanted}");
    let refusal = load(alloc, &view, 0).err();
    drop(view);
    let answer = answer_of(rt, alloc, refusal);
    assert!(rt; answer.as_str() == wanted, "{answer}");
}

/// The same of the image of a row.
fn row_loads(rt: &impl Abort, alloc: Global, row: &str) {
    let (words, wanted) = row.split_once(" => ").unwrap_or((row, ""));
    let Some(fields) = fields_of(words) else {
        panic!(rt; "no fields: {row}")
    };
    let bytes = image(alloc, fields, &FOURTEEN).expect(rt, "memory");
    loads(rt, alloc, &bytes, wanted);
}

#[test]
fn images_are_loaded_or_refused(rt: HostRuntime) {
    for row in LOADED.lines().skip(1) {
        row_loads(&rt, rt.alloc(), row);
    }
}

/// The arena, the data stack, the stack and a section.
const REGIONS: &str = r"
20000000 20100000 no access
30000000 30400000 read and write
70000000 70800000 read and write
140001000 140003000 read and execute
";

/// The region of a row.
fn region_of(row: &str) -> Option<Region> {
    let (start, rest) = row.split_once(' ')?;
    let (end, rights) = rest.split_once(' ')?;
    Some(Region {
        start: number_of(start)?,
        end: number_of(end)?,
        read: rights.starts_with("read"),
        write: rights == "read and write",
        execute: rights == "read and execute",
    })
}

/// Compares regions with those of the table.
fn are_regions(rt: &impl Abort, found: &[Region]) {
    let mut rows = REGIONS.lines().skip(1);
    for region in found {
        match rows.next() {
            None => panic!(rt; "no more rows"),
            Some(row) => assert!(rt; Some(*region) == region_of(row), "{row}"),
        }
    }
    assert!(rt; rows.next().is_none());
}

#[test]
fn an_image_has_its_regions(rt: HostRuntime) {
    let fields = Fields {
        size: 0x3000,
        ..PLAIN
    };
    let bytes = pushes(&rt, rt.alloc(), fields, 4097);
    let view = ImageView::read(rt.alloc(), &bytes).expect(&rt, "an image");
    assert!(rt; has_place(&view));
    let found = regions(rt.alloc(), &view).expect(&rt, "memory");
    are_regions(&rt, &found);
}

#[test]
fn a_section_is_within_its_image(rt: HostRuntime) {
    let bytes = pushes(&rt, rt.alloc(), PLAIN, 4097);
    assert!(rt; ImageView::read(rt.alloc(), &bytes).is_err());
}
