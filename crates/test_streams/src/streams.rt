//! Lines of events and of ends, and sources and sinks of which calls fail.

ghost use Rattle.std.specs.Prelude.{◌<◌};

use seh_io::names::NoNames;
use seh_io::plain::{SliceSource, VecSink};
use seh_io::planned::{MemSink, MemSource, Plan};
use seh_io::reading::{ReadErr, read_all};
use seh_io::receiver::{EventList, Events, Lines, put_text, replay};
use seh_io::source::Source;
use seh_io::text::{put_end, put_event};
use seh_io::writing::{WriteFault, put_all};
use seh_num::end::{Reason, RunEnd};
use seh_num::event::{Code, Event};
use std::alloc::{AllocError, Global};
use std::fmt::Debug;
use std::process::Abort;
use std::test::Fail;
use test_tables::rows::{column, word};
use test_tables::words::number_of;

const VIOLATION: Code = Code(0xC000_0005);

const EVENTS: [Event; 9] = [
    Event::Put(-9_223_372_036_854_775_808),
    Event::Raise {
        code: VIOLATION,
        flag: false,
        access: Some((true, 0x7000_0000)),
    },
    Event::Raise {
        code: VIOLATION,
        flag: true,
        access: Some((false, 0xFEDC_BA98_7654_3210)),
    },
    Event::Raise {
        code: Code(0xE000_00AF),
        flag: true,
        access: Some((true, 16)),
    },
    Event::Filter(4_294_967_295),
    Event::Answer(-1),
    Event::Finally {
        number: 0,
        abnormal: true,
    },
    Event::Except(VIOLATION),
    Event::Put(14),
];

/// Compares two values, and says of what they are.
fn same<T: Copy + PartialEq + Debug>(rt: &impl Abort, found: T, want: T, note: &str) {
    assert_eq!(rt; found, want, "{note}");
}

/// Compares bytes.
fn same_bytes(rt: &impl Abort, found: &[u8], want: &[u8]) {
    assert_eq!(rt; found, want);
}

/// Compares the text of a run.
fn is_written(
    rt: &impl Abort,
    alloc: Global,
    trace: bool,
    events: &[Event],
    end: &RunEnd,
    text: &[u8],
) {
    let mut out = VecSink::new(alloc);
    same(
        rt,
        put_text(&mut out, trace, events, end, &NoNames),
        Ok(()),
        "a text",
    );
    same_bytes(rt, &out.bytes, text);
}

#[test]
fn lines_of_a_trace(rt: HostRuntime) {
    let text = b"-9223372036854775808\n\
        raise C0000005 0 write 0000000070000000\n\
        raise C0000005 1 read FEDCBA9876543210\n\
        raise E00000AF 1\n\
        filter 4294967295\n\
        answer -1\n\
        finally 0 1\n\
        except C0000005\n\
        14\n\
        exit 7\n";
    is_written(&rt, rt.alloc(), true, &EVENTS, &RunEnd::Exit(7), text);
}

#[test]
fn lines_without_a_trace(rt: HostRuntime) {
    let end = RunEnd::Unhandled(VIOLATION);
    let text = b"-9223372036854775808\n14\nunhandled C0000005\n";
    is_written(&rt, rt.alloc(), false, &EVENTS, &end, text);
}

/// Ends of runs, with an address in hexadecimal, and their lines.
const ENDS: &str = r"
exit -2147483648           | exit -2147483648
limit ABC                  | stack limit 0000000000000ABC
turns 18446744073709551615 | out of turns 18446744073709551615
illegal 1                  | stopped Illegal 0000000000000001
record 2                   | stopped BadRecord 0000000000000002
unreadable 3               | stopped Unreadable 0000000000000003
backward 4                 | stopped Backward 0000000000000004
frame 5                    | stopped LostFrame 0000000000000005
";

/// Why a run was stopped, by a word.
fn reason_of(rt: &impl Abort, word: &str) -> Reason {
    match word {
        "illegal" => Reason::Illegal,
        "record" => Reason::BadRecord,
        "unreadable" => Reason::Unreadable,
        "backward" => Reason::Backward,
        "frame" => Reason::LostFrame,
        _ => panic!(rt; "no reason: {word}"),
    }
}

/// The end that a word says, with the number after it.
fn end_of(rt: &impl Abort, what: &str, value: &str) -> Option<RunEnd> {
    match what {
        "exit" => Some(RunEnd::Exit(value.parse().ok()?)),
        "turns" => Some(RunEnd::OutOfTurns {
            turns: value.parse().ok()?,
        }),
        "limit" => Some(RunEnd::StackLimit {
            address: number_of(value)?,
        }),
        _ => Some(RunEnd::Stopped {
            why: reason_of(rt, what),
            address: number_of(value)?,
        }),
    }
}

/// Compares the line of an end.
fn ends_with(rt: &impl Abort, alloc: Global, end: &RunEnd, want: &str) {
    let mut out = VecSink::new(alloc);
    same(rt, put_end(&mut out, end), Ok(()), want);
    let line = out.bytes.strip_suffix(b"\n").unwrap_or(b"no line");
    same_bytes(rt, line, want.as_bytes());
}

#[test]
fn lines_of_ends(rt: HostRuntime) {
    for row in ENDS.lines().skip(1) {
        let words = column(row, 0);
        match end_of(&rt, word(words, 0), word(words, 1)) {
            None => panic!(rt; "no end: {row}"),
            Some(end) => ends_with(&rt, rt.alloc(), &end, column(row, 1)),
        }
    }
}

const TEXT: &[u8] = b"int main";

/// A source of the text `int main`, of which these calls fail and no call gives more than so many
/// bytes.
fn source(alloc: Global, failing: &[u64], most: usize) -> Result<MemSource, AllocError>
    requires { 0 < most }
{
    let bytes = TEXT.to_vec(alloc)?;
    Ok(MemSource::new(bytes, plan(alloc, failing, most)?))
}

fn plan(alloc: Global, failing: &[u64], most: usize) -> Result<Plan, AllocError>
    requires { 0 < most }
{
    Ok(Plan::new(failing.to_vec(alloc)?, most))
}

/// A sink that has taken nothing.
fn sink(alloc: Global, failing: &[u64], most: usize) -> Result<MemSink, AllocError>
    requires { 0 < most }
{
    Ok(MemSink::new(Vec::new(alloc), plan(alloc, failing, most)?))
}

/// Compares all that is read of a source.
fn is_read<S: Source>(rt: &impl Abort, alloc: Global, src: &mut S, limit: u64, want: &[u8]) {
    match read_all(alloc, src, limit) {
        Ok(bytes) => same_bytes(rt, &bytes, want),
        Err(why) => panic!(rt; "not read: {why:?}"),
    }
}

/// Compares why a source isn't read.
fn is_refused<S: Source>(rt: &impl Abort, alloc: Global, src: &mut S, limit: u64, want: ReadErr) {
    same(
        rt,
        read_all(alloc, src, limit).err(),
        Some(want),
        "a refusal",
    );
}

#[test]
fn one_byte_a_read(rt: HostRuntime) -> Result<(), Fail> {
    let mut src = source(rt.alloc(), &[], 1)?;
    is_read(&rt, rt.alloc(), &mut src, 100, TEXT);
    same(&rt, src.plan.calls, 9, "calls");
    Ok(())
}

#[test]
fn one_byte_a_write(rt: HostRuntime) -> Result<(), Fail> {
    let mut out = sink(rt.alloc(), &[], 1)?;
    same(&rt, put_all(&mut out, TEXT), Ok(()), "a write");
    same_bytes(&rt, &out.bytes, TEXT);
    same(&rt, out.plan.calls, 8, "calls");
    Ok(())
}

#[test]
fn first_read_fails(rt: HostRuntime) -> Result<(), Fail> {
    let mut src = source(rt.alloc(), &[1], 4096)?;
    is_refused(&rt, rt.alloc(), &mut src, 100, ReadErr::Fault);
    same(&rt, src.plan.faults, 1, "faults");
    is_read(&rt, rt.alloc(), &mut src, 100, TEXT);
    Ok(())
}

#[test]
fn third_read_fails(rt: HostRuntime) -> Result<(), Fail> {
    let mut src = source(rt.alloc(), &[3], 2)?;
    is_refused(&rt, rt.alloc(), &mut src, 100, ReadErr::Fault);
    same(&rt, src.given, 4, "bytes");
    let mut buf = [0; 3];
    same(&rt, src.read(&mut buf), Ok(2), "a read");
    same(&rt, buf, *b"ma\0", "bytes");
    Ok(())
}

#[test]
fn as_long_as_the_limit(rt: HostRuntime) {
    let text = [7; 5000];
    is_read(&rt, rt.alloc(), &mut SliceSource::new(&text), 5000, &text);
    let mut src = SliceSource::new(&text);
    let too_long = ReadErr::TooLong { limit: 4998 };
    is_refused(&rt, rt.alloc(), &mut src, 4998, too_long);
    same(&rt, src.rest.len(), 1, "bytes");
    is_read(&rt, rt.alloc(), &mut SliceSource::new(b""), 0, b"");
    let too_long = ReadErr::TooLong { limit: 0 };
    is_refused(&rt, rt.alloc(), &mut SliceSource::new(b"a"), 0, too_long);
}

#[test]
fn sink_that_takes_two_bytes(rt: HostRuntime) -> Result<(), Fail> {
    let mut out = sink(rt.alloc(), &[2], 2)?;
    let written = put_text(&mut out, false, &EVENTS[8..], &RunEnd::Exit(7), &NoNames);
    same(&rt, written, Err(WriteFault { taken: 2 }), "a text");
    same_bytes(&rt, &out.bytes, b"14");
    same(&rt, out.plan.faults, 1, "faults");
    Ok(())
}

/// Compares what a sink has taken, in how many calls.
fn has_taken(rt: &impl Abort, out: &MemSink, want: &[u8], calls: u64) {
    same_bytes(rt, &out.bytes, want);
    same(rt, out.plan.calls, calls, "calls");
}

/// Gives a sink whose second call fails three events and an end.
fn takes_no_more(rt: &impl Abort, out: &mut MemSink) {
    let mut lines = Lines::new(out, false, &NoNames);
    lines.take(&Event::Put(1));
    lines.take(&Event::Put(2));
    assert!(rt; lines.failed);
    lines.take(&Event::Put(3));
    same(
        rt,
        lines.end(&RunEnd::Exit(0)),
        Err(WriteFault { taken: 2 }),
        "an end",
    );
}

#[test]
fn nothing_after_a_fault(rt: HostRuntime) -> Result<(), Fail> {
    let mut out = sink(rt.alloc(), &[2], 4096)?;
    takes_no_more(&rt, &mut out);
    has_taken(&rt, &out, b"1\n", 2);
    same(
        &rt,
        put_event(&mut out, false, &Event::Filter(1), &NoNames),
        Ok(()),
        "no line",
    );
    has_taken(&rt, &out, b"1\n", 2);
    same(
        &rt,
        put_event(&mut out, true, &Event::Filter(1), &NoNames),
        Ok(()),
        "a line",
    );
    has_taken(&rt, &out, b"1\nfilter 1\n", 3);
    Ok(())
}

#[test]
fn list_of_events(rt: HostRuntime) {
    let mut list = EventList::new(rt.alloc());
    replay(&mut list, &EVENTS);
    assert!(rt; !list.lacks);
    assert_eq!(rt; list.events.as_slice(), EVENTS.as_slice());
}
