//! The lines of a run's text.

ghost use Rattle.std.specs.Prelude.{◌≡◌, ◌+◌, ◌<◌, ◌≤◌, ◌++◌, length, take, Some, OnOk, OnErr, IfErr};
ghost use Rattle.seh_io.specs.Streams.{Faultless, Faulted, Grew};
ghost use Rattle.seh_io.specs.Lengths.{longest_access, longest_reason};
ghost use Rattle.seh_io.specs.declared.line.TheConstants.{LONGEST_LINE, CODE_DIGITS, ADDRESS_DIGITS};
ghost use Rattle.seh_io.specs.Names.{no_names};
ghost use Rattle.seh_io.specs.Text.{line, at_line, end_line, text, flag_text, code_text, address_text, access_text, reason_text, event_text};

use crate::line::{ADDRESS_DIGITS, CODE_DIGITS, Line};
use crate::names::Names;
use crate::sink::Sink;
use crate::writing::{WriteFault, put_after, put_all};
use seh_num::code::ACCESS_VIOLATION;
use seh_num::end::{Reason, RunEnd};
use seh_num::event::{Code, Event};

fn put_code(line: &mut Line, code: Code)
    requires { length line.old + CODE_DIGITS ≤ LONGEST_LINE }
    ensures value { line.new ≡ line.old ++ code_text code }
    ensures len { length line.new ≡ length line.old + CODE_DIGITS }
{
    line.hexadecimal(CODE_DIGITS, u64::from(code.0));
}

fn put_address(line: &mut Line, address: u64)
    requires { length line.old + ADDRESS_DIGITS ≤ LONGEST_LINE }
    ensures value { line.new ≡ line.old ++ address_text address }
    ensures len { length line.new ≡ length line.old + ADDRESS_DIGITS }
{
    line.hexadecimal(ADDRESS_DIGITS, address);
}

fn put_flag(line: &mut Line, flag: bool)
    requires { length line.old + 1 ≤ LONGEST_LINE }
    ensures value { line.new ≡ line.old ++ flag_text flag }
    ensures len { length line.new ≡ length line.old + 1 }
{
    line.text(if flag { b"1" } else { b"0" });
}

fn put_access(line: &mut Line, access: Option<(bool, u64)>)
    requires { length line.old + longest_access ≤ LONGEST_LINE }
    ensures value { line.new ≡ line.old ++ access_text access }
    ensures len { length line.new ≤ length line.old + longest_access }
{
    if let Some((write, address)) = access {
        line.text(if write { b" write " } else { b" read " });
        put_address(line, address);
    }
}

fn put_reason(line: &mut Line, why: Reason)
    requires { length line.old + longest_reason ≤ LONGEST_LINE }
    ensures value { line.new ≡ line.old ++ reason_text why }
    ensures len { length line.new ≤ length line.old + longest_reason }
{
    match why {
        Reason::Illegal => line.text(b"Illegal"),
        Reason::BadRecord => line.text(b"BadRecord"),
        Reason::Unreadable => line.text(b"Unreadable"),
        Reason::Backward => line.text(b"Backward"),
        Reason::LostFrame => line.text(b"LostFrame"),
    }
}

fn raise_text(code: Code, flag: bool, access: Option<(bool, u64)>) -> Line
    ensures value { result ≡ Rattle.seh_io.specs.Text.raise_text code flag access }
    ensures fits { length result < LONGEST_LINE }
{
    let mut line = Line::new();
    line.text(b"raise ");
    put_code(&mut line, code);
    line.text(b" ");
    put_flag(&mut line, flag);
    if code == ACCESS_VIOLATION {
        put_access(&mut line, access);
    }
    line
}

/// What a trace shows of an event.
fn event_text(event: &Event) -> Line
    ensures value { result ≡ event_text event.now }
    ensures fits { length result < LONGEST_LINE }
{
    let mut line = Line::new();
    match *event {
        Event::Put(v) => line.integer(v),
        Event::Raise { code, flag, access } => return raise_text(code, flag, access),
        Event::Filter(number) => {
            line.text(b"filter ");
            line.natural(u64::from(number));
        }
        Event::Answer(v) => {
            line.text(b"answer ");
            line.integer(i64::from(v));
        }
        Event::Finally { number, abnormal } => {
            line.text(b"finally ");
            line.natural(u64::from(number));
            line.text(b" ");
            put_flag(&mut line, abnormal);
        }
        Event::Except(code) => {
            line.text(b"except ");
            put_code(&mut line, code);
        }
        Event::At(_) => line.text(b"at "),
    }
    line
}

/// An event's line where no function has a name, with its line feed. It is empty for an `At`, and
/// without a trace for an event other than `Put`.
pub fn event_line(trace: bool, event: &Event) -> Line
    ensures { result ≡ line trace event.now no_names }
{
    let shown = match event {
        Event::Put(_) => true,
        Event::At(_) => false,
        _ => trace,
    };
    if !shown {
        return Line::new();
    }
    let mut line = event_text(event);
    line.end();
    line
}

/// The last line of a run's text, with its line feed.
pub fn end_line(end: &RunEnd) -> Line
    ensures { result ≡ end_line end.now }
{
    let mut line = Line::new();
    match *end {
        RunEnd::Exit(v) => {
            line.text(b"exit ");
            line.integer(i64::from(v));
        }
        RunEnd::Unhandled(code) => {
            line.text(b"unhandled ");
            put_code(&mut line, code);
        }
        RunEnd::StackLimit { address } => {
            line.text(b"stack limit ");
            put_address(&mut line, address);
        }
        RunEnd::OutOfTurns { turns } => {
            line.text(b"out of turns ");
            line.natural(turns);
        }
        RunEnd::Stopped { why, address } => {
            line.text(b"stopped ");
            put_reason(&mut line, why);
            line.text(b" ");
            put_address(&mut line, address);
        }
    }
    line.end();
    line
}

/// Writes the line of an activation whose function has this name.
fn put_at<O: Sink>(sink: &mut O, name: &[u8]) -> Result<(), WriteFault>
    ensures ok { OnOk result (Grew (O.taken sink.old) (at_line (Some name.now))
        (O.taken sink.new)) }
    ensures part { IfErr result (λ e. Grew (O.taken sink.old)
        (take e.taken (at_line (Some name.now))) (O.taken sink.new)) }
    ensures short { IfErr result (λ e. e.taken < length (at_line (Some name.now))) }
    ensures faultless { OnOk result (Faultless (O.faults sink.old) (O.faults sink.new)) }
    ensures cause { OnErr result (Faulted (O.faults sink.old) (O.faults sink.new)) }
{
    let front = b"at ";
    put_all(sink, front)?;
    put_after(sink, front.len(), name)?;
    put_after(sink, front.len() + name.len(), b"\n")
}

/// Writes an event's line: nothing for an `At` whose number has no name, nor without a trace for an
/// event other than `Put` and `At`. The names are those of the functions of what runs.
pub fn put_event<O: Sink, N: Names>(
    sink: &mut O,
    trace: bool,
    event: &Event,
    names: &N,
) -> Result<(), WriteFault>
    ensures ok { OnOk result (Grew (O.taken sink.old)
        (line trace event.now (N.named names.now)) (O.taken sink.new)) }
    ensures part { IfErr result (λ e. Grew (O.taken sink.old)
        (take e.taken (line trace event.now (N.named names.now))) (O.taken sink.new)) }
    ensures short { IfErr result
        (λ e. e.taken < length (line trace event.now (N.named names.now))) }
    ensures faultless { OnOk result (Faultless (O.faults sink.old) (O.faults sink.new)) }
    ensures cause { OnErr result (Faulted (O.faults sink.old) (O.faults sink.new)) }
{
    let Event::At(number) = *event else {
        return put_all(sink, event_line(trace, event).as_bytes());
    };
    match names.name(number) {
        Some(name) => put_at(sink, name),
        None => Ok(()),
    }
}

/// Writes the last line of a run's text.
pub fn put_end<O: Sink>(sink: &mut O, end: &RunEnd) -> Result<(), WriteFault>
    ensures ok { OnOk result (Grew (O.taken sink.old) (end_line end.now) (O.taken sink.new)) }
    ensures part { IfErr result
        (λ e. Grew (O.taken sink.old) (take e.taken (end_line end.now)) (O.taken sink.new)) }
    ensures short { IfErr result (λ e. e.taken < length (end_line end.now)) }
    ensures faultless { OnOk result (Faultless (O.faults sink.old) (O.faults sink.new)) }
    ensures cause { OnErr result (Faulted (O.faults sink.old) (O.faults sink.new)) }
{
    put_all(sink, end_line(end).as_bytes())
}
