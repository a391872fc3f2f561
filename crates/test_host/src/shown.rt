//! What runs of images show: their text, and their end, which the last line of the text says.

use pe_image::ImageView;
use seh_host::RunEnd;
use seh_host::host::Host;
use seh_host::loading::load;
use seh_host::run::run;
use seh_io::plain::VecSink;
use seh_num::end::Reason;
use seh_num::event::Code;
use std::alloc::Global;
use std::process::Abort;
use test_tables::words::number_of;

/// A run of an image: its argument, how many turns it has, and whether its trace is shown.
#[derive(Clone, Copy, Debug)]
pub struct Run {
    pub argument: i64,
    pub turns: u64,
    pub trace: bool,
}

/// A number of 32 bits in hexadecimal.
pub fn half_of(word: &str) -> Option<u32> {
    u32::try_from(number_of(word)?).ok()
}

/// The reason that a word says.
fn reason_of(word: &str) -> Option<Reason> {
    match word {
        "Illegal" => Some(Reason::Illegal),
        "BadRecord" => Some(Reason::BadRecord),
        "Unreadable" => Some(Reason::Unreadable),
        "Backward" => Some(Reason::Backward),
        "LostFrame" => Some(Reason::LostFrame),
        _ => None,
    }
}

/// The end of a stopped run that words say.
fn stop_of(words: &str) -> Option<RunEnd> {
    let (why, address) = words.split_once(' ')?;
    Some(RunEnd::Stopped {
        why: reason_of(why)?,
        address: number_of(address)?,
    })
}

/// The end that a line says.
fn end_of(line: &str) -> Option<RunEnd> {
    if let Some(status) = line.strip_prefix("exit ") {
        return Some(RunEnd::Exit(status.parse().ok()?));
    }
    if let Some(turns) = line.strip_prefix("out of turns ") {
        let turns = turns.parse().ok()?;
        return Some(RunEnd::OutOfTurns { turns });
    }
    if let Some(code) = line.strip_prefix("unhandled ") {
        return Some(RunEnd::Unhandled(Code(half_of(code)?)));
    }
    if let Some(address) = line.strip_prefix("stack limit ") {
        let address = number_of(address)?;
        return Some(RunEnd::StackLimit { address });
    }
    stop_of(line.strip_prefix("stopped ")?)
}

/// The text of lines that are joined by ` / `.
fn text_of(rt: &impl Abort, alloc: Global, lines: &str) -> String {
    let mut text = String::new(alloc);
    for line in lines.split(" / ") {
        text.push_str(line).expect(rt, "memory");
        text.push_str("\n").expect(rt, "memory");
    }
    text
}

/// Compares bytes with that text.
pub fn says(rt: &impl Abort, alloc: Global, found: &[u8], lines: &str) {
    let text = text_of(rt, alloc, lines);
    assert!(rt; found == text.as_bytes(), "{lines}");
}

/// How a host's run ends, and the bytes of its text.
fn run_of(rt: &impl Abort, alloc: Global, host: &mut Host<'_, '_>, how: Run) -> (RunEnd, Vec<u8>) {
    let mut out = VecSink::new(alloc);
    let end = run(host, how.turns, how.trace, &mut out).expect(rt, "a run");
    (end, out.bytes)
}

/// The same of an image that is loaded.
fn shown(rt: &impl Abort, alloc: Global, bytes: &[u8], how: Run) -> (RunEnd, Vec<u8>) {
    let view = ImageView::read(alloc, bytes).expect(rt, "an image");
    let mut host = load(alloc, &view, how.argument).expect(rt, "a host");
    run_of(rt, alloc, &mut host, how)
}

/// Whether the last of lines that are joined by ` / ` is that of an end.
fn ends_with(lines: &str, end: RunEnd) -> bool {
    match lines.rsplit_once(" / ") {
        Some((_, last)) => end_of(last) == Some(end),
        None => end_of(lines) == Some(end),
    }
}

/// Compares what an image's run shows with lines that are joined by ` / `.
pub fn shows(rt: &impl Abort, alloc: Global, bytes: &[u8], how: Run, lines: &str) {
    let (end, found) = shown(rt, alloc, bytes, how);
    assert!(rt; ends_with(lines, end), "{lines}");
    says(rt, alloc, &found, lines);
}
