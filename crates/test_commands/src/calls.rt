//! What the program answers for words and an input, over memory, and whether it is what a row
//! wants.
//!
//! What a row wants is `CODE LINES ! LINES`: the status as the number that the process ends with,
//! the lines of `out`, and those of `err`, which are left out where there are none. Lines are
//! joined by ` / ` or by line feeds; one with `~` at its end has no line feed.

use seh::top::top;
use seh_io::plain::{SliceSource, VecSink};
use std::alloc::Global;
use std::process::Abort;

/// What was answered.
#[derive(Drop)]
pub struct Shown {
    /// The status, as the number that the process ends with.
    pub code: u8,
    /// What `out` took.
    pub out: Vec<u8>,
    /// What `err` took.
    pub err: Vec<u8>,
    /// How many bytes of the input weren't read.
    pub left: usize,
}

/// The words of the parts of a line.
pub fn words_of(rt: &impl Abort, alloc: Global, parts: &[&str]) -> Vec<String> {
    let mut words = Vec::new(alloc);
    for part in parts {
        for piece in part.split_ascii_whitespace() {
            let word = String::from_str(alloc, piece).expect(rt, "memory");
            words.push(word).expect(rt, "memory");
        }
    }
    words
}

/// What words answer for an input.
pub fn answer(alloc: Global, words: &[String], input: &[u8]) -> Shown {
    let mut source = SliceSource::new(input);
    let mut out = VecSink::new(alloc);
    let mut err = VecSink::new(alloc);
    let status = top(alloc, words, &mut source, &mut out, &mut err);
    Shown {
        code: status.code(),
        out: out.bytes,
        err: err.bytes,
        left: source.rest.len(),
    }
}

/// The image that a text is compiled to; of a text that is refused, nothing.
pub fn compiled(rt: &impl Abort, alloc: Global, text: &str) -> Vec<u8> {
    let words = words_of(rt, alloc, &["compile"]);
    answer(alloc, &words, text.as_bytes()).out
}

/// Whether a line of a run's text is shown with `--trace` alone.
fn is_traced(line: &str) -> bool {
    line.starts_with("raise ")
        || line.starts_with("filter ")
        || line.starts_with("answer ")
        || line.starts_with("finally ")
        || line.starts_with("except ")
}

/// What comes after a line that bytes begin with.
fn after_line<'a>(bytes: &'a [u8], line: &str) -> Option<&'a [u8]> {
    match line.strip_suffix('~') {
        Some(front) => bytes.strip_prefix(front.as_bytes()),
        None => bytes.strip_prefix(line.as_bytes())?.strip_prefix(b"\n"),
    }
}

/// Whether bytes are joined lines, with or without those that `--trace` adds.
fn are_lines(bytes: &[u8], lines: &str, traced: bool) -> bool {
    let mut rest = bytes;
    for piece in lines.split(['/', '\n']) {
        let piece = piece.strip_prefix(' ').unwrap_or(piece);
        let line = piece.strip_suffix(' ').unwrap_or(piece);
        if !line.is_empty() && (traced || !is_traced(line)) {
            match after_line(rest, line) {
                Some(after) => rest = after,
                None => return false,
            }
        }
    }
    rest.is_empty()
}

/// Whether what was answered is what a row wants.
pub fn fits(shown: &Shown, wanted: &str, traced: bool) -> bool {
    let (front, err) = wanted.split_once('!').unwrap_or((wanted, ""));
    let (code, out) = front.split_once(' ').unwrap_or((front, ""));
    code.parse().unwrap_or(u8::MAX) == shown.code
        && are_lines(&shown.out, out, traced)
        && are_lines(&shown.err, err, true)
}

/// Compares what words answer for an input with what a row wants. The input is read to its end,
/// by words that are no command not at all; one that is too long may be left.
pub fn says(
    rt: &impl Abort,
    alloc: Global,
    words: &[String],
    input: &[u8],
    wanted: &str,
    traced: bool,
) {
    let shown = answer(alloc, words, input);
    let left = match shown.code {
        1 => input.len(),
        7 => shown.left,
        _ => 0,
    };
    let out = str::from_utf8(&shown.out).unwrap_or("");
    assert!(rt;
        fits(&shown, wanted, traced),
        "{wanted}: {} {out}",
        shown.code
    );
    assert!(rt; shown.left == left, "{wanted}");
}

/// Compares what the words of a line answer for an input with what is wanted.
pub fn answers(rt: &impl Abort, alloc: Global, line: &str, input: &[u8], wanted: &str) {
    let words = words_of(rt, alloc, &[line]);
    says(rt, alloc, &words, input, wanted, true);
}
