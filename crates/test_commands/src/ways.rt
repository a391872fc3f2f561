//! The ways to show what a text does, and the rows that each has to show.
//!
//! The tables are those of `test_texts`. Without `--trace` the lines of the numbers and of the end
//! are left of what a row wants.

use crate::calls::{answers, compiled, says, words_of};
use std::alloc::Global;
use std::process::Abort;

/// By `run`, by `compile` and then `exec`, and by `meaning`.
pub const WAYS: [&str; 3] = ["run", "exec", "meaning"];

/// The two of them that run an image.
pub const COMPILED: [&str; 2] = ["run", "exec"];

/// The one that runs none.
pub const MEANING: [&str; 1] = ["meaning"];

/// A program that is a row's text.
pub const TEXT: [&str; 1] = ["$text$"];

/// A row of a table.
#[derive(Clone, Copy)]
struct Row<'a> {
    options: &'a str,
    text: &'a str,
    wanted: &'a str,
}

/// The row that a part of a table spells.
fn row_of(part: &str) -> Option<Row<'_>> {
    let (head, rest) = part.split_once(':')?;
    let (_name, options) = head.split_once(';').unwrap_or((head, ""));
    let (text, wanted) = rest.split_once("\n=> ")?;
    Some(Row {
        options,
        text: text.trim_ascii_start(),
        wanted,
    })
}

/// Compares what a way answers for a row's text with what is wanted; where that is a refusal of the
/// text, what `compile` answers.
fn shows(rt: &impl Abort, alloc: Global, way: &str, row: Row<'_>, traced: bool) {
    let trace = if traced { "--trace" } else { "" };
    let words = words_of(rt, alloc, &[way, row.options, trace]);
    if way != "exec" {
        says(rt, alloc, &words, row.text.as_bytes(), row.wanted, traced);
    } else if row.wanted.contains('!') {
        answers(rt, alloc, "compile", row.text.as_bytes(), row.wanted);
    } else {
        let image = compiled(rt, alloc, row.text);
        says(rt, alloc, &words, &image, row.wanted, traced);
    }
}

/// A piece, so many times; each with its number after it, from 0, or without.
#[derive(Clone, Copy)]
struct Pieces<'a> {
    times: usize,
    piece: &'a str,
    are_numbered: bool,
}

/// A piece that stands for itself.
fn once(piece: &str) -> Pieces<'_> {
    Pieces {
        times: 1,
        piece,
        are_numbered: false,
    }
}

/// What stands for a place between two `$`: a column of what fills a program, by its number, or
/// all; or `TIMES*PIECE`, or `TIMES#PIECE` with numbers.
fn filling<'a>(place: &'a str, fill: &'a str) -> Pieces<'a> {
    for (mark, are_numbered) in [('*', false), ('#', true)] {
        if let Some((times, piece)) = place.split_once(mark) {
            return Pieces {
                times: times.parse().unwrap_or(0),
                piece,
                are_numbered,
            };
        }
    }
    match place.parse() {
        Ok(number) => once(fill.split(" | ").nth(number).unwrap_or("")),
        Err(_) => once(fill),
    }
}

/// Adds pieces.
fn push_pieces(rt: &impl Abort, alloc: Global, out: &mut String, pieces: Pieces<'_>) {
    for number in 0..pieces.times {
        out.push_str(pieces.piece).expect(rt, "memory");
        if pieces.are_numbered {
            let number = format!(in alloc; "{number}").expect(rt, "memory");
            out.push_str(&number).expect(rt, "memory");
        }
    }
}

/// Adds a program with its places filled.
fn push_filled(rt: &impl Abort, alloc: Global, out: &mut String, program: &str, fill: &str) {
    for (number, piece) in program.split('$').enumerate() {
        let pieces = if number % 2 == 0 {
            once(piece)
        } else {
            filling(piece, fill)
        };
        push_pieces(rt, alloc, out, pieces);
    }
}

/// The program of these parts, with its places filled.
pub fn filled(rt: &impl Abort, alloc: Global, parts: &[&str], fill: &str) -> String {
    let mut text = String::new(alloc);
    for part in parts {
        push_filled(rt, alloc, &mut text, part, fill);
    }
    text
}

/// Compares what each way answers for a row's program, with and without `--trace`.
fn shows_by_all(rt: &impl Abort, alloc: Global, ways: &[&str], row: Row<'_>) {
    for way in ways {
        shows(rt, alloc, way, row, true);
        shows(rt, alloc, way, row, false);
    }
}

/// The same of each row of a table, whose text says for what a program is that is in parts.
pub fn all_show(rt: &impl Abort, alloc: Global, ways: &[&str], parts: &[&str], table: &str) {
    for part in table.split("\n# ").skip(1) {
        let part = filled(rt, alloc, &[part], "");
        let row = row_of(&part).expect(rt, &part);
        let text = filled(rt, alloc, parts, row.text);
        shows_by_all(rt, alloc, ways, Row { text: &text, ..row });
    }
}

/// Compares what each way puts for a row.
fn puts_by_all(rt: &impl Abort, alloc: Global, ways: &[&str], row: Row<'_>) {
    for way in ways {
        shows(rt, alloc, way, row, false);
    }
}

/// The same of each row of a table of programs, whose lines are those without `--trace`.
pub fn all_put(rt: &impl Abort, alloc: Global, ways: &[&str], table: &str) {
    for part in table.split("\n# ").skip(1) {
        let row = row_of(part).expect(rt, part);
        puts_by_all(rt, alloc, ways, row);
    }
}
