//! White space and comments.

ghost use Rattle.std.specs.Prelude.{◌≡◌, ℕ, List, option_map};
ghost use Rattle.c_lex.specs.declared.word.Word.TheVariants.{Blank};
ghost use Rattle.c_lex.specs.Comments.{is_space, is_other_than_line_feed, after_mark, after_end, comment};
ghost use Rattle.c_lex.specs.Longest.{IsLongest, each, span};

use crate::word::{Fault, Word};

/// Space, tab, line feed, vertical tab, form feed and carriage return.
#[tactic(auto, unfolding(crate::specs::Comments::is_space))]
pub(crate) fn is_space(byte: u8) -> bool
    ensures { result ≡ is_space byte }
{
    byte == b' ' || b'\t' <= byte && byte <= b'\r'
}

/// What follows the bytes up to the line's end.
fn after_line(text: &[u8]) -> &[u8]
    ensures { result.now ≡ (span is_other_than_line_feed text.now).1 }
{
    let mut rest = text;
    while let [first, after @ ..] = rest {
        if *first == b'\n' {
            return rest;
        }
        rest = after;
    }
    rest
}

/// The rest of a line is a comment; and what follows it.
pub(crate) fn line(text: &[u8]) -> (Word, &[u8])
    ensures { (w : List ℕ)
        × IsLongest (each is_other_than_line_feed (λ _. Blank)) text.now w result.1.now result.0 }
{
    (Word::Blank, after_line(text))
}

/// What follows a `*/` at the front.
fn after_mark(text: &[u8]) -> Option<&[u8]>
    ensures { option_map (λ x. x.now) result ≡ after_mark text.now }
{
    match text {
        [a, b, rest @ ..] => {
            if *a == b'*' && *b == b'/' {
                Some(rest)
            } else {
                None
            }
        }
        _ => None,
    }
}

/// What follows the first `*/`.
fn after_end(text: &[u8]) -> Option<&[u8]>
    ensures { option_map (λ x. x.now) result ≡ after_end text.now }
{
    let mut rest = text;
    while let [_, after @ ..] = rest {
        match after_mark(rest) {
            Some(end) => return Some(end),
            None => rest = after,
        }
    }
    None
}

/// What `/*` and what belongs to it is, and what follows.
pub(crate) fn comment(text: &[u8]) -> (Word, &[u8])
    ensures { (w : List ℕ) × IsLongest comment text.now w result.1.now result.0 }
{
    match after_end(text) {
        Some(rest) => (Word::Blank, rest),
        None => (Word::Bad(Fault::OpenComment), &text[text.len()..]),
    }
}
