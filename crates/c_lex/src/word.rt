//! Words of a text.

ghost use Rattle.std.specs.Prelude.{◌≡◌, ℕ, List, [], ◌∷◌, IfSome, IfNone};
ghost use Rattle.c_lex.specs.declared.word.Word.TheVariants.{Lexeme};
ghost use Rattle.c_lex.specs.Identifiers.{is_identifier_byte, identifier_kind};
ghost use Rattle.c_lex.specs.Words.{slash, word};
ghost use Rattle.c_lex.specs.Longest.{IsLongest, span};

use crate::character::quoted;
use crate::comment::{comment, is_space, line};
use crate::identifier::{after_identifier, identifier_kind, is_digit, is_letter};
use crate::integer::{digits, zero};
use crate::punctuator::longest_punctuator;
use crate::token::Kind;

/// What is wrong with a text at a place.
#[derive(Clone, Copy, Debug, PartialEq, Eq)]
pub enum Fault {
    /// A byte that begins no word.
    BadByte,
    /// A comment without an end.
    OpenComment,
    /// A quote that begins no character.
    BadChar,
    /// An integer literal of 2^64 or above.
    BigLiteral,
}

/// What a word of a text is.
#[derive(Clone, Copy, Debug, PartialEq, Eq)]
pub enum Word {
    /// A token of this kind.
    Lexeme(Kind),
    /// White space or a comment.
    Blank,
    /// Nothing that a text may hold.
    Bad(Fault),
}

/// What a `/` and what belongs to it is, and what follows.
fn slash(text: &[u8]) -> (Word, &[u8])
    ensures { (w : List ℕ) × IsLongest slash text.now w result.1.now result.0 }
{
    match text {
        [] => longest_punctuator(b'/', text),
        [first, rest @ ..] => {
            if *first == b'/' {
                line(rest)
            } else if *first == b'*' {
                comment(rest)
            } else {
                longest_punctuator(b'/', text)
            }
        }
    }
}

/// The word of letters, digits and `_` at the front, and what follows it.
#[tactic(auto, using(crate::proofs::Fronts::span_front))]
fn named(text: &[u8]) -> (Word, &[u8])
    ensures word { result.0 ≡ Lexeme (identifier_kind (span is_identifier_byte text.now).0) }
    ensures rest { result.1.now ≡ (span is_identifier_byte text.now).1 }
{
    let rest = after_identifier(text);
    let name = &text[..text.len() - rest.len()];
    (Word::Lexeme(identifier_kind(name)), rest)
}

/// What the word at the front is, by its first byte, and what follows it.
fn word_from<'a>(first: u8, rest: &'a [u8], text: &'a [u8]) -> (Word, &'a [u8])
    requires { text.now ≡ first ∷ rest.now }
    ensures { (w : List ℕ) × IsLongest word text.now (first ∷ w) result.1.now result.0 }
{
    if is_letter(first) {
        named(text)
    } else if first == b'0' {
        zero(rest)
    } else if is_digit(first) {
        digits(10, first - b'0', rest)
    } else if first == b'\'' {
        quoted(rest)
    } else if first == b'/' {
        slash(rest)
    } else if is_space(first) {
        (Word::Blank, rest)
    } else {
        longest_punctuator(first, rest)
    }
}

/// What the longest word at the front is, and what follows it; nothing where the text is at its
/// end.
pub(crate) fn longest_word(text: &[u8]) -> Option<(Word, &[u8])>
    ensures found { IfSome result (λ x. (w : List ℕ) × IsLongest word text.now w x.1.now x.0) }
    ensures none { IfNone result (text.now ≡ []) }
{
    match text {
        [] => None,
        [first, rest @ ..] => Some(word_from(*first, rest, text)),
    }
}
