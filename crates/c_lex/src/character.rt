//! Characters.

ghost use Rattle.std.specs.Prelude.{◌≡◌, ℕ, List, Some, option_map, IfSome, FitsSigned};
ghost use Rattle.std.specs.Int.{w8};
ghost use Rattle.c_lex.specs.Characters.{is_plain, signed_char, escaped};
ghost use Rattle.c_lex.specs.CharacterReaders.{closed, two_digits, escape, character, quoted};
ghost use Rattle.c_lex.specs.Longest.{IsLongest};

use crate::integer::digit;
use crate::token::Kind;
use crate::word::{Fault, Word};

fn is_plain(byte: u8) -> bool
    ensures { result ≡ is_plain byte }
{
    b' ' <= byte && byte <= b'~' && byte != b'\'' && byte != b'\\'
}

/// The value as a signed char.
fn signed_char(value: u8) -> i8
    ensures { result ≡ signed_char value }
{
    if value < 128 {
        value as i8
    } else {
        (i16::from(value) - 256) as i8
    }
}

/// What a letter after a `\` means.
#[tactic(auto, unfolding(crate::specs::Characters::escaped))]
fn escaped(byte: u8) -> Option<u8>
    ensures { result ≡ escaped byte }
{
    match byte {
        b'n' => Some(b'\n'),
        b't' => Some(b'\t'),
        b'r' => Some(b'\r'),
        b'0' => Some(0),
        b'\\' | b'\'' | b'"' => Some(byte),
        _ => None,
    }
}

/// A value whose closing quote is at the front, and what follows.
fn closed(value: u8, text: &[u8]) -> Option<(i8, &[u8])>
    ensures value { option_map (λ x. (x.0, x.1.now)) result ≡ closed (Some value) text.now }
    ensures fits { IfSome result (λ x. FitsSigned w8 x.0) }
{
    match text {
        [] => None,
        [first, rest @ ..] => {
            if *first == b'\'' {
                Some((signed_char(value), rest))
            } else {
                None
            }
        }
    }
}

/// After `\x`.
fn two_digits(text: &[u8]) -> Option<(i8, &[u8])>
    ensures value { option_map (λ x. (x.0, x.1.now)) result ≡ two_digits text.now }
    ensures fits { IfSome result (λ x. FitsSigned w8 x.0) }
{
    match text {
        [a, b, rest @ ..] => {
            let (high, low) = (digit(*a), digit(*b));
            if high < 16 && low < 16 {
                closed(16 * high + low, rest)
            } else {
                None
            }
        }
        _ => None,
    }
}

/// After `\`.
fn escape(text: &[u8]) -> Option<(i8, &[u8])>
    ensures value { option_map (λ x. (x.0, x.1.now)) result ≡ escape text.now }
    ensures fits { IfSome result (λ x. FitsSigned w8 x.0) }
{
    match text {
        [] => None,
        [first, rest @ ..] => {
            if *first == b'x' {
                return two_digits(rest);
            }
            match escaped(*first) {
                Some(value) => closed(value, rest),
                None => None,
            }
        }
    }
}

/// After the opening quote.
fn character(text: &[u8]) -> Option<(i8, &[u8])>
    ensures value { option_map (λ x. (x.0, x.1.now)) result ≡ character text.now }
    ensures fits { IfSome result (λ x. FitsSigned w8 x.0) }
{
    match text {
        [] => None,
        [first, rest @ ..] => {
            if *first == b'\\' {
                escape(rest)
            } else if is_plain(*first) {
                closed(*first, rest)
            } else {
                None
            }
        }
    }
}

/// What a quote and what belongs to it is, and what follows.
pub(crate) fn quoted(text: &[u8]) -> (Word, &[u8])
    ensures { (w : List ℕ) × IsLongest quoted text.now w result.1.now result.0 }
{
    match character(text) {
        Some((value, rest)) => (Word::Lexeme(Kind::CharacterConstant(value)), rest),
        None => (Word::Bad(Fault::BadChar), text),
    }
}
