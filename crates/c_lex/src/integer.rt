//! Integer literals.

ghost use Rattle.std.specs.Prelude.{◌≡◌, ◌^◌, ◌<◌, ◌≤◌, ℕ, false, [], ◌∷◌, List, IfSome, min, option_map};
ghost use Rattle.c_lex.specs.Integers.{is_u, is_l, suffix, suffix_of, limit, types, type_of, literal, digit};
ghost use Rattle.c_lex.specs.IntegerReaders.{digits, zero};
ghost use Rattle.c_lex.specs.Longest.{IsLongest};
ghost use Rattle.c_lex.specs.Readers as readers;

use crate::token::{IntegerType, Kind};
use crate::word::{Fault, Word};

/// What the suffix of a literal says. One `l` says nothing: long is 32 bits, as on Windows.
#[derive(Clone, Copy, Debug, PartialEq, Eq)]
pub(crate) struct Suffix {
    /// It has `u`.
    pub(crate) unsigned: bool,
    /// It has `ll`.
    pub(crate) long_long: bool,
}

const PLAIN: Suffix = Suffix {
    unsigned: false,
    long_long: false,
};

fn is_u(byte: u8) -> bool
    ensures { result ≡ is_u byte }
{
    byte == b'u' || byte == b'U'
}

fn is_l(byte: u8) -> bool
    ensures { result ≡ is_l byte }
{
    byte == b'l' || byte == b'L'
}

/// The suffix that a byte is.
#[tactic(auto, unfolding(crate::specs::Integers::suffix_of))]
fn one(a: u8) -> Option<Suffix>
    ensures { result ≡ suffix_of (a ∷ []) }
{
    if is_u(a) {
        return Some(Suffix {
            unsigned: true,
            long_long: false,
        });
    }
    if is_l(a) { Some(PLAIN) } else { None }
}

/// The suffix that two bytes are.
#[tactic(auto, unfolding(crate::specs::Integers::suffix_of))]
fn two(a: u8, b: u8) -> Option<Suffix>
    ensures { result ≡ suffix_of (a ∷ b ∷ []) }
{
    if is_u(a) && is_l(b) || is_l(a) && is_u(b) {
        return Some(Suffix {
            unsigned: true,
            long_long: false,
        });
    }
    if is_l(a) && b == a {
        return Some(Suffix {
            unsigned: false,
            long_long: true,
        });
    }
    None
}

/// The suffix that three bytes are.
#[tactic(auto, unfolding(crate::specs::Integers::suffix_of))]
fn three(a: u8, b: u8, c: u8) -> Option<Suffix>
    ensures { result ≡ suffix_of (a ∷ b ∷ c ∷ []) }
{
    if is_u(a) && is_l(b) && c == b || is_l(a) && b == a && is_u(c) {
        return Some(Suffix {
            unsigned: true,
            long_long: true,
        });
    }
    None
}

/// The longest suffix of at most one byte, and what follows it.
fn up_to_one(text: &[u8]) -> (Suffix, &[u8])
    ensures { (result.0, result.1.now) ≡ readers.one suffix_of (suffix false false) text.now }
{
    match text {
        [] => (PLAIN, text),
        [a, rest @ ..] => match one(*a) {
            Some(suffix) => (suffix, rest),
            None => (PLAIN, text),
        },
    }
}

/// The longest suffix of at most two bytes, and what follows it.
#[tactic(auto, using(crate::proofs::Fronts::at_two))]
fn up_to_two(text: &[u8]) -> (Suffix, &[u8])
    ensures { (result.0, result.1.now) ≡ readers.two suffix_of (suffix false false) text.now }
{
    match text {
        [a, b, rest @ ..] => match two(*a, *b) {
            Some(suffix) => (suffix, rest),
            None => up_to_one(text),
        },
        _ => up_to_one(text),
    }
}

/// The longest suffix, and what follows it.
fn up_to_three(text: &[u8]) -> (Suffix, &[u8])
    ensures { (result.0, result.1.now) ≡ readers.three suffix_of (suffix false false) text.now }
{
    match text {
        [a, b, c, rest @ ..] => match three(*a, *b, *c) {
            Some(suffix) => (suffix, rest),
            None => up_to_two(text),
        },
        _ => up_to_two(text),
    }
}

impl IntegerType {
    /// The first number that the type doesn't hold.
    pub fn limit(self) -> u128
        ensures { result ≡ limit self }
    {
        match self {
            IntegerType::Int => 1 << 31,
            IntegerType::Unsigned => 1 << 32,
            IntegerType::LongLong => 1 << 63,
            IntegerType::UnsignedLongLong => 1 << 64,
        }
    }
}

/// The types that a literal may have, in the order in which they are tried.
fn types(decimal: bool, suffix: Suffix) -> &'static [IntegerType]
    ensures { result.now ≡ types decimal suffix.unsigned suffix.long_long }
{
    use IntegerType::{Int, LongLong, Unsigned, UnsignedLongLong};
    match (suffix.unsigned, suffix.long_long) {
        (false, false) if decimal => &[Int, LongLong, UnsignedLongLong],
        (false, false) => &[Int, Unsigned, LongLong, UnsignedLongLong],
        (true, false) => &[Unsigned, UnsignedLongLong],
        (false, true) => &[LongLong, UnsignedLongLong],
        (true, true) => &[UnsignedLongLong],
    }
}

/// The first type that holds the value.
#[tactic(auto, unfolding(crate::specs::Integers::type_of))]
fn type_of(decimal: bool, suffix: Suffix, value: u128) -> Option<IntegerType>
    ensures { result ≡ type_of decimal suffix value }
{
    types(decimal, suffix)
        .iter()
        .copied()
        .find(|t| value < t.limit())
}

/// A literal by its base, its value and its suffix.
#[tactic(auto, unfolding(crate::specs::Integers::literal))]
fn literal(base: u8, value: u128, suffix: Suffix) -> Word
    ensures { result ≡ literal base value suffix }
{
    match type_of(base == 10, suffix, value) {
        Some(of) => Word::Lexeme(Kind::Integer {
            value: value as u64,
            of,
        }),
        None => Word::Bad(Fault::BigLiteral),
    }
}

/// The value of a digit of bases up to 16; what is none has 16.
#[tactic(auto, unfolding(crate::specs::Integers::digit))]
pub(crate) fn digit(byte: u8) -> u8
    ensures value { result ≡ digit byte }
    ensures small { result ≤ 16 }
{
    match byte {
        b'0'..=b'9' => byte - b'0',
        b'a'..=b'f' => byte - b'a' + 10,
        b'A'..=b'F' => byte - b'A' + 10,
        _ => 16,
    }
}

/// The value of digits, at most 2^64, and what follows them.
fn number(base: u8, start: u8, text: &[u8]) -> (u128, &[u8])
    requires { base ≤ 16 }
    ensures value { result.0 ≡ min (readers.number base start text.now).0 (2 ^ 64) }
    ensures rest { result.1.now ≡ (readers.number base start text.now).1 }
{
    let mut value = u128::from(start);
    let mut rest = text;
    while let [first, after @ ..] = rest {
        let digit = digit(*first);
        if digit >= base {
            return (value, rest);
        }
        value = (u128::from(base) * value + u128::from(digit)).min(1 << 64);
        rest = after;
    }
    (value, rest)
}

/// What the digits at the front, after one of this value, and a suffix are, and what follows them.
pub(crate) fn digits(base: u8, start: u8, text: &[u8]) -> (Word, &[u8])
    requires { base ≤ 16 }
    ensures { (w : List ℕ) × IsLongest (digits base start) text.now w result.1.now result.0 }
{
    let (value, rest) = number(base, start, text);
    let (suffix, rest) = up_to_three(rest);
    (literal(base, value, suffix), rest)
}

/// The first digit after the `x` at the front, and what follows it.
fn hexadecimal(text: &[u8]) -> Option<(u8, &[u8])>
    ensures { option_map (λ x. (x.0, x.1.now)) result ≡ readers.hexadecimal text.now }
{
    match text {
        [x, first, rest @ ..] => {
            let digit = digit(*first);
            if (*x == b'x' || *x == b'X') && digit < 16 {
                Some((digit, rest))
            } else {
                None
            }
        }
        _ => None,
    }
}

/// What a 0 and what belongs to it is, and what follows.
pub(crate) fn zero(text: &[u8]) -> (Word, &[u8])
    ensures { (w : List ℕ) × IsLongest zero text.now w result.1.now result.0 }
{
    match hexadecimal(text) {
        Some((start, rest)) => digits(16, start, rest),
        None => digits(8, 0, text),
    }
}
