//! Texts and their tokens by the rules of C11, 6.4, and what is refused.

use crate::rows::{Reader, all_as_wanted};
use c_lex::lexing::{LexErr, lex};
use c_lex::token::{Kind, Token};
use std::alloc::{AllocError, Global};
use std::process::Abort;

/// What a token is: an integer's value and type, or the token's kind.
fn kind_of(alloc: Global, kind: Kind) -> Result<String, AllocError> {
    match kind {
        Kind::Integer { value, of } => { format!(in alloc; "{value} {of:?}") }
        _ => { format!(in alloc; "{kind:?}") }
    }
}

/// What a text is that is one token.
pub fn token_of(alloc: Global, text: &[u8], tokens: &[Token]) -> Result<String, AllocError> {
    match tokens {
        [token] if token.start == 0 && token.end == text.len() as u64 => {
            kind_of(alloc, token.kind)
        }
        _ => String::from_str(alloc, "not one token"),
    }
}

/// A token after a separator: what it is, and where it starts and ends.
fn part_of(alloc: Global, separator: &str, token: Token) -> Result<String, AllocError> {
    let kind = kind_of(alloc, token.kind)?;
    format!(in alloc; "{separator}{kind} {} {}", token.start, token.end)
}

/// The tokens of a text, each with where it starts and ends.
pub fn tokens_of(rt: &impl Abort, alloc: Global, tokens: &[Token]) -> String {
    let mut found = String::new(alloc);
    for token in tokens {
        let separator = if found.is_empty() { "" } else { ", " };
        let part = part_of(alloc, separator, *token).expect(rt, "memory");
        found.push_str(&part).expect(rt, "memory");
    }
    if tokens.is_empty() {
        found.push_str("no tokens").expect(rt, "memory");
    }
    found
}

/// Whether a token is a character of a number.
fn is_value(kind: Kind, number: u8) -> bool {
    match kind {
        Kind::CharacterConstant(value) => i16::from(value) == i16::from(number),
        _ => false,
    }
}

/// Whether a byte between quotes is the character of its number.
fn is_character(alloc: Global, byte: u8) -> bool {
    let Ok(tokens) = lex(alloc, &[b'\'', byte, b'\'']) else {
        return false;
    };
    match tokens.as_slice() {
        [token] => token.start == 0 && token.end == 3 && is_value(token.kind, byte),
        _ => false,
    }
}

/// Whether a text is refused at a place, where no token begins.
fn no_token_at(alloc: Global, text: &[u8], place: u64) -> bool {
    match lex(alloc, text) {
        Err(LexErr::BadByte { at }) => at == place,
        _ => false,
    }
}

/// Words that are no keywords.
const NAMES: &str = r"
a => Identifier
Z => Identifier
_ => Identifier
__ => Identifier
_0 => Identifier
a1b2_C3 => Identifier
iff => Identifier
i => Identifier
If => Identifier
INT => Identifier
int_ => Identifier
_try => Identifier
__Try => Identifier
try => Identifier
ExceptionRecord => Identifier
RaiseException => Identifier
EXCEPTION_EXECUTE_HANDLER => Identifier
abcdefghijklmnopqrstuvwxyzABCDEFGHIJKLMNOPQRSTUVWXYZ_0123456789 => Identifier
";

/// Decimal literals: int, long long, unsigned long long.
const DECIMAL: &str = r"
1 => 1 Int
9 => 9 Int
1234567890 => 1234567890 Int
2147483647 => 2147483647 Int
2147483648 => 2147483648 LongLong
4294967295 => 4294967295 LongLong
9223372036854775807 => 9223372036854775807 LongLong
9223372036854775808 => 9223372036854775808 UnsignedLongLong
18446744073709551615 => 18446744073709551615 UnsignedLongLong
";

/// Octal and hexadecimal literals: int, unsigned, long long, unsigned long long.
const OCTAL_AND_HEXADECIMAL: &str = r"
0 => 0 Int
00 => 0 Int
01234567 => 342391 Int
017777777777 => 2147483647 Int
020000000000 => 2147483648 Unsigned
037777777777 => 4294967295 Unsigned
040000000000 => 4294967296 LongLong
0777777777777777777777 => 9223372036854775807 LongLong
01000000000000000000000 => 9223372036854775808 UnsignedLongLong
01777777777777777777777 => 18446744073709551615 UnsignedLongLong
0x0 => 0 Int
0x89abcdef => 2309737967 Unsigned
0X1234567 => 19088743 Int
0xABCDEF => 11259375 Int
0x7FFFFFFF => 2147483647 Int
0x80000000 => 2147483648 Unsigned
0XFFFFFFFF => 4294967295 Unsigned
0x100000000 => 4294967296 LongLong
0x7fffffffffffffff => 9223372036854775807 LongLong
0x8000000000000000 => 9223372036854775808 UnsignedLongLong
0xffffffffffffffff => 18446744073709551615 UnsignedLongLong
";

/// `long` has 32 bits, so that `l` alone changes no type.
const SUFFIXES: &str = r"
1u => 1 Unsigned
1U => 1 Unsigned
1l => 1 Int
1L => 1 Int
1ll => 1 LongLong
1LL => 1 LongLong
1ul => 1 Unsigned
1uL => 1 Unsigned
1Ul => 1 Unsigned
1UL => 1 Unsigned
1lu => 1 Unsigned
1lU => 1 Unsigned
1Lu => 1 Unsigned
1LU => 1 Unsigned
1ull => 1 UnsignedLongLong
1uLL => 1 UnsignedLongLong
1Ull => 1 UnsignedLongLong
1ULL => 1 UnsignedLongLong
1llu => 1 UnsignedLongLong
1llU => 1 UnsignedLongLong
1LLu => 1 UnsignedLongLong
1LLU => 1 UnsignedLongLong
0u => 0 Unsigned
0xAu => 10 Unsigned
010ll => 8 LongLong
4294967295u => 4294967295 Unsigned
4294967296u => 4294967296 UnsignedLongLong
2147483648l => 2147483648 LongLong
0x80000000L => 2147483648 Unsigned
9223372036854775807ll => 9223372036854775807 LongLong
9223372036854775808ll => 9223372036854775808 UnsignedLongLong
";

/// Escapes, and characters that are signed.
const ESCAPES: &str = r#"
'\n' => CharacterConstant(10)
'\t' => CharacterConstant(9)
'\r' => CharacterConstant(13)
'\0' => CharacterConstant(0)
'\\' => CharacterConstant(92)
'\'' => CharacterConstant(39)
'\"' => CharacterConstant(34)
'"' => CharacterConstant(34)
'\x00' => CharacterConstant(0)
'\x7f' => CharacterConstant(127)
'\x80' => CharacterConstant(-128)
'\xFF' => CharacterConstant(-1)
'\xaB' => CharacterConstant(-85)
'\x09' => CharacterConstant(9)
"#;

/// Each token is the longest that there is.
const LONGEST: &str = r"
a>>=b => Identifier 0 1, Punctuator(ShiftRightAssign) 1 4, Identifier 4 5
a+++b => Identifier 0 1, Punctuator(PlusPlus) 1 3, Punctuator(Plus) 3 4, Identifier 4 5
p--->q => Identifier 0 1, Punctuator(MinusMinus) 1 3, Punctuator(Arrow) 3 5, Identifier 5 6
<<<= => Punctuator(ShiftLeft) 0 2, Punctuator(LessEqual) 2 4
|||= => Punctuator(BarBar) 0 2, Punctuator(BarAssign) 2 4
/ /= => Punctuator(Slash) 0 1, Punctuator(SlashAssign) 2 4
if1 1if => Identifier 0 3, 1 Int 4 5, Keyword(If) 5 7
1abc => 1 Int 0 1, Identifier 1 4
08 => 0 Int 0 1, 8 Int 1 2
0x => 0 Int 0 1, Identifier 1 2
0xg => 0 Int 0 1, Identifier 1 3
1lul => 1 Unsigned 0 3, Identifier 3 4
1lL => 1 Int 0 2, Identifier 2 3
1uu => 1 Unsigned 0 2, Identifier 2 3
0b1 => 0 Int 0 1, Identifier 1 3
'a''b' => CharacterConstant(97) 0 3, CharacterConstant(98) 3 6
";

/// Comments end at the first end, and separate tokens.
const COMMENTS: &str = r#"
 => no tokens
 $byte$9$$byte$13$$byte$10$$byte$11$$byte$12$ => no tokens
// => no tokens
// a $byte$0$$byte$255$$byte$13$ /* @ ' => no tokens
//$byte$10$//$byte$10$ => no tokens
/**/ => no tokens
/***/ => no tokens
/*/*/ => no tokens
/* $byte$0$$byte$255$ @ ' " // $byte$10$ ** / * */ => no tokens
/**//**/ => no tokens
a//b$byte$10$c => Identifier 0 1, Identifier 5 6
//\$byte$10$a => Identifier 4 5
a/*b*/c => Identifier 0 1, Identifier 6 7
/*a*/b*/ => Identifier 5 6, Punctuator(Star) 6 7, Punctuator(Slash) 7 8
"#;

/// Comments without ends.
const OPEN_COMMENTS: &str = r"
//$byte$10$/* => OpenComment { at: 3 }
/* => OpenComment { at: 0 }
/*/ => OpenComment { at: 0 }
/** => OpenComment { at: 0 }
/* * / @ => OpenComment { at: 0 }
/**//* => OpenComment { at: 4 }
a /* x => OpenComment { at: 2 }
int a /* x => OpenComment { at: 6 }
";

/// Quotes that begin no character.
const BAD_CHARACTERS: &str = r"
'$byte$10$' => BadChar { at: 0 }
'$byte$31$' => BadChar { at: 0 }
'$byte$127$' => BadChar { at: 0 }
'$byte$195$' => BadChar { at: 0 }
' => BadChar { at: 0 }
'' => BadChar { at: 0 }
'a => BadChar { at: 0 }
'ab' => BadChar { at: 0 }
'\' => BadChar { at: 0 }
'\a' => BadChar { at: 0 }
'\N' => BadChar { at: 0 }
'\n => BadChar { at: 0 }
'\00' => BadChar { at: 0 }
'\x' => BadChar { at: 0 }
'\x8' => BadChar { at: 0 }
'\x8 => BadChar { at: 0 }
'\xg0' => BadChar { at: 0 }
'\x800' => BadChar { at: 0 }
'\X80' => BadChar { at: 0 }
'a'' => BadChar { at: 3 }
a' => BadChar { at: 1 }
int main(void){ return 'ab'; } => BadChar { at: 23 }
";

/// Literals of 2^64 and above.
const BIG_LITERALS: &str = r"
18446744073709551616 => BigLiteral { at: 0 }
18446744073709551616u => BigLiteral { at: 0 }
99999999999999999999999999999999999999999999999999 => BigLiteral { at: 0 }
02000000000000000000000 => BigLiteral { at: 0 }
0x10000000000000000 => BigLiteral { at: 0 }
0xFFFFFFFFFFFFFFFF0ull => BigLiteral { at: 0 }
1 + 18446744073709551616 => BigLiteral { at: 4 }
int main(void){ return 18446744073709551616; } => BigLiteral { at: 23 }
";

/// Whether a byte is in no token, no white space and no comment (C11, 5.2.1).
fn is_bad(byte: u8) -> bool {
    match byte {
        0..=8 | 14..=31 | b'"' | b'#' | b'$' | b'.' | b'@' | b'\\' | b'`' | 127..=255 => true,
        _ => false,
    }
}

#[test]
fn texts_are_tokens_or_refused(rt: HostRuntime) {
    all_as_wanted(
        &rt,
        rt.alloc(),
        Reader::Token,
        &[NAMES, DECIMAL, OCTAL_AND_HEXADECIMAL, SUFFIXES, ESCAPES],
    );
    all_as_wanted(
        &rt,
        rt.alloc(),
        Reader::Tokens,
        &[
            LONGEST,
            COMMENTS,
            OPEN_COMMENTS,
            BAD_CHARACTERS,
            BIG_LITERALS,
        ],
    );
}

#[test]
fn characters_have_their_numbers(rt: HostRuntime) {
    for byte in 32..127u8 {
        if byte != b'\'' && byte != b'\\' {
            assert!(rt; is_character(rt.alloc(), byte), "of {byte}");
        }
    }
}

/// Whether a byte begins no token, alone, after another token, and before a quote.
fn begins_no_token(alloc: Global, byte: u8) -> bool {
    no_token_at(alloc, &[byte], 0)
        && no_token_at(alloc, &[b'a', b' ', byte], 2)
        && no_token_at(alloc, &[byte, b'\''], 0)
}

#[test]
fn bytes_begin_no_token(rt: HostRuntime) {
    for byte in 0..=255u8 {
        if is_bad(byte) {
            assert!(rt; begins_no_token(rt.alloc(), byte), "of {byte}");
        }
    }
}
