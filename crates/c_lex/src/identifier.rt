//! Words of letters, digits and `_`.

ghost use Rattle.std.specs.Prelude.{◌≡◌};
ghost use Rattle.c_lex.specs.Identifiers.{is_letter, is_digit, is_identifier_byte, identifier_kind};
ghost use Rattle.c_lex.specs.Longest.{span};

use crate::keyword::Keyword;
use crate::reserved::Reserved;
use crate::token::Kind;

#[tactic(auto, unfolding(crate::specs::Identifiers::is_letter))]
pub(crate) fn is_letter(byte: u8) -> bool
    ensures { result ≡ is_letter byte }
{
    byte.is_ascii_alphabetic() || byte == b'_'
}

#[tactic(auto, unfolding(crate::specs::Identifiers::is_digit))]
pub(crate) fn is_digit(byte: u8) -> bool
    ensures { result ≡ is_digit byte }
{
    byte.is_ascii_digit()
}

#[tactic(auto, unfolding(crate::specs::Identifiers::is_identifier_byte))]
fn is_identifier_byte(byte: u8) -> bool
    ensures { result ≡ is_identifier_byte byte }
{
    is_letter(byte) || is_digit(byte)
}

/// What follows the letters, digits and `_` at the front.
pub(crate) fn after_identifier(text: &[u8]) -> &[u8]
    ensures { result.now ≡ (span is_identifier_byte text.now).1 }
{
    let mut rest = text;
    while let [first, after @ ..] = rest {
        if !is_identifier_byte(*first) {
            return rest;
        }
        rest = after;
    }
    rest
}

/// What a word of letters, digits and `_` is.
#[tactic(auto, unfolding(crate::specs::Identifiers::identifier_kind))]
pub(crate) fn identifier_kind(word: &[u8]) -> Kind
    ensures { result ≡ identifier_kind word.now }
{
    match Keyword::of(word) {
        Some(keyword) => Kind::Keyword(keyword),
        None => match Reserved::of(word) {
            Some(reserved) => Kind::Reserved(reserved),
            None => Kind::Identifier,
        },
    }
}
