//! What a filter reads of the exception's record.

ghost use Rattle.std.specs.Prelude.{◌≡◌, ℕ, List, IfSome, IfNone, slice_range};
ghost use Rattle.c_lex.specs.declared.token.Token.{Token};
ghost use Rattle.c_lex.specs.declared.keyword.Keyword.TheVariants as keywords;
ghost use Rattle.c_syntax.specs.Expression.{Information};
ghost use Rattle.c_syntax.specs.Expressions.{IsField, IsIntroduced, SpellsExpression};
ghost use Rattle.c_syntax.specs.Tokens.{IsKeyword, HasWord};
ghost use Rattle.c_syntax.specs.declared.expression.Field.{Field};
ghost use Rattle.c_parse_atom.specs.Information.{is_word};

use crate::operands::{integer, name};
use c_lex::keyword::Keyword;
use c_lex::punctuator::Punctuator;
use c_lex::token::{Kind, Token};
use c_parse_type::front::{after, front};
use c_syntax::expression::{Field, Identifier};

/// The bytes of a name: those of the text within its range.
fn spelling(text: &[u8], name: Identifier) -> &[u8]
    ensures { result.now ≡ slice_range text.now name.start name.end }
{
    let start = name.start as usize;
    let end = name.end as usize;
    if end <= start || text.len() <= start {
        return &[];
    }
    if text.len() < end {
        &text[start..]
    } else {
        &text[start..end]
    }
}

/// Whether a name is this word.
pub fn is_word(text: &[u8], name: Identifier, word: &[u8]) -> bool
    ensures { result ≡ is_word text.now name word.now }
{
    spelling(text, name) == word
}

/// What follows a name with this spelling, if that is at the front.
pub fn after_word<'a>(text: &[u8], word: &[u8], tokens: &'a [Token]) -> Option<&'a [Token]>
    ensures found { IfSome result (λ rest. HasWord text.now word.now tokens.now rest.now) }
    ensures none { IfNone result ((rest : List Token) → HasWord text.now word.now tokens.now rest
        → ⊥) }
{
    let (name, rest) = name(tokens)?;
    if is_word(text, name, word) {
        Some(rest)
    } else {
        None
    }
}

/// The place of `GetExceptionInformation` at the front, and what follows it.
pub fn intrinsic(tokens: &[Token]) -> Option<(u64, &[Token])>
    ensures found { IfSome result (λ x.
        IsKeyword keywords.GetExceptionInformation x.0 tokens.now x.1.now) }
    ensures none { IfNone result ((at : ℕ) (rest : List Token)
        → IsKeyword keywords.GetExceptionInformation at tokens.now rest → ⊥) }
{
    let (token, rest) = front(tokens)?;
    match token.kind {
        Kind::Keyword(Keyword::GetExceptionInformation) => Some((token.start, rest)),
        _ => None,
    }
}

/// What follows `GetExceptionInformation()->ExceptionRecord->` at the front, with its place.
fn introduced<'a>(text: &[u8], tokens: &'a [Token]) -> Option<(u64, &'a [Token])>
    ensures found { IfSome result (λ x. IsIntroduced text.now x.0 tokens.now x.1.now) }
    ensures none { IfNone result ((at : ℕ) (rest : List Token)
        → IsIntroduced text.now at tokens.now rest → ⊥) }
{
    let (at, rest) = intrinsic(tokens)?;
    let rest = after(Punctuator::OpenParenthesis, rest)?;
    let rest = after(Punctuator::CloseParenthesis, rest)?;
    let rest = after(Punctuator::Arrow, rest)?;
    let rest = after_word(text, b"ExceptionRecord", rest)?;
    let rest = after(Punctuator::Arrow, rest)?;
    Some((at, rest))
}

/// The field of the exception's record at the front, and what follows it.
fn field<'a>(text: &[u8], tokens: &'a [Token]) -> Option<(Field, &'a [Token])>
    ensures found { IfSome result (λ x. IsField text.now x.0 tokens.now x.1.now) }
    ensures none { IfNone result ((field : Field) (rest : List Token)
        → IsField text.now field tokens.now rest → ⊥) }
{
    if let Some(rest) = after_word(text, b"ExceptionCode", tokens) {
        return Some((Field::Code, rest));
    }
    if let Some(rest) = after_word(text, b"ExceptionFlags", tokens) {
        return Some((Field::Flags, rest));
    }
    if let Some(rest) = after_word(text, b"NumberParameters", tokens) {
        return Some((Field::Count, rest));
    }
    let rest = after_word(text, b"ExceptionInformation", tokens)?;
    let rest = after(Punctuator::OpenBracket, rest)?;
    let (index, at, rest) = integer(rest)?;
    let rest = after(Punctuator::CloseBracket, rest)?;
    Some((Field::Information { index, at }, rest))
}

/// The field of the exception's record that is read at the front, in the form
/// `GetExceptionInformation()->ExceptionRecord->field`, the place of its first token, and what
/// follows it. Identifiers are read from the text.
pub fn information<'a>(text: &[u8], tokens: &'a [Token]) -> Option<(u64, Field, &'a [Token])>
    ensures found { IfSome result (λ x.
        SpellsExpression text.now (Information x.0 x.1) tokens.now x.2.now) }
    ensures none { IfNone result ((at : ℕ) (field : Field) (rest : List Token)
        → SpellsExpression text.now (Information at field) tokens.now rest → ⊥) }
{
    let (at, rest) = introduced(text, tokens)?;
    let (field, rest) = field(text, rest)?;
    Some((at, field, rest))
}
