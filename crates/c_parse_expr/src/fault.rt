//! Which first tokens begin expressions, and where the exception's record isn't read in its form.

ghost use Rattle.std.specs.Prelude.{ℕ, IsTrue, IsFalse, List, ◌∷◌};
ghost use Rattle.c_lex.specs.declared.token.Token.{Token};
ghost use Rattle.c_syntax.specs.Faults.{place, Failed};
ghost use Rattle.c_syntax.specs.Tokens.{token};
ghost use Rattle.c_parse_expr.specs.Readings.{NoField, HasField, NoInformation, HasInformation, CanBeginExpression, NeverBegins, BeginsOperand};

use c_lex::keyword::Keyword;
use c_lex::punctuator::Punctuator;
use c_lex::token::{Kind, Token};
use c_parse_atom::information::{after_word, intrinsic};
use c_parse_atom::operands::integer;
use c_parse_atom::operators::{increment_of, unary_of};
use c_parse_type::front::{after, front};

/// Whether an operand can begin with a punctuator.
pub fn opens(punctuator: Punctuator) -> bool
    ensures opens { IsTrue result → BeginsOperand punctuator }
    ensures never { IsFalse result → BeginsOperand punctuator → ⊥ }
{
    punctuator == Punctuator::OpenParenthesis
        || unary_of(punctuator).is_some()
        || increment_of(punctuator).is_some()
}

/// Whether an expression can begin with a token of this kind.
fn begins_with(kind: Kind) -> bool
    ensures begins { IsTrue result → (start end : ℕ) (rest : List Token)
        → CanBeginExpression (token kind start end ∷ rest) }
    ensures never { IsFalse result → (start end : ℕ) (rest : List Token)
        → NeverBegins (token kind start end ∷ rest) }
{
    match kind {
        Kind::Identifier | Kind::Integer { .. } | Kind::CharacterConstant(_) => true,
        Kind::Keyword(keyword) => keyword == Keyword::GetExceptionInformation,
        Kind::Reserved(_) => false,
        Kind::Punctuator(punctuator) => opens(punctuator),
    }
}

/// Whether an expression can begin with the first token.
pub fn begins(tokens: &[Token]) -> bool
    ensures begins { IsTrue result → CanBeginExpression tokens.now }
    ensures never { IsFalse result → NeverBegins tokens.now }
{
    match front(tokens) {
        Some((token, _)) => begins_with(token.kind),
        None => false,
    }
}

/// The tokens from the first with which no field of an exception's record continues; no field is at
/// the front.
fn field_departure<'a>(text: &[u8], tokens: &'a [Token]) -> &'a [Token]
    requires { NoField 0 text.now tokens.now }
    ensures { Failed 0 (place text.now result.now) NoField HasField text.now tokens.now }
{
    let Some(bracket) = after_word(text, b"ExceptionInformation", tokens) else {
        return tokens;
    };
    let Some(index) = after(Punctuator::OpenBracket, bracket) else {
        return bracket;
    };
    match integer(index) {
        Some((_, _, rest)) => rest,
        None => index,
    }
}

/// The tokens from the first with which `GetExceptionInformation()->ExceptionRecord->field` doesn't
/// continue; none such is at the front.
pub fn departure<'a>(text: &[u8], tokens: &'a [Token]) -> &'a [Token]
    requires { NoInformation 0 text.now tokens.now }
    ensures { Failed 0 (place text.now result.now) NoInformation HasInformation text.now
        tokens.now }
{
    let Some((_, open)) = intrinsic(tokens) else {
        return tokens;
    };
    let Some(close) = after(Punctuator::OpenParenthesis, open) else {
        return open;
    };
    let Some(arrow) = after(Punctuator::CloseParenthesis, close) else {
        return close;
    };
    let Some(record) = after(Punctuator::Arrow, arrow) else {
        return arrow;
    };
    let Some(following) = after_word(text, b"ExceptionRecord", record) else {
        return record;
    };
    match after(Punctuator::Arrow, following) {
        Some(field) => field_departure(text, field),
        None => following,
    }
}
