//! Types.

ghost use Rattle.std.specs.Prelude.{◌≡◌, ◌<◌, ◌^◌, ℕ, IfSome, IfNone, List, [], ◌∷◌, Some, option_map};
ghost use Rattle.c_lex.specs.declared.token.Token.{Token};
ghost use Rattle.c_syntax.specs.declared.expression.Base.{Base};
ghost use Rattle.c_syntax.specs.declared.expression.CType.{CType};
ghost use Rattle.c_syntax.specs.Types.{IsBase, IsType, AreStars};
ghost use Rattle.c_parse_type.specs.Bases as bases;
ghost use Rattle.c_parse_type.specs.Bases.{NoBase, NoStar, EndsBase, EndsType};

use crate::front::{after, keyword};
use c_lex::keyword::Keyword;
use c_lex::punctuator::Punctuator;
use c_lex::token::Token;
use c_syntax::expression::{Base, CType};

/// What follows `int`, if that is at the front.
fn past_int(tokens: &[Token]) -> &[Token]
    ensures { result.now ≡ bases.past_int tokens.now }
{
    match keyword(tokens) {
        Some((Keyword::Int, rest)) => rest,
        _ => tokens,
    }
}

/// What `long` and the specifiers after it name.
fn long(plain: Base, long_long: Base, tokens: &[Token]) -> (Base, &[Token])
    ensures base { result.0 ≡ (bases.long plain long_long tokens.now).0 }
    ensures rest { result.1.now ≡ (bases.long plain long_long tokens.now).1 }
{
    match keyword(tokens) {
        Some((Keyword::Long, rest)) => (long_long, past_int(rest)),
        _ => (plain, past_int(tokens)),
    }
}

/// What the specifiers after `signed` name.
fn signed(tokens: &[Token]) -> (Base, &[Token])
    ensures base { result.0 ≡ (bases.signed tokens.now).0 }
    ensures rest { result.1.now ≡ (bases.signed tokens.now).1 }
{
    match keyword(tokens) {
        Some((Keyword::Char, rest)) => (Base::Char, rest),
        Some((Keyword::Short, rest)) => (Base::Short, past_int(rest)),
        Some((Keyword::Int, rest)) => (Base::Int, rest),
        Some((Keyword::Long, rest)) => long(Base::Int, Base::LongLong, rest),
        _ => (Base::Int, tokens),
    }
}

/// What the specifiers after `unsigned` name.
fn unsigned(tokens: &[Token]) -> (Base, &[Token])
    ensures base { result.0 ≡ (bases.unsigned tokens.now).0 }
    ensures rest { result.1.now ≡ (bases.unsigned tokens.now).1 }
{
    match keyword(tokens) {
        Some((Keyword::Char, rest)) => (Base::UnsignedChar, rest),
        Some((Keyword::Short, rest)) => (Base::UnsignedShort, past_int(rest)),
        Some((Keyword::Int, rest)) => (Base::Unsigned, rest),
        Some((Keyword::Long, rest)) => long(Base::Unsigned, Base::UnsignedLongLong, rest),
        _ => (Base::Unsigned, tokens),
    }
}

/// The base that specifiers at the front name, as many as belong to it, and what follows them.
fn specifiers(tokens: &[Token]) -> Option<(Base, &[Token])>
    ensures { option_map (λ x. (x.0, x.1.now)) result ≡ bases.base tokens.now }
{
    let (first, rest) = keyword(tokens)?;
    match first {
        Keyword::Void => Some((Base::Void, rest)),
        Keyword::Char => Some((Base::Char, rest)),
        Keyword::Short => Some((Base::Short, past_int(rest))),
        Keyword::Int => Some((Base::Int, rest)),
        Keyword::Long => Some(long(Base::Int, Base::LongLong, rest)),
        Keyword::Signed => Some(signed(rest)),
        Keyword::Unsigned => Some(unsigned(rest)),
        _ => None,
    }
}

/// The base that specifiers at the front name (C11, 6.7.2), as many as belong to it, and what
/// follows them; none where no specifiers are at the front.
pub fn base(tokens: &[Token]) -> Option<(Base, &[Token])>
    ensures found { IfSome result (λ x. IsBase x.0 tokens.now x.1.now) }
    ensures far { IfSome result (λ x. EndsBase x.0 tokens.now x.1.now) }
    ensures only { (b : Base) (rest : List Token) → IsBase b tokens.now rest → NoBase rest
        → option_map {U = Base × List Token} (λ x. (x.0, x.1.now)) result ≡ Some (b, rest) }
    ensures none { IfNone result (NoBase tokens.now) }
{
    specifiers(tokens)
}

/// How many stars are at the front, and what follows them.
pub fn stars(tokens: &[Token]) -> (u64, &[Token])
    ensures found { AreStars result.0 tokens.now result.1.now }
    ensures all { NoStar result.1.now }
{
    let mut count = 0;
    let mut rest = tokens;
    while let Some(following) = after(Punctuator::Star, rest) {
        count += 1;
        rest = following;
    }
    (count, rest)
}

/// The type at the front, its specifiers and stars as far as they go, and what follows it; none
/// where no specifiers are at the front.
pub fn c_type(tokens: &[Token]) -> Option<(CType, &[Token])>
    ensures found { IfSome result (λ x. IsType x.0 tokens.now x.1.now) }
    ensures far { IfSome result (λ x. EndsType x.0 tokens.now x.1.now) }
    ensures only { (of : CType) (rest : List Token) → IsType of tokens.now rest → NoBase rest
        → NoStar rest → option_map {U = CType × List Token} (λ x. (x.0, x.1.now)) result
        ≡ Some (of, rest) }
    ensures none { IfNone result (NoBase tokens.now) }
{
    let (base, rest) = base(tokens)?;
    let (pointers, rest) = stars(rest);
    Some((CType { base, pointers }, rest))
}
