//! Expressions that hold no other.

ghost use Rattle.std.specs.Prelude.{◌≡◌, ℕ, List, IfSome, IfNone};
ghost use Rattle.c_lex.specs.declared.token.Token.{Token};
ghost use Rattle.c_syntax.specs.declared.expression.Literal.{Literal};
ghost use Rattle.c_syntax.specs.declared.expression.Identifier.{Identifier};
ghost use Rattle.c_syntax.specs.Expressions.{literal_kind, IsInteger};
ghost use Rattle.c_syntax.specs.Tokens.{IsKind, IsIdentifier};

use c_lex::token::{Kind, Token};
use c_parse_type::front::front;
use c_syntax::expression::{Identifier, Literal};

/// The literal that a token of this kind is (C11, 6.4.4).
fn literal_of(kind: Kind) -> Option<Literal>
    ensures found { IfSome result (λ x. literal_kind x ≡ kind) }
    ensures none { IfNone result ((literal : Literal) → literal_kind literal ≡ kind → ⊥) }
{
    match kind {
        Kind::Integer { value, of } => Some(Literal::Integer { value, of }),
        Kind::CharacterConstant(value) => Some(Literal::CharacterConstant(value)),
        _ => None,
    }
}

/// The literal at the front, its place, and what follows it.
pub fn literal(tokens: &[Token]) -> Option<(Literal, u64, &[Token])>
    ensures found { IfSome result (λ x. IsKind (literal_kind x.0) x.1 tokens.now x.2.now) }
    ensures none { IfNone result ((literal : Literal) (at : ℕ) (rest : List Token)
        → IsKind (literal_kind literal) at tokens.now rest → ⊥) }
{
    let (token, rest) = front(tokens)?;
    let literal = literal_of(token.kind)?;
    Some((literal, token.start, rest))
}

/// The value of the integer literal at the front, its place, and what follows it.
pub fn integer(tokens: &[Token]) -> Option<(u64, u64, &[Token])>
    ensures found { IfSome result (λ x. IsInteger x.0 x.1 tokens.now x.2.now) }
    ensures none { IfNone result ((value at : ℕ) (rest : List Token)
        → IsInteger value at tokens.now rest → ⊥) }
{
    let (token, rest) = front(tokens)?;
    match token.kind {
        Kind::Integer { value, .. } => Some((value, token.start, rest)),
        _ => None,
    }
}

/// The name at the front, and what follows it.
pub fn name(tokens: &[Token]) -> Option<(Identifier, &[Token])>
    ensures found { IfSome result (λ x. IsIdentifier x.0 tokens.now x.1.now) }
    ensures none { IfNone result ((name : Identifier) (rest : List Token)
        → IsIdentifier name tokens.now rest → ⊥) }
{
    let (token, rest) = front(tokens)?;
    match token.kind {
        Kind::Identifier => {
            let name = Identifier {
                start: token.start,
                end: token.end,
            };
            Some((name, rest))
        }
        _ => None,
    }
}
