//! Tokens at the front.

ghost use Rattle.std.specs.Prelude.{◌≡◌, List, IfSome, IfNone, option_map};
ghost use Rattle.c_lex.specs.declared.token.Token.{Token};
ghost use Rattle.c_syntax.specs.Tokens.{HasPunctuator};
ghost use Rattle.c_parse_type.specs.Fronts.{first, after_punctuator, after_keyword};

use c_lex::keyword::Keyword;
use c_lex::punctuator::Punctuator;
use c_lex::token::{Kind, Token};

/// The token at the front, and what follows it.
pub fn front(tokens: &[Token]) -> Option<(Token, &[Token])>
    ensures { option_map (λ x. (x.0, x.1.now)) result ≡ first tokens.now }
{
    match tokens {
        [] => None,
        [first, rest @ ..] => Some((*first, rest)),
    }
}

/// The keyword at the front, and what follows it.
pub fn keyword(tokens: &[Token]) -> Option<(Keyword, &[Token])>
    ensures { option_map (λ x. (x.0, x.1.now)) result ≡ after_keyword tokens.now }
{
    let (token, rest) = front(tokens)?;
    match token.kind {
        Kind::Keyword(keyword) => Some((keyword, rest)),
        _ => None,
    }
}

/// The punctuator at the front, its place, and what follows it.
pub fn punctuator(tokens: &[Token]) -> Option<(Punctuator, u64, &[Token])>
    ensures { option_map (λ x. (x.0, x.1, x.2.now)) result ≡ after_punctuator tokens.now }
{
    let (token, rest) = front(tokens)?;
    match token.kind {
        Kind::Punctuator(punctuator) => Some((punctuator, token.start, rest)),
        _ => None,
    }
}

/// What follows the wanted punctuator, if that is at the front.
pub fn after(wanted: Punctuator, tokens: &[Token]) -> Option<&[Token]>
    ensures found { IfSome result (λ rest. HasPunctuator wanted tokens.now rest.now) }
    ensures none { IfNone result ((rest : List Token) → HasPunctuator wanted tokens.now rest → ⊥) }
{
    match punctuator(tokens) {
        Some((found, _, rest)) => { if found == wanted { Some(rest) } else { None } }
        None => None,
    }
}
