//! Filters, and which of them have a number.

ghost use Rattle.std.specs.Prelude.{◌≡◌, ◌≤◌, ◌<◌, ◌+◌, true, List, ◌∷◌, IsTrue, IsFalse, IfSome, IfNone, IfOk, IfErr};
ghost use Rattle.c_lex.specs.declared.punctuator.Punctuator.TheVariants as punctuators;
ghost use Rattle.c_lex.specs.declared.token.Token.{Token};
ghost use Rattle.c_syntax.specs.Expression.{expression, height};
ghost use Rattle.c_syntax.specs.Faults as faults;
ghost use Rattle.c_syntax.specs.Faults.{Failed};
ghost use Rattle.c_syntax.specs.Limits as limits;
ghost use Rattle.c_syntax.specs.Limits.{every_limit};
ghost use Rattle.c_syntax.specs.Statements.{IsCondition};
ghost use Rattle.c_syntax.specs.Tokens.{HasPunctuator};
ghost use Rattle.c_syntax.specs.declared.limit.Count.TheVariants.{Funclets};
ghost use Rattle.c_parse_expr.specs.declared.refusal.ParseErr.TheVariants.{TooMany};
ghost use Rattle.c_parse_stmt.specs.Begins.{first_over};
ghost use Rattle.c_parse_stmt.specs.Filters.{is_one, numbers_of, accepts_alone, AreOpening, AreClosing, ContinuesInside, NoneInside, ContinuesAfter, NoneAfter, NoFilter, HasFilter, Departs};
ghost use Rattle.c_parse_stmt.specs.Refused.{RefusesCondition, RefusesFilter};

use crate::parts::{begins_expression, condition};
use c_lex::punctuator::Punctuator;
use c_lex::token::{Kind, Token};
use c_parse_atom::information::is_word;
use c_parse_atom::operators::follows;
use c_parse_expr::refusal::{ParseErr, place};
use c_parse_type::front::{after, front};
use c_parse_type::specifiers::base;
use c_syntax::expression::{Expr, Identifier, Literal};
use c_syntax::level::{COMMA, PRIMARY};
use c_syntax::limit::{Count, MOST_EXPRESSIONS};
use std::alloc::Global;

/// The most opening parentheses that a filter may have: its own, and those of the expressions
/// around a part of it.
const OPENING: u64 = MOST_EXPRESSIONS + 1;

/// Whether a literal is an integer of value 1.
fn is_one(literal: Literal) -> bool
    ensures { result ≡ is_one literal }
{
    match literal {
        Literal::Integer { value, .. } => value == 1,
        Literal::CharacterConstant(_) => false,
    }
}

/// Whether a filter accepts whatever was raised: it is an integer of value 1, or the name of that
/// value (Microsoft C reference, "try-except statement").
fn accepts(text: &[u8], filter: &Expr) -> bool
    ensures { result ≡ limits.accepts text.now (expression filter.now) }
{
    match filter {
        Expr::Literal { literal, .. } => is_one(*literal),
        Expr::Variable(name) => is_word(text, *name, b"EXCEPTION_EXECUTE_HANDLER"),
        Expr::Parentheses { inner, .. } => accepts(text, inner),
        _ => false,
    }
}

/// How many opening parentheses are at the front, as far as a filter may have so many, and what
/// follows them.
fn past_opening(tokens: &[Token]) -> (u64, &[Token])
    ensures opened { AreOpening result.0 tokens.now result.1.now }
    ensures most { result.0 ≤ OPENING }
    ensures all { result.0 < OPENING → (rest : List Token)
        → HasPunctuator punctuators.OpenParenthesis result.1.now rest → ⊥ }
{
    let mut count = 0;
    let mut rest = tokens;
    while count < OPENING {
        match after(Punctuator::OpenParenthesis, rest) {
            Some(following) => {
                count += 1;
                rest = following;
            }
            None => return (count, rest),
        }
    }
    (count, rest)
}

/// How many closing parentheses are at the front, at most so many, and what follows them.
fn past_closing(most: u64, tokens: &[Token]) -> (u64, &[Token])
    ensures closed { AreClosing result.0 tokens.now result.1.now }
    ensures most { result.0 ≤ most }
    ensures all { result.0 < most → (rest : List Token)
        → HasPunctuator punctuators.CloseParenthesis result.1.now rest → ⊥ }
{
    let mut count = 0;
    let mut rest = tokens;
    while count < most {
        match after(Punctuator::CloseParenthesis, rest) {
            Some(following) => {
                count += 1;
                rest = following;
            }
            None => return (count, rest),
        }
    }
    (count, rest)
}

/// Whether a token alone is an expression that accepts whatever was raised.
fn accepts_alone(text: &[u8], token: Token) -> bool
    ensures { result ≡ accepts_alone text.now token }
{
    match token.kind {
        Kind::Integer { value, .. } => value == 1,
        Kind::Identifier => {
            let name = Identifier {
                start: token.start,
                end: token.end,
            };
            is_word(text, name, b"EXCEPTION_EXECUTE_HANDLER")
        }
        _ => false,
    }
}

/// The token at the front, if it accepts alone, and what follows it.
fn accepting<'a>(text: &[u8], tokens: &'a [Token]) -> Option<(Token, &'a [Token])>
    ensures found { IfSome result (λ x. tokens.now ≡ x.0 ∷ x.1.now) }
    ensures accepts { IfSome result (λ x. accepts_alone text.now x.0 ≡ true) }
    ensures none { IfNone result ((t : Token) (rest : List Token) → tokens.now ≡ t ∷ rest
        → accepts_alone text.now t ≡ true → ⊥) }
{
    let (token, rest) = front(tokens)?;
    if accepts_alone(text, token) {
        Some((token, rest))
    } else {
        None
    }
}

/// How many expressions at least are around a part of one that begins with the first token: a
/// punctuator there is an operator's or a parenthesis.
fn first_over(tokens: &[Token]) -> u64
    ensures { result ≡ first_over tokens.now }
{
    match front(tokens) {
        Some((token, _)) => match token.kind {
            Kind::Punctuator(_) => 1,
            _ => 0,
        },
        None => 0,
    }
}

/// Whether some filter continues with the first token after so many opening parentheses: an
/// expression begins with it, or a type in the last of them, within the limit of nesting.
fn continues_inside(opened: u64, tokens: &[Token]) -> bool
    requires some { 1 ≤ opened }
    requires most { opened ≤ OPENING }
    ensures some { IsTrue result → ContinuesInside opened tokens.now }
    ensures none { IsFalse result → NoneInside opened tokens.now }
{
    if begins_expression(tokens) {
        return opened + first_over(tokens) <= OPENING;
    }
    match base(tokens) {
        Some(_) => 2 <= opened,
        None => false,
    }
}

/// Whether some filter continues with the first token after opening parentheses, a token that
/// accepts alone, and fewer closing ones: it is an operator within the limit of nesting, or makes a
/// call.
fn continues_after(opened: u64, closed: u64, atom: Token, tokens: &[Token]) -> bool
    requires fewer { closed < opened }
    requires most { opened ≤ OPENING }
    requires unclosed { (rest : List Token)
        → HasPunctuator punctuators.CloseParenthesis tokens.now rest → ⊥ }
    ensures some { IsTrue result → ContinuesAfter opened closed atom tokens.now }
    ensures none { IsFalse result → NoneAfter opened closed atom tokens.now }
{
    let level = follows(tokens);
    if level == PRIMARY {
        return closed == 0 && matches!(atom.kind, Kind::Identifier);
    }
    level <= COMMA && opened < OPENING
}

/// The tokens from the first with which no filter continues that accepts whatever was raised, and
/// whether another one continues there: such a filter is opening parentheses, a token that accepts
/// alone, and as many closing ones.
fn departure<'a>(text: &[u8], tokens: &'a [Token]) -> (&'a [Token], bool)
    ensures many { IsTrue result.1 → NoFilter 0 every_limit text.now tokens.now → Failed every_limit
        (faults.place text.now result.0.now) (NoFilter 0) (HasFilter 0) text.now tokens.now }
    ensures none { IsFalse result.1 → NoFilter 0 every_limit text.now tokens.now
        → Departs text.now tokens.now result.0.now }
{
    let (opened, inner) = past_opening(tokens);
    if opened == 0 {
        return (inner, false);
    }
    match accepting(text, inner) {
        Some((token, following)) => {
            let (closed, rest) = past_closing(opened, following);
            if closed == opened {
                return (rest, false);
            }
            (rest, continues_after(opened, closed, token, rest))
        }
        None => (inner, continues_inside(opened, inner)),
    }
}

/// The refusal of a filter or a `__finally` block that has one number too many.
pub fn too_many_funclets(at: u64) -> ParseErr
    ensures { result ≡ TooMany at Funclets }
{
    ParseErr::TooMany {
        at,
        what: Count::Funclets,
    }
}

/// The refusal that comes first where no filter may have a number: this one of a condition, or that
/// of the token from which no other filter continues.
fn earlier(text: &[u8], refusal: ParseErr, tokens: &[Token]) -> ParseErr
    ensures { RefusesCondition refusal text.now tokens.now
        → RefusesFilter result 0 text.now tokens.now }
{
    match refusal {
        ParseErr::Memory => refusal,
        _ => {
            let (rest, continues) = departure(text, tokens);
            if continues {
                too_many_funclets(place(text, rest))
            } else {
                refusal
            }
        }
    }
}

/// The filter in parentheses at the front, how many filters and `__finally` blocks the program may
/// still have, and what follows it. Where there may be no more, only a filter that accepts whatever
/// was raised continues: the first token that departs from each of these is one too many.
pub fn filter<'a>(
    alloc: Global,
    text: &[u8],
    funclets: u64,
    tokens: &'a [Token],
) -> Result<(Expr, u64, &'a [Token]), ParseErr>
    ensures found { IfOk result (λ x. IsCondition text.now (expression x.0) tokens.now x.2.now) }
    ensures low { IfOk result (λ x. height (expression x.0) ≤ MOST_EXPRESSIONS) }
    ensures taken { IfOk result (λ x.
        x.1 + numbers_of (limits.accepts text.now (expression x.0)) ≡ funclets) }
    ensures refused { IfErr result (λ e. RefusesFilter e funclets text.now tokens.now) }
{
    match condition(alloc, text, tokens) {
        Ok((filter, rest)) => {
            if accepts(text, &filter) {
                return Ok((filter, funclets, rest));
            }
            if funclets == 0 {
                drop(filter);
                let (rest, _) = departure(text, tokens);
                return Err(too_many_funclets(place(text, rest)));
            }
            Ok((filter, funclets - 1, rest))
        }
        Err(refusal) => {
            if funclets == 0 {
                return Err(earlier(text, refusal, tokens));
            }
            Err(refusal)
        }
    }
}
