//! Parts of statements: keywords and punctuators that have to be there, expressions and what ends
//! them.

ghost use Rattle.std.specs.Prelude.{◌≤◌, ◌<◌, List, IsTrue, IsFalse, IfOk, IfErr, IfSome, IfNone, option_map};
ghost use Rattle.c_lex.specs.declared.keyword.Keyword.{Keyword};
ghost use Rattle.c_lex.specs.declared.punctuator.Punctuator.{Punctuator};
ghost use Rattle.c_lex.specs.declared.token.Token.{Token};
ghost use Rattle.c_syntax.specs.Expression.{expression, height};
ghost use Rattle.c_syntax.specs.Follow.{punctuator_follows};
ghost use Rattle.c_syntax.specs.Limits.{height_of, one_over};
ghost use Rattle.c_syntax.specs.Statements.{IsUpTo, IsCondition};
ghost use Rattle.c_syntax.specs.Tokens.{IsKeyword, HasKeyword, HasPunctuator};
ghost use Rattle.c_parse_type.specs.Bases.{NoBase};
ghost use Rattle.c_parse_stmt.specs.declared.remaining.Remaining.{Remaining};
ghost use Rattle.c_parse_stmt.specs.Begins.{BeginsExpression, BeginsNoExpression, BeginsStatement, BeginsNoStatement};
ghost use Rattle.c_parse_stmt.specs.Refused.{RefusesPunctuator, RefusesCondition, RefusesUpTo, RefusesBlockItem};

use c_lex::keyword::Keyword;
use c_lex::punctuator::Punctuator;
use c_lex::token::{Kind, Token};
use c_parse_expr::expressions::expression;
use c_parse_expr::refusal::{ParseErr, too_deep, unexpected};
use c_parse_type::front::{after, front};
use c_syntax::expression::Expr;
use c_syntax::level::COMMA;
use c_syntax::limit::MOST_EXPRESSIONS;
use std::alloc::Global;

/// The keyword at the front, its place, and what follows it.
pub fn keyword_at(tokens: &[Token]) -> Option<(Keyword, u64, &[Token])>
    ensures found { IfSome result (λ x. IsKeyword x.0 x.1 tokens.now x.2.now) }
    ensures none { IfNone result ((keyword : Keyword) (rest : List Token)
        → HasKeyword keyword tokens.now rest → ⊥) }
{
    let (token, rest) = front(tokens)?;
    match token.kind {
        Kind::Keyword(keyword) => Some((keyword, token.start, rest)),
        _ => None,
    }
}

/// The place of the wanted keyword, and what follows it, if that is at the front.
pub fn word(wanted: Keyword, tokens: &[Token]) -> Option<(u64, &[Token])>
    ensures found { IfSome result (λ x. IsKeyword wanted x.0 tokens.now x.1.now) }
    ensures none { IfNone result ((rest : List Token) → HasKeyword wanted tokens.now rest → ⊥) }
{
    match keyword_at(tokens) {
        Some((found, at, rest)) => {
            if found == wanted {
                Some((at, rest))
            } else {
                None
            }
        }
        None => None,
    }
}

/// What follows the wanted punctuator, which has to be at the front.
pub fn expect<'a>(
    text: &[u8],
    wanted: Punctuator,
    tokens: &'a [Token],
) -> Result<&'a [Token], ParseErr>
    ensures found { IfOk result (λ rest. HasPunctuator wanted tokens.now rest.now) }
    ensures refused { IfErr result (λ e. RefusesPunctuator e wanted text.now tokens.now) }
{
    match after(wanted, tokens) {
        Some(rest) => Ok(rest),
        None => Err(unexpected(text, tokens)),
    }
}

/// Whether an expression begins with the first token (C11, 6.5.1 and 6.5.3).
pub fn begins_expression(tokens: &[Token]) -> bool
    ensures some { IsTrue result → BeginsExpression tokens.now }
    ensures none { IsFalse result → BeginsNoExpression tokens.now }
{
    match front(tokens) {
        Some((token, _)) => match token.kind {
            Kind::Identifier | Kind::Integer { .. } | Kind::CharacterConstant(_) => true,
            Kind::Keyword(keyword) => matches!(keyword, Keyword::GetExceptionInformation),
            Kind::Punctuator(punctuator) => matches!(
                punctuator,
                Punctuator::OpenParenthesis
                    | Punctuator::PlusPlus
                    | Punctuator::MinusMinus
                    | Punctuator::Plus
                    | Punctuator::Minus
                    | Punctuator::Exclamation
                    | Punctuator::Tilde
                    | Punctuator::Star
                    | Punctuator::Ampersand
            ),
            Kind::Reserved(_) => false,
        },
        None => false,
    }
}

/// Whether a statement begins with the first token (C11, 6.8). A declaration is none.
fn begins_statement(tokens: &[Token]) -> bool
    ensures some { IsTrue result → BeginsStatement tokens.now }
    ensures none { IsFalse result → BeginsNoStatement tokens.now }
{
    if begins_expression(tokens) {
        return true;
    }
    match front(tokens) {
        Some((token, _)) => match token.kind {
            Kind::Keyword(keyword) => matches!(
                keyword,
                Keyword::If
                    | Keyword::While
                    | Keyword::Do
                    | Keyword::For
                    | Keyword::Return
                    | Keyword::Break
                    | Keyword::Continue
                    | Keyword::Leave
                    | Keyword::Try
            ),
            Kind::Punctuator(punctuator) => matches!(
                punctuator,
                Punctuator::OpenBrace | Punctuator::Semicolon
            ),
            _ => false,
        },
        None => false,
    }
}

/// The refusal of the first token where an expression is one statement too deep: if none begins
/// with it, no program continues so at all.
fn no_room_for_expression(text: &[u8], tokens: &[Token]) -> ParseErr
    ensures { (end : Punctuator) → ((rest : List Token) → HasPunctuator end tokens.now rest → ⊥)
        → RefusesUpTo result end 0 text.now tokens.now }
{
    if begins_expression(tokens) {
        too_deep(text, tokens)
    } else {
        unexpected(text, tokens)
    }
}

/// The refusal of the first token where no declaration begins with it, and each statement is one
/// too deep: if none begins with it, no program continues so at all.
pub fn no_room_for_statement(text: &[u8], tokens: &[Token]) -> ParseErr
    ensures { (left : Remaining) → NoBase tokens.now
        → RefusesBlockItem result 0 left text.now tokens.now }
{
    if begins_statement(tokens) {
        too_deep(text, tokens)
    } else {
        unexpected(text, tokens)
    }
}

/// The expression in parentheses at the front, and what follows it.
pub fn condition<'a>(
    alloc: Global,
    text: &[u8],
    tokens: &'a [Token],
) -> Result<(Expr, &'a [Token]), ParseErr>
    ensures found { IfOk result (λ x. IsCondition text.now (expression x.0) tokens.now x.1.now) }
    ensures low { IfOk result (λ x. height (expression x.0) ≤ MOST_EXPRESSIONS) }
    ensures refused { IfErr result (λ e. RefusesCondition e text.now tokens.now) }
{
    let inner = expect(text, Punctuator::OpenParenthesis, tokens)?;
    let parsed = expression(alloc, text, MOST_EXPRESSIONS, COMMA, inner)?;
    match expect(text, Punctuator::CloseParenthesis, parsed.rest) {
        Ok(rest) => Ok((parsed.expr, rest)),
        Err(refusal) => {
            drop(parsed.expr);
            Err(refusal)
        }
    }
}

/// The expression, or nothing, up to a punctuator that ends it, and what follows the punctuator. At
/// most `room` statements are around the expression.
pub fn optional<'a>(
    alloc: Global,
    text: &[u8],
    room: u64,
    end: Punctuator,
    tokens: &'a [Token],
) -> Result<(Option<Expr>, &'a [Token]), ParseErr>
    requires { COMMA < punctuator_follows end }
    ensures found { IfOk result (λ x.
        IsUpTo text.now end (option_map expression x.0) tokens.now x.1.now) }
    ensures low { IfOk result (λ x. height_of (option_map expression x.0) ≤ MOST_EXPRESSIONS) }
    ensures over { IfOk result (λ x. one_over (option_map expression x.0) ≤ room) }
    ensures refused { IfErr result (λ e. RefusesUpTo e end room text.now tokens.now) }
{
    match after(end, tokens) {
        Some(rest) => Ok((None, rest)),
        None => {
            if room == 0 {
                return Err(no_room_for_expression(text, tokens));
            }
            let parsed = expression(alloc, text, MOST_EXPRESSIONS, COMMA, tokens)?;
            match expect(text, end, parsed.rest) {
                Ok(rest) => Ok((Some(parsed.expr), rest)),
                Err(refusal) => {
                    drop(parsed.expr);
                    Err(refusal)
                }
            }
        }
    }
}
