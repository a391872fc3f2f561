//! What statements begin with, up to the first statement that is in them.

ghost use Rattle.std.specs.Prelude.{IfOk, IfErr};
ghost use Rattle.c_lex.specs.declared.keyword.Keyword.TheVariants as keywords;
ghost use Rattle.c_syntax.specs.Tokens.{IsKeyword};
ghost use Rattle.c_parse_stmt.specs.Openings.{Opens, OpensAfter};
ghost use Rattle.c_parse_stmt.specs.Refused.{RefusesStatement, RefusesEvaluation, RefusesAfter};

use crate::filters::too_many_funclets;
use crate::locals::for_initialiser;
use crate::parts::{condition, expect, keyword_at, optional};
use crate::remaining::Remaining;
use c_lex::keyword::Keyword;
use c_lex::punctuator::Punctuator;
use c_lex::token::Token;
use c_parse_expr::refusal::ParseErr;
use c_parse_type::front::after;
use c_syntax::build::{break_of, continue_of, evaluate_of, leave_of, return_of};
use c_syntax::expression::Expr;
use c_syntax::statement::{ForInitialiser, Stmt};
use std::alloc::Global;

/// What is before the first of the statements in a statement, which is no block.
#[derive(Drop)]
pub enum Head {
    If {
        at: u64,
        condition: Expr,
    },
    While {
        at: u64,
        condition: Expr,
    },
    Do,
    For {
        at: u64,
        first: ForInitialiser,
        condition: Option<Expr>,
        next: Option<Expr>,
    },
}

/// How a statement begins.
#[derive(Drop)]
pub enum Opening {
    /// No other is in it: this is all of it.
    Whole(Stmt),
    /// A block, with its brace.
    Block,
    /// `__try`, with its block's brace.
    Try,
    /// A statement follows.
    Head(Head),
}

/// The expression statement at the front, or `;` alone (C11, 6.8.3).
fn evaluate<'a>(
    alloc: Global,
    text: &[u8],
    room: u64,
    left: Remaining,
    tokens: &'a [Token],
) -> Result<(Opening, Remaining, &'a [Token]), ParseErr>
    ensures found { IfOk result (λ x. Opens text.now room left x.1 x.0 tokens.now x.2.now) }
    ensures refused { IfErr result (λ e. RefusesEvaluation e room left text.now tokens.now) }
{
    let (expr, rest) = optional(alloc, text, room, Punctuator::Semicolon, tokens)?;
    Ok((Opening::Whole(evaluate_of(expr)), left, rest))
}

/// What follows `return` (C11, 6.8.6.4).
fn returning<'a>(
    alloc: Global,
    text: &[u8],
    room: u64,
    left: Remaining,
    at: u64,
    tokens: &'a [Token],
) -> Result<(Opening, Remaining, &'a [Token]), ParseErr>
    ensures found { IfOk result (λ x.
        OpensAfter keywords.Return at text.now room left x.1 x.0 tokens.now x.2.now) }
    ensures refused { IfErr result (λ e.
        RefusesAfter keywords.Return at e room left text.now tokens.now) }
{
    let (value, rest) = optional(alloc, text, room, Punctuator::Semicolon, tokens)?;
    Ok((Opening::Whole(return_of(at, value)), left, rest))
}

/// What follows `break` (C11, 6.8.6.3).
fn breaking<'a>(
    text: &[u8],
    room: u64,
    left: Remaining,
    at: u64,
    tokens: &'a [Token],
) -> Result<(Opening, Remaining, &'a [Token]), ParseErr>
    ensures found { IfOk result (λ x.
        OpensAfter keywords.Break at text.now room left x.1 x.0 tokens.now x.2.now) }
    ensures refused { IfErr result (λ e.
        RefusesAfter keywords.Break at e room left text.now tokens.now) }
{
    let rest = expect(text, Punctuator::Semicolon, tokens)?;
    Ok((Opening::Whole(break_of(at)), left, rest))
}

/// What follows `continue` (C11, 6.8.6.2).
fn continuing<'a>(
    text: &[u8],
    room: u64,
    left: Remaining,
    at: u64,
    tokens: &'a [Token],
) -> Result<(Opening, Remaining, &'a [Token]), ParseErr>
    ensures found { IfOk result (λ x.
        OpensAfter keywords.Continue at text.now room left x.1 x.0 tokens.now x.2.now) }
    ensures refused { IfErr result (λ e.
        RefusesAfter keywords.Continue at e room left text.now tokens.now) }
{
    let rest = expect(text, Punctuator::Semicolon, tokens)?;
    Ok((Opening::Whole(continue_of(at)), left, rest))
}

/// What follows `__leave` (Microsoft C reference, "try-finally statement").
fn leaving<'a>(
    text: &[u8],
    room: u64,
    left: Remaining,
    at: u64,
    tokens: &'a [Token],
) -> Result<(Opening, Remaining, &'a [Token]), ParseErr>
    ensures found { IfOk result (λ x.
        OpensAfter keywords.Leave at text.now room left x.1 x.0 tokens.now x.2.now) }
    ensures refused { IfErr result (λ e.
        RefusesAfter keywords.Leave at e room left text.now tokens.now) }
{
    let rest = expect(text, Punctuator::Semicolon, tokens)?;
    Ok((Opening::Whole(leave_of(at)), left, rest))
}

/// What follows `if`: the condition (C11, 6.8.4.1).
fn if_head<'a>(
    alloc: Global,
    text: &[u8],
    room: u64,
    left: Remaining,
    at: u64,
    tokens: &'a [Token],
) -> Result<(Opening, Remaining, &'a [Token]), ParseErr>
    ensures found { IfOk result (λ x.
        OpensAfter keywords.If at text.now room left x.1 x.0 tokens.now x.2.now) }
    ensures refused { IfErr result (λ e.
        RefusesAfter keywords.If at e room left text.now tokens.now) }
{
    if room == 0 {
        return Err(ParseErr::TooDeep { at });
    }
    let (condition, rest) = condition(alloc, text, tokens)?;
    Ok((Opening::Head(Head::If { at, condition }), left, rest))
}

/// What follows `while`: the condition (C11, 6.8.5.1).
fn while_head<'a>(
    alloc: Global,
    text: &[u8],
    room: u64,
    left: Remaining,
    at: u64,
    tokens: &'a [Token],
) -> Result<(Opening, Remaining, &'a [Token]), ParseErr>
    ensures found { IfOk result (λ x.
        OpensAfter keywords.While at text.now room left x.1 x.0 tokens.now x.2.now) }
    ensures refused { IfErr result (λ e.
        RefusesAfter keywords.While at e room left text.now tokens.now) }
{
    if room == 0 {
        return Err(ParseErr::TooDeep { at });
    }
    let (condition, rest) = condition(alloc, text, tokens)?;
    Ok((Opening::Head(Head::While { at, condition }), left, rest))
}

/// What follows `do`, up to the statement (C11, 6.8.5.2).
fn do_head<'a>(
    text: &[u8],
    room: u64,
    left: Remaining,
    at: u64,
    tokens: &'a [Token],
) -> Result<(Opening, Remaining, &'a [Token]), ParseErr>
    ensures found { IfOk result (λ x.
        OpensAfter keywords.Do at text.now room left x.1 x.0 tokens.now x.2.now) }
    ensures refused { IfErr result (λ e.
        RefusesAfter keywords.Do at e room left text.now tokens.now) }
{
    if room == 0 {
        return Err(ParseErr::TooDeep { at });
    }
    Ok((Opening::Head(Head::Do), left, tokens))
}

/// What follows `for`: in parentheses a declaration or an expression, a condition and an
/// expression, of which each may be missing (C11, 6.8.5.3).
fn for_head<'a>(
    alloc: Global,
    text: &[u8],
    room: u64,
    left: Remaining,
    at: u64,
    tokens: &'a [Token],
) -> Result<(Opening, Remaining, &'a [Token]), ParseErr>
    ensures found { IfOk result (λ x.
        OpensAfter keywords.For at text.now room left x.1 x.0 tokens.now x.2.now) }
    ensures refused { IfErr result (λ e.
        RefusesAfter keywords.For at e room left text.now tokens.now) }
{
    if room == 0 {
        return Err(ParseErr::TooDeep { at });
    }
    let following = expect(text, Punctuator::OpenParenthesis, tokens)?;
    let (first, left, following) = for_initialiser(alloc, text, left, following)?;
    match optional(alloc, text, 1, Punctuator::Semicolon, following) {
        Err(refusal) => {
            drop(first);
            Err(refusal)
        }
        Ok((condition, following)) => {
            match optional(alloc, text, 1, Punctuator::CloseParenthesis, following) {
                Err(refusal) => {
                    drop(first);
                    drop(condition);
                    Err(refusal)
                }
                Ok((next, rest)) => {
                    let head = Head::For {
                        at,
                        first,
                        condition,
                        next,
                    };
                    Ok((Opening::Head(head), left, rest))
                }
            }
        }
    }
}

/// What follows `__try`: the brace of its block (Microsoft C reference, "try-except statement" and
/// "try-finally statement"). Where no statement may be inside and no block may have a number,
/// neither continues.
fn try_head<'a>(
    text: &[u8],
    room: u64,
    left: Remaining,
    at: u64,
    tokens: &'a [Token],
) -> Result<(Opening, Remaining, &'a [Token]), ParseErr>
    ensures found { IfOk result (λ x.
        OpensAfter keywords.Try at text.now room left x.1 x.0 tokens.now x.2.now) }
    ensures refused { IfErr result (λ e.
        RefusesAfter keywords.Try at e room left text.now tokens.now) }
{
    if room == 0 && left.funclets == 0 {
        return Err(too_many_funclets(at));
    }
    let rest = expect(text, Punctuator::OpenBrace, tokens)?;
    Ok((Opening::Try, left, rest))
}

/// How the statement at the front begins, whose first token is this keyword.
fn by_keyword<'a>(
    alloc: Global,
    text: &[u8],
    room: u64,
    left: Remaining,
    keyword: Keyword,
    at: u64,
    following: &'a [Token],
    tokens: &'a [Token],
) -> Result<(Opening, Remaining, &'a [Token]), ParseErr>
    requires { IsKeyword keyword at tokens.now following.now }
    ensures found { IfOk result (λ x. Opens text.now room left x.1 x.0 tokens.now x.2.now) }
    ensures refused { IfErr result (λ e. RefusesStatement e room left text.now tokens.now) }
{
    match keyword {
        Keyword::If => if_head(alloc, text, room, left, at, following),
        Keyword::While => while_head(alloc, text, room, left, at, following),
        Keyword::Do => do_head(text, room, left, at, following),
        Keyword::For => for_head(alloc, text, room, left, at, following),
        Keyword::Try => try_head(text, room, left, at, following),
        Keyword::Return => returning(alloc, text, room, left, at, following),
        Keyword::Break => breaking(text, room, left, at, following),
        Keyword::Continue => continuing(text, room, left, at, following),
        Keyword::Leave => leaving(text, room, left, at, following),
        _ => evaluate(alloc, text, room, left, tokens),
    }
}

/// How the statement at the front begins, what is left of the counts after that, and what follows
/// it. At most `room` statements are around each of the statement's parts.
pub fn read_opening<'a>(
    alloc: Global,
    text: &[u8],
    room: u64,
    left: Remaining,
    tokens: &'a [Token],
) -> Result<(Opening, Remaining, &'a [Token]), ParseErr>
    ensures found { IfOk result (λ x. Opens text.now room left x.1 x.0 tokens.now x.2.now) }
    ensures refused { IfErr result (λ e. RefusesStatement e room left text.now tokens.now) }
{
    if let Some(inner) = after(Punctuator::OpenBrace, tokens) {
        return Ok((Opening::Block, left, inner));
    }
    match keyword_at(tokens) {
        Some((keyword, at, following)) => {
            by_keyword(alloc, text, room, left, keyword, at, following, tokens)
        }
        None => evaluate(alloc, text, room, left, tokens),
    }
}
