//! How statements continue after the first statement or block that is in them.

ghost use Rattle.std.specs.Prelude.{◌≡◌, ◌≤◌, ◌+◌, IfOk, IfErr, map};
ghost use Rattle.c_lex.specs.declared.keyword.Keyword.TheVariants as keywords;
ghost use Rattle.c_lex.specs.declared.token.Token.{Token};
ghost use Rattle.c_syntax.specs.Statement.{statement, statements};
ghost use Rattle.c_parse_stmt.specs.declared.remaining.Remaining.{Remaining};
ghost use Rattle.c_parse_stmt.specs.declared.openings.Head.TheVariants.{Do};
ghost use Rattle.c_parse_stmt.specs.Endings.{Ends, ClauseIsTaken, ContinuesAfterKeyword, with_clause};
ghost use Rattle.c_parse_stmt.specs.Refused.{RefusesEnd, RefusesClause, RefusesClauseAfter};

use crate::build::{do_of, for_of, if_of, while_of};
use crate::filters::{filter, too_many_funclets};
use crate::openings::Head;
use crate::parts::{condition, expect, word};
use crate::remaining::Remaining;
use c_lex::keyword::Keyword;
use c_lex::punctuator::Punctuator;
use c_lex::token::Token;
use c_parse_expr::refusal::{ParseErr, unexpected};
use c_syntax::build::{except_of, finally_of};
use c_syntax::expression::Expr;
use c_syntax::statement::Stmt;
use std::alloc::Global;

/// How a statement continues after the first statement in it.
#[derive(Drop)]
pub enum Ending {
    /// This is all of it.
    Whole(Stmt),
    /// An `else`, and another statement follows.
    Else {
        at: u64,
        condition: Expr,
        then: Stmt,
    },
}

/// How a `__try` statement continues after its first block, up to the brace of the second.
#[derive(Drop)]
pub enum Clause {
    Except { at: u64, filter: Expr },
    Finally { at: u64 },
}

/// What follows the statement of a `do`: `while`, the condition and `;` (C11, 6.8.5.2).
fn do_end<'a>(
    alloc: Global,
    text: &[u8],
    body: Stmt,
    tokens: &'a [Token],
) -> Result<(Ending, &'a [Token]), ParseErr>
    ensures found { IfOk result (λ x. Ends text.now Do (statement body) x.0 tokens.now x.1.now) }
    ensures refused { IfErr result (λ e. RefusesEnd Do (statement body) e text.now tokens.now) }
{
    match word(Keyword::While, tokens) {
        Some((at, following)) => match condition(alloc, text, following) {
            Err(refusal) => {
                drop(body);
                Err(refusal)
            }
            Ok((condition, following)) => match expect(text, Punctuator::Semicolon, following) {
                Err(refusal) => {
                    drop(body);
                    drop(condition);
                    Err(refusal)
                }
                Ok(rest) => {
                    let made = do_of(alloc, body, at, condition)?;
                    Ok((Ending::Whole(made), rest))
                }
            },
        },
        None => {
            drop(body);
            Err(unexpected(text, tokens))
        }
    }
}

/// How the statement with this head and this first statement continues, and what follows that. An
/// `else` belongs to the nearest `if` (C11, 6.8.4.1).
pub fn read_ending<'a>(
    alloc: Global,
    text: &[u8],
    head: Head,
    inner: Stmt,
    tokens: &'a [Token],
) -> Result<(Ending, &'a [Token]), ParseErr>
    ensures found { IfOk result (λ x. Ends text.now head (statement inner) x.0 tokens.now x.1.now) }
    ensures refused { IfErr result (λ e. RefusesEnd head (statement inner) e text.now tokens.now) }
{
    match head {
        Head::If { at, condition } => match word(Keyword::Else, tokens) {
            Some((_, rest)) => {
                let then = inner;
                let ending = Ending::Else {
                    at,
                    condition,
                    then,
                };
                Ok((ending, rest))
            }
            None => {
                let made = if_of(alloc, at, condition, inner)?;
                Ok((Ending::Whole(made), tokens))
            }
        },
        Head::While { at, condition } => {
            let made = while_of(alloc, at, condition, inner)?;
            Ok((Ending::Whole(made), tokens))
        }
        Head::Do => do_end(alloc, text, inner, tokens),
        Head::For {
            at,
            first,
            condition,
            next,
        } => {
            let made = for_of(alloc, at, first, condition, next, inner)?;
            Ok((Ending::Whole(made), tokens))
        }
    }
}

/// What follows `__except`: its filter in parentheses, and the brace of its block.
fn except_clause<'a>(
    alloc: Global,
    text: &[u8],
    room: u64,
    left: Remaining,
    at: u64,
    tokens: &'a [Token],
) -> Result<(Clause, Remaining, &'a [Token]), ParseErr>
    requires { 1 ≤ room + left.funclets }
    ensures found { IfOk result (λ x.
        ContinuesAfterKeyword keywords.Except at text.now room left x.1 x.0 tokens.now x.2.now) }
    ensures refused { IfErr result (λ e.
        RefusesClauseAfter keywords.Except at e room left text.now tokens.now) }
{
    if room == 0 {
        return Err(ParseErr::TooDeep { at });
    }
    let (filter, funclets, following) = filter(alloc, text, left.funclets, tokens)?;
    match expect(text, Punctuator::OpenBrace, following) {
        Ok(rest) => {
            let after = Remaining {
                locals: left.locals,
                bytes: left.bytes,
                funclets,
            };
            Ok((Clause::Except { at, filter }, after, rest))
        }
        Err(refusal) => {
            drop(filter);
            Err(refusal)
        }
    }
}

/// What follows `__finally`: the brace of its block.
fn finally_clause<'a>(
    text: &[u8],
    room: u64,
    left: Remaining,
    at: u64,
    tokens: &'a [Token],
) -> Result<(Clause, Remaining, &'a [Token]), ParseErr>
    requires { 1 ≤ room + left.funclets }
    ensures found { IfOk result (λ x.
        ContinuesAfterKeyword keywords.Finally at text.now room left x.1 x.0 tokens.now x.2.now) }
    ensures refused { IfErr result (λ e.
        RefusesClauseAfter keywords.Finally at e room left text.now tokens.now) }
{
    if left.funclets == 0 {
        return Err(too_many_funclets(at));
    }
    let rest = expect(text, Punctuator::OpenBrace, tokens)?;
    let after = Remaining {
        locals: left.locals,
        bytes: left.bytes,
        funclets: left.funclets - 1,
    };
    Ok((Clause::Finally { at }, after, rest))
}

/// What follows the first block of a `__try`: `__except` with its filter in parentheses, or
/// `__finally`, and the brace of the second block (Microsoft C reference, "try-except statement"
/// and "try-finally statement").
pub fn read_clause<'a>(
    alloc: Global,
    text: &[u8],
    room: u64,
    left: Remaining,
    tokens: &'a [Token],
) -> Result<(Clause, Remaining, &'a [Token]), ParseErr>
    requires { 1 ≤ room + left.funclets }
    ensures found { IfOk result (λ x. ClauseIsTaken text.now room left x.1 x.0 tokens.now x.2.now) }
    ensures refused { IfErr result (λ e. RefusesClause e room left text.now tokens.now) }
{
    if let Some((at, following)) = word(Keyword::Except, tokens) {
        return except_clause(alloc, text, room, left, at, following);
    }
    match word(Keyword::Finally, tokens) {
        Some((at, following)) => finally_clause(text, room, left, at, following),
        None => Err(unexpected(text, tokens)),
    }
}

/// The `__try` statement of these blocks.
pub fn try_of(body: Vec<Stmt>, clause: Clause, last: Vec<Stmt>) -> Stmt
    ensures { statement result ≡ with_clause (statements (map statement body.items)) clause
        (statements (map statement last.items)) }
{
    match clause {
        Clause::Except { at, filter } => except_of(body, at, filter, last),
        Clause::Finally { at } => finally_of(body, at, last),
    }
}
