//! Statements, and what is in blocks.

ghost use Rattle.std.specs.Prelude.{◌≤◌, ◌<◌, ◌+◌, IfOk, IfErr, IfSome, IfNone, map};
ghost use Rattle.c_lex.specs.declared.token.Token.{Token};
ghost use Rattle.c_syntax.specs.Statement.{statement, statements};
ghost use Rattle.c_syntax.specs.Statements.{AreBlockItems};
ghost use Rattle.c_parse_type.specs.Bases.{NoBase};
ghost use Rattle.c_parse_stmt.specs.declared.remaining.Remaining.{Remaining};
ghost use Rattle.c_parse_stmt.specs.Openings.{ReadsAfterHead, ReadsAfterTry};
ghost use Rattle.c_parse_stmt.specs.Within.{AllTaken, IsStatementWithin, ReadsBlockItem};
ghost use Rattle.c_parse_stmt.specs.Refused.{RefusesStatement, RefusesBlockItem, RefusesBlockItems, RefusesAfterHead, RefusesAfterTry};

use crate::build::if_else_of;
use crate::endings::{Ending, read_clause, read_ending, try_of};
use crate::locals::declaration;
use crate::openings::{Head, Opening, read_opening};
use crate::parts::no_room_for_statement;
use crate::remaining::Remaining;
use c_lex::punctuator::Punctuator;
use c_lex::token::Token;
use c_parse_expr::refusal::ParseErr;
use c_parse_type::front::after;
use c_parse_type::specifiers::base;
use c_syntax::build::{block_of, declare};
use c_syntax::limit::MOST_STATEMENTS;
use c_syntax::statement::Stmt;
use std::alloc::Global;

/// The declaration at the front, what is left of the counts after it, and what follows it; nothing
/// where none is there, and a statement may.
fn declared<'a>(
    alloc: Global,
    text: &[u8],
    room: u64,
    left: Remaining,
    tokens: &'a [Token],
) -> Result<Option<(Stmt, Remaining, &'a [Token])>, ParseErr>
    ensures found { IfOk result (λ o. IfSome o (λ x.
        ReadsBlockItem text.now room left x.1 (statement x.0) tokens.now x.2.now)) }
    ensures room { IfOk result (λ o. IfNone o (1 ≤ room)) }
    ensures none { IfOk result (λ o. IfNone o (NoBase tokens.now)) }
    ensures refused { IfErr result (λ e. RefusesBlockItem e room left text.now tokens.now) }
{
    match base(tokens) {
        Some(_) => {
            let (found, left, rest) = declaration(alloc, text, room, left, tokens)?;
            Ok(Some((declare(found), left, rest)))
        }
        None => {
            if room == 0 {
                return Err(no_room_for_statement(text, tokens));
            }
            Ok(None)
        }
    }
}

/// What follows the head of a statement: the statement in it, and what continues after that, up to
/// a second one after an `else`.
#[cycle(nested)]
fn inside<'a>(
    alloc: Global,
    text: &[u8],
    room: u64,
    left: Remaining,
    head: Head,
    tokens: &'a [Token],
) -> Result<(Stmt, Remaining, &'a [Token]), ParseErr>
    requires some { 1 ≤ room }
    requires low { room < MOST_STATEMENTS }
    ensures found { IfOk result (λ x.
        ReadsAfterHead head text.now room left x.1 (statement x.0) tokens.now x.2.now) }
    ensures refused { IfErr result (λ e. RefusesAfterHead head e room left text.now tokens.now) }
{
    match statement(alloc, text, room - 1, left, tokens) {
        Err(refusal) => {
            drop(head);
            Err(refusal)
        }
        Ok((inner, left, following)) => {
            let (ending, following) = read_ending(alloc, text, head, inner, following)?;
            match ending {
                Ending::Whole(made) => Ok((made, left, following)),
                Ending::Else {
                    at,
                    condition,
                    then,
                } => match statement(alloc, text, room - 1, left, following) {
                    Err(refusal) => {
                        drop(condition);
                        drop(then);
                        Err(refusal)
                    }
                    Ok((otherwise, left, rest)) => {
                        let made = if_else_of(alloc, at, condition, then, otherwise)?;
                        Ok((made, left, rest))
                    }
                },
            }
        }
    }
}

/// What follows `__try` and a brace: the rest of the block, `__except` with its filter in
/// parentheses or `__finally`, and another block (Microsoft C reference, "try-except statement" and
/// "try-finally statement").
#[cycle(nested)]
fn try_statement<'a>(
    alloc: Global,
    text: &[u8],
    room: u64,
    left: Remaining,
    tokens: &'a [Token],
) -> Result<(Stmt, Remaining, &'a [Token]), ParseErr>
    requires some { 1 ≤ room + left.funclets }
    requires low { room < MOST_STATEMENTS }
    ensures found { IfOk result (λ x.
        ReadsAfterTry text.now room left x.1 (statement x.0) tokens.now x.2.now) }
    ensures refused { IfErr result (λ e. RefusesAfterTry e room left text.now tokens.now) }
{
    let (body, left, following) = items(alloc, text, room, left, tokens)?;
    let (clause, left, following) = read_clause(alloc, text, room, left, following)?;
    match items(alloc, text, room, left, following) {
        Err(refusal) => {
            drop(clause);
            Err(refusal)
        }
        Ok((last, left, rest)) => Ok((try_of(body, clause, last), left, rest)),
    }
}

/// The statement at the front as far as it goes (C11, 6.8), what is left of the counts after it,
/// and what follows it. At most `room` statements are around each of its parts.
#[cycle(nested)]
fn statement<'a>(
    alloc: Global,
    text: &[u8],
    room: u64,
    left: Remaining,
    tokens: &'a [Token],
) -> Result<(Stmt, Remaining, &'a [Token]), ParseErr>
    requires { room < MOST_STATEMENTS }
    ensures found { IfOk result (λ x.
        IsStatementWithin text.now room left x.1 (statement x.0) tokens.now x.2.now) }
    ensures refused { IfErr result (λ e. RefusesStatement e room left text.now tokens.now) }
{
    let (opening, left, following) = read_opening(alloc, text, room, left, tokens)?;
    match opening {
        Opening::Whole(found) => Ok((found, left, following)),
        Opening::Block => {
            let (found, left, rest) = items(alloc, text, room, left, following)?;
            Ok((block_of(found), left, rest))
        }
        Opening::Try => try_statement(alloc, text, room, left, following),
        Opening::Head(head) => inside(alloc, text, room, left, head, following),
    }
}

/// The statement or declaration of a block at the front, what is left of the counts after it, and
/// what follows it. At most `room` statements are around it and each expression in it.
#[cycle(nested)]
fn item<'a>(
    alloc: Global,
    text: &[u8],
    room: u64,
    left: Remaining,
    tokens: &'a [Token],
) -> Result<(Stmt, Remaining, &'a [Token]), ParseErr>
    requires { room ≤ MOST_STATEMENTS }
    ensures found { IfOk result (λ x.
        ReadsBlockItem text.now room left x.1 (statement x.0) tokens.now x.2.now) }
    ensures refused { IfErr result (λ e. RefusesBlockItem e room left text.now tokens.now) }
{
    match declared(alloc, text, room, left, tokens)? {
        Some(found) => Ok(found),
        None => statement(alloc, text, room - 1, left, tokens),
    }
}

/// The statements and declarations of a block up to its brace, what is left of the counts after
/// them, and what follows the brace. At most `room` statements are around each statement and each
/// expression in the block, and at most `MOST_EXPRESSIONS` expressions around each expression.
#[cycle(nested)]
pub fn items<'a>(
    alloc: Global,
    text: &[u8],
    room: u64,
    left: Remaining,
    tokens: &'a [Token],
) -> Result<(Vec<Stmt>, Remaining, &'a [Token]), ParseErr>
    requires { room ≤ MOST_STATEMENTS }
    ensures found { IfOk result (λ x.
        AreBlockItems text.now (statements (map statement x.0.items)) tokens.now x.2.now) }
    ensures taken { IfOk result (λ x.
        AllTaken text.now room left x.1 (statements (map statement x.0.items))) }
    ensures refused { IfErr result (λ e. RefusesBlockItems e room left text.now tokens.now) }
{
    let mut found = Vec::new(alloc);
    let mut left = left;
    let mut rest = tokens;
    loop {
        match after(Punctuator::CloseBrace, rest) {
            Some(end) => return Ok((found, left, end)),
            None => {
                let (next, less, following) = item(alloc, text, room, left, rest)?;
                found.push(next)?;
                left = less;
                rest = following;
            }
        }
    }
}
