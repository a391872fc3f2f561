//! Functions.

ghost use Rattle.std.specs.Prelude.{◌≡◌, ◌≤◌, ◌+◌, List, length, map, IfOk, IfErr, IfSome, IfNone};
ghost use Rattle.c_lex.specs.declared.token.Token.{Token};
ghost use Rattle.c_syntax.specs.Faults as faults;
ghost use Rattle.c_syntax.specs.Limits as limits;
ghost use Rattle.c_syntax.specs.Programs.{IsParameter, AreParameters};
ghost use Rattle.c_syntax.specs.Statement.{statement, statements};
ghost use Rattle.c_syntax.specs.declared.limit.Count.TheVariants as counts;
ghost use Rattle.c_parse_expr.specs.declared.refusal.ParseErr.TheVariants.{TooMany};
ghost use Rattle.c_parse_expr.specs.Refusals.{IsPlacedRefusal};
ghost use Rattle.c_parse.specs.Parts.{NoParameter, HasParameter, IsVoid, NoListed, HasListed, NoParameters, HasParameters, IsTail};
ghost use Rattle.c_parse.specs.Refused.{RefusesTail};

use c_lex::keyword::Keyword;
use c_lex::punctuator::Punctuator;
use c_lex::token::Token;
use c_parse_atom::operands::name;
use c_parse_expr::refusal::{ParseErr, place, unexpected};
use c_parse_stmt::parts::{expect, word};
use c_parse_stmt::remaining::Remaining;
use c_parse_stmt::statements::items;
use c_parse_type::front::after;
use c_parse_type::specifiers::c_type;
use c_syntax::declaration::Parameter;
use c_syntax::limit::{Count, MOST_ARRAY_BYTES, MOST_LOCALS, MOST_PARAMETERS, MOST_STATEMENTS};
use c_syntax::statement::Stmt;
use std::alloc::Global;

/// The refusal of the first token, with which a function has one parameter too many.
fn too_many_parameters(text: &[u8], tokens: &[Token]) -> ParseErr
    ensures { result ≡ TooMany (faults.place text.now tokens.now) counts.Parameters }
{
    ParseErr::TooMany {
        at: place(text, tokens),
        what: Count::Parameters,
    }
}

/// The parameter at the front, and what follows it.
fn parameter<'a>(text: &[u8], tokens: &'a [Token]) -> Result<(Parameter, &'a [Token]), ParseErr>
    ensures found { IfOk result (λ x. IsParameter x.0 tokens.now x.1.now) }
    ensures refused { IfErr result (λ e.
        IsPlacedRefusal e NoParameter HasParameter text.now tokens.now) }
{
    match c_type(tokens) {
        Some((of, following)) => match name(following) {
            Some((name, rest)) => Ok((Parameter { of, name }, rest)),
            None => Err(unexpected(text, following)),
        },
        None => Err(unexpected(text, tokens)),
    }
}

/// What follows `void` and the parenthesis, if both are at the front.
fn after_void(tokens: &[Token]) -> Option<&[Token]>
    ensures found { IfSome result (λ rest. IsVoid tokens.now rest.now) }
    ensures none { IfNone result ((rest : List Token) → IsVoid tokens.now rest → ⊥) }
{
    match word(Keyword::Void, tokens) {
        Some((_, following)) => after(Punctuator::CloseParenthesis, following),
        None => None,
    }
}

/// One parameter at least and the parenthesis, and what follows it.
fn listed<'a>(
    alloc: Global,
    text: &[u8],
    tokens: &'a [Token],
) -> Result<(Vec<Parameter>, &'a [Token]), ParseErr>
    ensures found { IfOk result (λ x. AreParameters x.0.items tokens.now x.1.now) }
    ensures few { IfOk result (λ x. length x.0.items ≤ MOST_PARAMETERS) }
    ensures refused { IfErr result (λ e. IsPlacedRefusal e NoListed HasListed text.now tokens.now) }
{
    let (first, mut rest) = parameter(text, tokens)?;
    let mut left = MOST_PARAMETERS - 1;
    let mut found = Vec::new(alloc);
    found.push(first)?;
    while let Some(following) = after(Punctuator::Comma, rest) {
        if left == 0 {
            return Err(too_many_parameters(text, rest));
        }
        let (next, after) = parameter(text, following)?;
        found.push(next)?;
        left -= 1;
        rest = after;
    }
    let end = expect(text, Punctuator::CloseParenthesis, rest)?;
    Ok((found, end))
}

/// The parameters of a function after the parenthesis (C11, 6.7.6.3), at most `MOST_PARAMETERS`,
/// and what follows the other parenthesis. Nothing and `void` mean none.
fn parameters<'a>(
    alloc: Global,
    text: &[u8],
    tokens: &'a [Token],
) -> Result<(Vec<Parameter>, &'a [Token]), ParseErr>
    ensures found { IfOk result (λ x. AreParameters x.0.items tokens.now x.1.now) }
    ensures few { IfOk result (λ x. length x.0.items ≤ MOST_PARAMETERS) }
    ensures refused { IfErr result (λ e.
        IsPlacedRefusal e NoParameters HasParameters text.now tokens.now) }
{
    if let Some(rest) = after(Punctuator::CloseParenthesis, tokens) {
        return Ok((Vec::new(alloc), rest));
    }
    if let Some(rest) = after_void(tokens) {
        return Ok((Vec::new(alloc), rest));
    }
    listed(alloc, text, tokens)
}

/// What follows the name of a function and its parenthesis.
#[derive(Drop)]
pub struct FunctionTail<'a> {
    /// The parameters.
    pub parameters: Vec<Parameter>,
    /// The items of the body.
    pub body: Vec<Stmt>,
    /// How many funclets the program may still have.
    pub funclets: u64,
    /// What follows the body.
    pub rest: &'a [Token],
}

/// The parameters and the body of a function after its name and the parenthesis (C11, 6.9.1). The
/// program may have so many funclets.
pub fn tail<'a>(
    alloc: Global,
    text: &[u8],
    funclets: u64,
    tokens: &'a [Token],
) -> Result<FunctionTail<'a>, ParseErr>
    ensures found { IfOk result (λ x.
        IsTail text.now x.parameters.items (statements (map statement x.body.items)) tokens.now
        x.rest.now) }
    ensures within { IfOk result (λ x.
        limits.FunctionWithinFirst limits.every_limit x.parameters.items
        (statements (map statement x.body.items))) }
    ensures taken { IfOk result (λ x. x.funclets
        + length (limits.funclets_of_all text.now (statements (map statement x.body.items)))
        ≡ funclets) }
    ensures refused { IfErr result (λ e. RefusesTail e funclets text.now tokens.now) }
{
    let (parameters, following) = parameters(alloc, text, tokens)?;
    let inner = expect(text, Punctuator::OpenBrace, following)?;
    let left = Remaining {
        locals: MOST_LOCALS,
        bytes: MOST_ARRAY_BYTES,
        funclets,
    };
    let (body, left, rest) = items(alloc, text, MOST_STATEMENTS, left, inner)?;
    let funclets = left.funclets;
    Ok(FunctionTail {
        parameters,
        body,
        funclets,
        rest,
    })
}
