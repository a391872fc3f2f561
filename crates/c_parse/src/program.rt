//! Whole programs.

ghost use Rattle.std.specs.Prelude.{◌≡◌, ◌≤◌, List, length, IfOk, IfErr, MatchResult, map};
ghost use Rattle.c_lex.specs.Text.{IsTokens};
ghost use Rattle.c_lex.specs.declared.punctuator.Punctuator.TheVariants as punctuators;
ghost use Rattle.c_syntax.specs.Faults as faults;
ghost use Rattle.c_syntax.specs.Limits.{Within};
ghost use Rattle.c_syntax.specs.Program as trees;
ghost use Rattle.c_syntax.specs.Programs.{IsExternalDeclaration, IsProgram};
ghost use Rattle.c_syntax.specs.Tokens.{HasPunctuator};
ghost use Rattle.c_syntax.specs.declared.limit.Count.TheVariants as counts;
ghost use Rattle.c_parse_expr.specs.declared.refusal.ParseErr.TheVariants.{TooMany, Memory};
ghost use Rattle.c_parse_expr.specs.Refusals.{IsPlacedRefusal, ParserRefuses};
ghost use Rattle.c_parse.specs.Bounds.{IsBounded};
ghost use Rattle.c_parse.specs.Counts.{Taken};
ghost use Rattle.c_syntax.specs.Nodes.{nodes_of};
ghost use Rattle.c_parse.specs.Parts.{IsDeclarationHead, NoHead, HasHead};
ghost use Rattle.c_parse.specs.Refused.{RefusesExternalDeclaration};

use crate::counts::Counts;
use crate::functions::tail;
use crate::globals::globals;
use c_lex::punctuator::Punctuator;
use c_lex::token::Token;
use c_parse_atom::operands::name;
use c_parse_expr::refusal::{ParseErr, place, unexpected};
use c_parse_type::front::after;
use c_parse_type::specifiers::{base, stars};
use c_syntax::declaration::ExternalDeclaration;
use c_syntax::expression::{Base, CType, Identifier};
use c_syntax::limit::{Count, MOST_FUNCLETS, MOST_FUNCTIONS, MOST_GLOBALS};
use std::alloc::Global;

/// A program. It is within the limits, and has no more nodes than its text has bytes.
#[derive(Drop)]
pub struct TranslationUnit {
    /// Its external declarations, in their order.
    pub external_declarations: Vec<ExternalDeclaration>,
    /// How many bytes its text has.
    pub length: u64,
    ghost bounded: { ∥ IsBounded length
        (map trees.external_declaration external_declarations.items) ∥₁ },
}

/// The refusal of the first token, with which the program has one function too many.
fn too_many_functions(text: &[u8], tokens: &[Token]) -> ParseErr
    ensures { result ≡ TooMany (faults.place text.now tokens.now) counts.Functions }
{
    ParseErr::TooMany {
        at: place(text, tokens),
        what: Count::Functions,
    }
}

/// What an external declaration begins with: a base, stars and a name.
#[derive(Clone, Copy)]
struct Heading<'a> {
    base: Base,
    /// What follows the base.
    declarators: &'a [Token],
    pointers: u64,
    name: Identifier,
    /// What follows the name.
    rest: &'a [Token],
}

/// The head of the external declaration at the front.
fn head<'a>(text: &[u8], tokens: &'a [Token]) -> Result<Heading<'a>, ParseErr>
    ensures found { IfOk result (λ h.
        IsDeclarationHead h.base h.pointers h.name tokens.now h.declarators.now h.rest.now) }
    ensures refused { IfErr result (λ e. IsPlacedRefusal e NoHead HasHead text.now tokens.now) }
{
    match base(tokens) {
        Some((base, declarators)) => {
            let (pointers, declarator) = stars(declarators);
            match name(declarator) {
                Some((name, rest)) => {
                    let head = Heading {
                        base,
                        declarators,
                        pointers,
                        name,
                        rest,
                    };
                    Ok(head)
                }
                None => Err(unexpected(text, declarator)),
            }
        }
        None => Err(unexpected(text, tokens)),
    }
}

/// The function whose head is at the front (C11, 6.9.1), the counts after it, and what follows it.
/// `inner` follows the parenthesis after its name.
fn function<'a>(
    alloc: Global,
    text: &[u8],
    counts: Counts,
    head: Heading<'a>,
    tokens: &'a [Token],
    inner: &'a [Token],
) -> Result<(ExternalDeclaration, Counts, &'a [Token]), ParseErr>
    requires bytes { counts.bytes ≤ MOST_GLOBALS }
    requires head { IsDeclarationHead head.base head.pointers head.name tokens.now
        head.declarators.now head.rest.now }
    requires parenthesis { HasPunctuator punctuators.OpenParenthesis head.rest.now inner.now }
    ensures found { IfOk result (λ x.
        IsExternalDeclaration text.now (trees.external_declaration x.0) tokens.now x.2.now) }
    ensures taken { IfOk result (λ x. Taken text.now counts x.1 (trees.external_declaration x.0)) }
    ensures refused { IfErr result (λ e. RefusesExternalDeclaration e counts text.now tokens.now) }
{
    if counts.functions == 0 {
        return Err(too_many_functions(text, head.rest));
    }
    let tail = tail(alloc, text, counts.funclets, inner)?;
    let counts = Counts {
        functions: counts.functions - 1,
        bytes: counts.bytes,
        funclets: tail.funclets,
    };
    let (parameters, body, rest) = (tail.parameters, tail.body, tail.rest);
    let function = ExternalDeclaration::Function {
        returns: CType {
            base: head.base,
            pointers: head.pointers,
        },
        name: head.name,
        parameters,
        body,
    };
    Ok((function, counts, rest))
}

/// The external declaration at the front (C11, 6.9), the counts after it, and what follows it.
fn external_declaration<'a>(
    alloc: Global,
    text: &[u8],
    counts: Counts,
    tokens: &'a [Token],
) -> Result<(ExternalDeclaration, Counts, &'a [Token]), ParseErr>
    requires { counts.bytes ≤ MOST_GLOBALS }
    ensures found { IfOk result (λ x.
        IsExternalDeclaration text.now (trees.external_declaration x.0) tokens.now x.2.now) }
    ensures taken { IfOk result (λ x. Taken text.now counts x.1 (trees.external_declaration x.0)) }
    ensures refused { IfErr result (λ e. RefusesExternalDeclaration e counts text.now tokens.now) }
{
    let head = head(text, tokens)?;
    let (base, declarators) = (head.base, head.declarators);
    match after(Punctuator::OpenParenthesis, head.rest) {
        Some(inner) => function(alloc, text, counts, head, tokens, inner),
        None => {
            let (globals, bytes, rest) = globals(alloc, text, base, counts.bytes, declarators)?;
            let declaration = ExternalDeclaration::Globals { base, globals };
            let counts = Counts {
                functions: counts.functions,
                bytes,
                funclets: counts.funclets,
            };
            Ok((declaration, counts, rest))
        }
    }
}

/// The program that all tokens are (C11, 6.9), within the limits.
pub fn parse(alloc: Global, text: &[u8], tokens: &[Token]) -> Result<TranslationUnit, ParseErr>
    // The tokens are the text's.
    requires tokens { IsTokens text.now tokens.now }
    // They are the program.
    ensures found { IfOk result (λ p. IsProgram text.now
        (map trees.external_declaration p.external_declarations.items) tokens.now) }
    // It is within the limits.
    ensures within { IfOk result (λ p.
        Within text.now (map trees.external_declaration p.external_declarations.items)) }
    // It has no more nodes than there are tokens, and so than the text has bytes.
    ensures few { IfOk result (λ p. nodes_of
        (map trees.external_declaration p.external_declarations.items) ≤ length tokens.now) }
    // It keeps the text's length.
    ensures long { IfOk result (λ p. p.length ≡ length text.now) }
    // A program within the limits is the one that is read, unless memory runs out.
    ensures only { (xs : List trees.ExternalDeclaration) → IsProgram text.now xs tokens.now
        → Within text.now xs → MatchResult result (λ p.
        map trees.external_declaration p.external_declarations.items ≡ xs) (λ e. e ≡ Memory) }
    // A refusal is at the first fault, and names the first limit that excludes all programs there.
    ensures refused { IfErr result (λ e. ParserRefuses e text.now tokens.now) }
{
    let mut external_declarations = Vec::new(alloc);
    let mut counts = Counts {
        functions: MOST_FUNCTIONS,
        bytes: 0,
        funclets: MOST_FUNCLETS,
    };
    let mut rest = tokens;
    while !rest.is_empty() {
        let (next, less, following) = external_declaration(alloc, text, counts, rest)?;
        external_declarations.push(next)?;
        counts = less;
        rest = following;
    }
    Ok(TranslationUnit {
        external_declarations,
        length: text.len() as u64,
    })
}
