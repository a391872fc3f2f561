//! From texts to accepted programs.

ghost use Rattle.std.specs.Prelude.{◌≡◌, IfOk, IfErr, map};
ghost use Rattle.c_checked.specs.Whole.{program};
ghost use Rattle.c_syntax.specs.Program.{external_declaration};
ghost use Rattle.c_text.specs.Texts.{IsProgramText, IsCheckedAs, TextIsRefused, lexical, syntactic};
ghost use Rattle.c_text.specs.Texts.{semantic};

use c_check::check::{CheckErr, check};
use c_checked::checked::Checked;
use c_lex::lexing::{LexErr, lex};
use c_parse::program::{TranslationUnit, parse};
use c_parse_expr::refusal::ParseErr;
use c_resolved::fault::Fault;
use std::alloc::Global;

/// Why a text isn't accepted.
#[derive(Clone, Copy, Debug, PartialEq, Eq)]
pub enum TextErr {
    /// It isn't made of tokens (C11, 6.4).
    Lex(LexErr),
    /// Its tokens are no program of C within the limits.
    Parse(ParseErr),
    /// Its program breaks this rule of names, types and jumps, the least of those that it breaks,
    /// at so many bytes from the text's begin.
    Check { at: u64, fault: Fault },
    /// No memory was left.
    Memory,
}

/// The program of a text, as it was read and as it was checked.
#[derive(Drop)]
pub struct Accepted {
    /// As it was read.
    pub program: TranslationUnit,
    /// As it was checked.
    pub checked: Checked,
}

/// The refusal of a text by its characters.
fn lexical(error: LexErr) -> TextErr
    ensures { result ≡ lexical error }
{
    match error {
        LexErr::Memory => TextErr::Memory,
        _ => TextErr::Lex(error),
    }
}

/// The refusal of a text by its tokens.
fn syntactic(error: ParseErr) -> TextErr
    ensures { result ≡ syntactic error }
{
    match error {
        ParseErr::Memory => TextErr::Memory,
        _ => TextErr::Parse(error),
    }
}

/// The refusal of a text by the rules of its program.
fn semantic(error: CheckErr) -> TextErr
    ensures { result ≡ semantic error }
{
    match error {
        CheckErr::Broken(broken) => TextErr::Check {
            at: broken.at,
            fault: broken.fault,
        },
        CheckErr::Memory => TextErr::Memory,
    }
}

/// The program within the limits that a text is.
fn read(alloc: Global, text: &[u8]) -> Result<TranslationUnit, TextErr>
    ensures found { IfOk result (λ p. IsProgramText text.now
        (map external_declaration p.external_declarations.items)) }
    ensures refused { IfErr result (λ e. TextIsRefused text.now e) }
{
    let tokens = match lex(alloc, text) {
        Ok(tokens) => tokens,
        Err(error) => return Err(lexical(error)),
    };
    match parse(alloc, text, &tokens) {
        Ok(program) => Ok(program),
        Err(error) => Err(syntactic(error)),
    }
}

/// The program of a text, where the text is made of tokens (C11, 6.4), its tokens are a program of
/// C within the limits (C11, 6.5 to 6.9) and the program breaks no rule of names, types and jumps.
/// A text that isn't accepted is refused by the first of these three that fails: at its first fault
/// of tokens, at its first fault of grammar, or at the least rule that its program breaks.
pub fn accept(alloc: Global, text: &[u8]) -> Result<Accepted, TextErr>
    ensures found { IfOk result (λ a. IsCheckedAs text.now
        (map external_declaration a.program.external_declarations.items) (program a.checked)) }
    ensures refused { IfErr result (λ e. TextIsRefused text.now e) }
{
    let program = match read(alloc, text) {
        Ok(program) => program,
        Err(error) => return Err(error),
    };
    match check(alloc, text, &program.external_declarations) {
        Ok(checked) => Ok(Accepted { program, checked }),
        Err(error) => Err(semantic(error)),
    }
}
