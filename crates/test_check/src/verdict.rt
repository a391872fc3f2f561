//! What is reported of a text, and tables of texts.
//!
//! A table is one text. Each line after its first is a row, `TEXT => VERDICT`: a program's text,
//! and what is reported of it: `accepted`, or the rule that it breaks and the place.

ghost use Rattle.c_lex.specs.Text.{IsTokens};

use c_check::check::{CheckErr, check};
use c_checked::checked::Checked;
use c_lex::lexing::lex;
use c_lex::token::Token;
use c_parse::program::parse;
use std::alloc::{AllocError, Global};
use std::process::Abort;
use std::test::Fail;

/// What refuses a program, if it isn't accepted.
fn refusal_of(checked: Result<Checked, CheckErr>) -> Option<CheckErr> {
    match checked {
        Ok(accepted) => {
            drop(accepted);
            None
        }
        Err(refusal) => Some(refusal),
    }
}

/// What is reported of a text with these tokens.
fn report(alloc: Global, text: &[u8], tokens: &[Token]) -> Result<String, AllocError>
    requires { IsTokens text.now tokens.now }
{
    match parse(alloc, text, tokens) {
        Ok(program) => {
            let refusal = refusal_of(check(alloc, text, &program.external_declarations));
            drop(program);
            match refusal {
                None => String::from_str(alloc, "accepted"),
                Some(CheckErr::Broken(broken)) => {
                    format!(in alloc; "{:?} {}", broken.fault, broken.at)
                }
                Some(CheckErr::Memory) => String::from_str(alloc, "no memory"),
            }
        }
        Err(_) => String::from_str(alloc, "no program"),
    }
}

/// What is reported of a text.
fn verdict_of(alloc: Global, text: &[u8]) -> Result<String, AllocError> {
    match lex(alloc, text) {
        Ok(tokens) => report(alloc, text, &tokens),
        Err(_) => String::from_str(alloc, "no tokens"),
    }
}

/// Compares what is reported of a row's text with the row.
fn as_wanted(rt: &impl Abort, alloc: Global, row: &str) -> Result<(), Fail> {
    let Some((text, wanted)) = row.split_once(" => ") else {
        assert!(rt; false, "no row: {row}");
        return Ok(());
    };
    let told = verdict_of(alloc, text.as_bytes())?;
    assert_eq!(rt; told.as_str(), wanted, "of {text}");
    Ok(())
}

/// Compares what is reported of each text of some tables with its row.
pub fn all_as_wanted(rt: &impl Abort, alloc: Global, tables: &[&str]) -> Result<(), Fail> {
    for table in tables {
        for row in table.lines().skip(1) {
            as_wanted(rt, alloc, row)?;
        }
    }
    Ok(())
}
