//! Names, and what they mean.

ghost use Rattle.std.specs.Prelude.{◌≡◌, ◌++◌, OnOk, option_map};
ghost use Rattle.c_resolved.specs.Scopes.{spelled, same_bytes, meaning_in, built_ins};
ghost use Rattle.c_resolved.specs.Statements.{is_taken, with_name};
ghost use Rattle.c_expressions.specs.Views.{entity, built_in_functions, built_in_constants};
ghost use Rattle.c_expressions.specs.SymbolTables.{scopes_of, with_block};

use crate::symbol_table::SymbolTable;
use c_operations::built_in::BuiltIn;
use c_syntax::declaration::Parameter;
use c_syntax::expression::{CType, Identifier};
use std::alloc::AllocError;

/// What a name means.
#[derive(Clone, Copy, Drop)]
pub enum Entity<'a> {
    LocalVariable {
        number: u64,
        of: CType,
    },
    /// `of` is the type of its elements.
    LocalArray {
        number: u64,
        of: CType,
    },
    GlobalVariable {
        address: u64,
        of: CType,
    },
    /// `of` is the type of its elements.
    GlobalArray {
        address: u64,
        of: CType,
    },
    UserFunction {
        number: u64,
        returns: CType,
        parameters: &'a [Parameter],
    },
    BuiltInFunction(BuiltIn),
    /// `GetExceptionCode`
    CodeFunction,
    /// `AbnormalTermination`
    AbnormalFunction,
    /// `AddVectoredExceptionHandler`
    AddingFunction,
    /// `RemoveVectoredExceptionHandler`
    RemovingFunction,
    /// One of the constants of filters, as a number of 32 bits.
    BuiltInConstant(u64),
}

/// The bytes of an identifier.
pub fn spelled<'a>(text: &'a [u8], name: Identifier) -> &'a [u8]
    ensures { result.now ≡ spelled text.now name }
{
    let start = name.start as usize;
    let end = name.end as usize;
    if end <= start || text.len() <= start {
        return &[];
    }
    if text.len() < end {
        &text[start..]
    } else {
        &text[start..end]
    }
}

/// Whether a name is a word.
#[tactic(auto, using(crate::proofs::Names::same_flips))]
fn same(name: &[u8], word: &[u8]) -> bool
    ensures { result ≡ same_bytes word.now name.now }
{
    name == word
}

/// The built-in function of a name.
fn built_in_function(name: &[u8]) -> Option<Entity<'static>>
    ensures { option_map entity result ≡ meaning_in built_in_functions name.now }
{
    if same(name, b"put") {
        return Some(Entity::BuiltInFunction(BuiltIn::Put));
    }
    if same(name, b"protect") {
        return Some(Entity::BuiltInFunction(BuiltIn::Protect));
    }
    if same(name, b"RaiseException") {
        return Some(Entity::BuiltInFunction(BuiltIn::RaiseException));
    }
    if same(name, b"walk") {
        return Some(Entity::BuiltInFunction(BuiltIn::Walk));
    }
    if same(name, b"GetExceptionCode") {
        return Some(Entity::CodeFunction);
    }
    if same(name, b"AbnormalTermination") {
        return Some(Entity::AbnormalFunction);
    }
    if same(name, b"AddVectoredExceptionHandler") {
        return Some(Entity::AddingFunction);
    }
    if same(name, b"RemoveVectoredExceptionHandler") {
        return Some(Entity::RemovingFunction);
    }
    None
}

/// The built-in constant of a name.
fn built_in_constant(name: &[u8]) -> Option<Entity<'static>>
    ensures { option_map entity result ≡ meaning_in built_in_constants name.now }
{
    if same(name, b"EXCEPTION_EXECUTE_HANDLER") {
        return Some(Entity::BuiltInConstant(1));
    }
    if same(name, b"EXCEPTION_CONTINUE_SEARCH") {
        return Some(Entity::BuiltInConstant(0));
    }
    if same(name, b"EXCEPTION_CONTINUE_EXECUTION") {
        return Some(Entity::BuiltInConstant(0xFFFF_FFFF));
    }
    None
}

/// What a name is built in for.
#[tactic(auto, using(crate::proofs::Names::built_in_is))]
pub fn built_in(name: &[u8]) -> Option<Entity<'static>>
    ensures { option_map entity result ≡ meaning_in built_ins name.now }
{
    match built_in_function(name) {
        Some(found) => Some(found),
        None => built_in_constant(name),
    }
}

/// What a name is declared as, the innermost block first.
pub fn declared<'t>(name: &[u8], names: &SymbolTable<'t>) -> Option<Entity<'t>>
    ensures { option_map entity result ≡ meaning_in (scopes_of names.now) name.now }
{
    names.get(name)
}

/// What a name means: what it is built in for, else what it is declared as.
#[tactic(auto, using(crate::proofs::Names::meaning_append))]
pub fn meaning<'t>(name: &[u8], names: &SymbolTable<'t>) -> Option<Entity<'t>>
    ensures { option_map entity result ≡ meaning_in (built_ins ++ scopes_of names.now) name.now }
{
    match built_in(name) {
        Some(found) => Some(found),
        None => declared(name, names),
    }
}

/// Whether a name is built in, or the innermost block has it already.
#[tactic(auto, using(crate::proofs::Names::meaning_append))]
pub fn is_taken(name: &[u8], names: &SymbolTable<'_>) -> bool
    ensures { result ≡ is_taken names.now.block name.now }
{
    match built_in(name) {
        Some(_) => true,
        None => names.is_declared(name),
    }
}

/// A declaration in the innermost block; the first one of a name counts.
pub fn declare<'a>(
    name: &'a [u8],
    meaning: Entity<'a>,
    names: &mut SymbolTable<'a>,
) -> Result<(), AllocError>
    ensures { OnOk result (names.new ≡ with_block names.old
        (with_name names.old.block name.now (entity meaning.entry))) }
{
    if is_taken(name, names) {
        return Ok(());
    }
    names.insert(name, meaning)
}
