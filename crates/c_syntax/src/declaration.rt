//! ExternalDeclaration declarations (C11, 6.9).

use crate::expression::{Base, CType, Identifier, Literal};
use crate::statement::Stmt;

/// A constant of an initialiser.
#[derive(Clone, Copy, Debug, PartialEq, Eq)]
pub struct Constant {
    /// The place of its first token, the minus or the literal.
    pub at: u64,
    /// Whether a minus is before the literal.
    pub negative: bool,
    /// The literal.
    pub literal: Literal,
}

/// What a global begins with.
#[derive(Drop)]
pub enum Initialiser {
    Single(Constant),
    /// `{ constants }`, at least one; `at` is the place of the brace.
    List { at: u64, constants: Vec<Constant> },
}

/// How many elements an array has.
#[derive(Clone, Copy, Debug, PartialEq, Eq)]
pub struct Length {
    /// The place of the literal.
    pub at: u64,
    /// How many elements.
    pub value: u64,
}

/// A global of a declaration (C11, 6.7.6).
#[derive(Drop)]
pub struct Global {
    /// How many `*` are before its name.
    pub pointers: u64,
    /// Its name.
    pub name: Identifier,
    /// How many elements it has, if it is an array.
    pub length: Option<Length>,
    /// What it begins with, if that is given.
    pub initialiser: Option<Initialiser>,
}

/// A parameter.
#[derive(Clone, Copy, Debug, PartialEq, Eq)]
pub struct Parameter {
    /// Its type.
    pub of: CType,
    /// Its name.
    pub name: Identifier,
}

/// An external declaration.
#[derive(Drop)]
pub enum ExternalDeclaration {
    /// Globals of one base, at least one.
    Globals {
        base: Base,
        globals: Vec<Global>,
    },
    Function {
        returns: CType,
        name: Identifier,
        parameters: Vec<Parameter>,
        body: Vec<Stmt>,
    },
}
