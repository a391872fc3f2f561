//! Statements.

use crate::declaration::Length;
use crate::expression::{Base, Expr, Identifier};

/// A local of a declaration (C11, 6.7.6).
#[derive(Drop)]
pub struct Local {
    /// How many `*` are before its name.
    pub pointers: u64,
    /// Its name.
    pub name: Identifier,
    /// How many elements it has, if it is an array.
    pub length: Option<Length>,
    /// What it begins with, if that is given.
    pub initialiser: Option<Expr>,
}

/// A declaration of locals (C11, 6.7).
#[derive(Drop)]
pub struct Declaration {
    /// What its specifiers name.
    pub base: Base,
    /// The locals, at least one.
    pub locals: Vec<Local>,
}

/// What a `for` does first (C11, 6.8.5.3).
#[derive(Drop)]
pub enum ForInitialiser {
    Declaration(Declaration),
    Expression(Option<Expr>),
}

/// A statement, or a declaration in a block (C11, 6.8). `at` is the place of the keyword.
#[derive(Drop)]
pub enum Stmt {
    /// A declaration, which is in a block alone.
    Declaration(Declaration),
    Block(Vec<Stmt>),
    /// `expression;`, or `;` alone
    Expression(Option<Expr>),
    If {
        at: u64,
        condition: Expr,
        then: Box<Stmt>,
        otherwise: Option<Box<Stmt>>,
    },
    While {
        at: u64,
        condition: Expr,
        body: Box<Stmt>,
    },
    /// `do body while (condition);`; `at` is the place of `while`.
    Do {
        body: Box<Stmt>,
        at: u64,
        condition: Expr,
    },
    For {
        at: u64,
        first: ForInitialiser,
        condition: Option<Expr>,
        next: Option<Expr>,
        body: Box<Stmt>,
    },
    Return {
        at: u64,
        value: Option<Expr>,
    },
    Break {
        at: u64,
    },
    Continue {
        at: u64,
    },
    /// `__leave;`
    Leave {
        at: u64,
    },
    /// `__try { body } __except (filter) { handler }`; `at` is the place of `__except`, by which
    /// filters are numbered.
    TryExcept {
        body: Vec<Stmt>,
        at: u64,
        filter: Expr,
        handler: Vec<Stmt>,
    },
    /// `__try { body } __finally { finally_block }`; `at` is the place of `__finally`, by which
    /// these blocks are numbered.
    TryFinally {
        body: Vec<Stmt>,
        at: u64,
        finally_block: Vec<Stmt>,
    },
}
