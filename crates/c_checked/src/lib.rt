//! Accepted programs of C: each name resolved, each conversion and each scaling written out, each
//! operator with its size and signedness.
//!
//! The checker builds them, the source meaning is defined on them, and the compiler lowers them.
//! What counts a step in the text is one node here. Parentheses, conversions and the decay of
//! arrays to pointers count none, and are no nodes. Begin with `expression` and `statement`;
//! `specs/Sound.antt` says what holds of every accepted program: it is the invariant of `Checked`.
//! `specs/LocalScopes.antt` has the programs that name each local where it is declared.
#![tactic(auto)]

pub mod checked;
pub mod expression;
pub mod function;
pub mod statement;
