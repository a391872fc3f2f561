//! Types of C, and what operators make of operands with types.
//!
//! `types` has the types, how their values lie in memory, and the conversions between them (C11,
//! 6.2.5 and 6.3). `operators`, `pointers`, `comparisons`, `unary` and `changes` have the
//! operators: each answers the type and the node of the whole, or none where a rule on types is
//! broken (C11, 6.5). Each function equals its definition in `c_resolved`.
//!
//! Begin with `types` and `typed`.
#![tactic(auto)]

pub mod changes;
pub mod comparisons;
pub mod nodes;
pub mod operators;
pub mod pointers;
pub mod typed;
pub mod types;
pub mod unary;
