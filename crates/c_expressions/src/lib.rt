//! Names and expressions: the type and the node of each expression, or the least rule it breaks.
//!
//! `symbol_table` has the names of open blocks and of the file, `scopes` what they mean, and
//! `context` what a name means where an expression is; `primary` what has no operands; `rules` the
//! rules on the types of operands, whose operators are those of `c_types`; `places` the operands
//! that have to be lvalues; `calls` the arguments of calls, and `handlers` those that name vectored
//! handlers; `expressions::resolve` walks an
//! expression (C11, 6.5; Microsoft C reference, "try-except statement"); `values` has the rules on
//! an expression in a statement. The walk equals the definition `resolve_expression` of
//! `c_resolved`, and keeps the least fault in `least`.
//!
//! Begin with `specs/Resolved.antt`.
#![tactic(auto)]

pub mod calls;
pub mod context;
pub mod expressions;
pub mod handlers;
pub mod least;
pub mod places;
pub mod primary;
pub mod rules;
pub mod scopes;
pub mod symbol_table;
pub mod text_hasher;
pub mod values;
pub mod wanted;
