//! Expressions of C from tokens.
//!
//! An expression at the front of tokens is read by the levels of its operators (C11, 6.5), as far
//! as it continues. What is read is such an expression within the limit of nesting. A refusal
//! names the first token with which none continues, and whether one would without the limit.
//!
//! Proved: `expressions::expression`, in the words of `specs/Readings.antt` (what is read) and
//! `specs/Refusals.antt` (where a reading fails). Begin with the former.
#![tactic(auto)]

pub mod expressions;
pub mod fault;
pub mod refusal;
pub mod step;
